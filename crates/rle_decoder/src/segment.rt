// Reading a segment that has at least 16 bytes of src behind its control byte (FORMAT 3).
ghost use Rattle.std.specs.Prelude.{◌≡◌, ◌+◌, ◌/◌, ◌%◌, ◌<◌, ◌≤◌, length, take, drop, IfErr};
ghost use Rattle.rle_format.specs.Segment.{read_segment, last_or};
ghost use Rattle.rle_decoder.specs.NextSegment.{segment_answer, next_to_answer, values_of};
ghost use Rattle.rle_decoder.specs.Appended.{Appended};

use crate::copy::{copy_16, fill_run, write_segment};
use crate::row_so_far::{RowSoFar, Segment, StoppedRow};
use rle_format::Refusal;

// The control byte of 15 raw bytes without a run; rows of noise have hardly any other. A test for it alone lets the processor predict where the
// next control byte is, before it has read this one.
const FULL_LITERAL: u8 = 0xF0;

// The low four bits of a control byte.
pub(crate) fn low_half(control: u8) -> usize
    ensures { (result ≡ control % 16) × (result ≤ 15) }
{
    usize::from(control % 16)
}

// The high four bits.
pub(crate) fn high_half(control: u8) -> usize
    ensures { (result ≡ control / 16) × (result ≤ 15) }
{
    usize::from(control / 16)
}

// The last byte after the row's next segment, by the number of its raw bytes.
pub(crate) fn last_decoded_byte(src: &[u8], row: RowSoFar, raw: usize) -> u8
    requires { row.at + raw < length src.now }
    ensures { result ≡ last_or row.last (take raw (drop (row.at + 1) src.now)) }
{
    if raw == 0 {
        return row.last;
    }
    src[row.at + raw]
}

// Reads the row's next segment. Its values go to codes, behind those of the row, before the row knows whether they fit. They are written in
// steps of 16 bytes, whatever their number: what codes has behind them is not determined.
// Source, row and codes stay three parameters: the row is copied at each segment, and only the codes are written.
pub(crate) fn decompress_next_segment(
    src: &[u8],
    row: RowSoFar,
    codes: &mut [u8],
) -> Result<Segment, StoppedRow>
    requires { (row.at + 16 < length src.now) × (row.column + 48 ≤ length codes.old) }
    ensures read { next_to_answer result ≡ segment_answer row.last (read_segment (drop row.at src.now)) }
    ensures stopped { IfErr result (λ stop. stop.column ≡ row.column) }
    ensures values { Appended codes.old codes.new row.column (values_of row.last (read_segment (drop row.at src.now))) }
{
    let control = src[row.at];
    let low = low_half(control);
    let high = high_half(control);
    // run field 1 or 2, a long run: one comparison for both
    if low.wrapping_sub(1) < 2 {
        fill_run(codes, row.column, 48, row.last);
        return Ok(Segment {
            raw: 0,
            run: low * 16 + high,
            last: row.last,
        });
    }
    if control == FULL_LITERAL {
        copy_16(src, row.at + 1, codes, row.column);
        return Ok(Segment {
            raw: 15,
            run: 0,
            last: src[row.at + 15],
        });
    }
    if control == 0 {
        return Err(row.stopped(Refusal::InvalidSegmentHeader));
    }
    // every other control byte: `high` raw bytes, then a run of `low`
    let segment = Segment {
        raw: high,
        run: low,
        last: last_decoded_byte(src, row, high),
    };
    write_segment(src, row, segment, codes);
    Ok(segment)
}
