// Segments near the end of src, where 16 bytes must not be read at once (FORMAT 3, 4.1).
ghost use Rattle.std.specs.Prelude.{◌≡◌, ◌+◌, ◌-◌, ◌≤◌, length, take, drop, IfErr};
ghost use Rattle.rle_format.specs.Segment.{read_segment};
ghost use Rattle.rle_decoder.specs.Appended.{Appended};
ghost use Rattle.rle_decoder.specs.NextSegment.{segment_answer, next_to_answer, values_of};
ghost use Rattle.rle_decoder.specs.Rows.{row_to_answer, coded_values, row_continued};

use crate::copy::fill_run;
use crate::row_so_far::{RowSoFar, Segment, StoppedRow};
use crate::segment::{high_half, last_decoded_byte, low_half};
use rle_format::Refusal;

// The first index of src at which a control byte has fewer than 16 bytes behind it.
pub(crate) fn near_end_index(src: &[u8]) -> usize
    ensures { result ≡ length src.now - 16 }
{
    src.len().saturating_sub(16)
}

// Reads a segment as `decompress_next_segment` does, but tests for every byte of src whether it is there, and copies raw bytes by their
// number.
// Its parameters stay three for the reason given there.
fn decompress_last_segment(
    src: &[u8],
    row: RowSoFar,
    codes: &mut [u8],
) -> Result<Segment, StoppedRow>
    requires { row.column + 48 ≤ length codes.old }
    ensures read { next_to_answer result ≡ segment_answer row.last (read_segment (drop row.at src.now)) }
    ensures stopped { IfErr result (λ stop. stop.column ≡ row.column) }
    ensures values { Appended codes.old codes.new row.column (values_of row.last (read_segment (drop row.at src.now))) }
{
    if src.len() <= row.at {
        return Err(row.stopped(Refusal::ReadCompressedData));
    }
    let control = src[row.at];
    if control == 0 {
        return Err(row.stopped(Refusal::InvalidSegmentHeader));
    }
    let low = low_half(control);
    let high = high_half(control);
    if low.wrapping_sub(1) < 2 {
        fill_run(codes, row.column, 48, row.last);
        return Ok(Segment {
            raw: 0,
            run: low * 16 + high,
            last: row.last,
        });
    }
    if src.len() - row.at <= high {
        return Err(row.stopped(Refusal::ReadCompressedData));
    }
    let last = last_decoded_byte(src, row, high);
    let start = row.at + 1;
    codes[row.column..row.column + high].copy_from_slice(&src[start..start + high]);
    fill_run(codes, row.column + high, 16, last);
    Ok(Segment {
        raw: high,
        run: low,
        last,
    })
}

// Reads the rest of a row that began at index `from` of src.
// Source and index stay two parameters: `row_continued` has both.
pub(crate) fn decode_last_segments(
    src: &[u8],
    from: usize,
    so_far: RowSoFar,
    codes: &mut [u8],
    width: usize,
) -> Result<usize, StoppedRow>
    requires { (from ≤ so_far.at) × (so_far.at ≤ length src.now) × (so_far.column ≤ width) × (width + 47 ≤ length codes.old) }
    ensures answer { row_to_answer result ≡ (row_continued src.now codes.old from width so_far.at so_far.column so_far.last).answer }
    ensures codes { take (coded_values width result) codes.new ≡ (row_continued src.now codes.old from width so_far.at so_far.column so_far.last).written }
    ensures within { coded_values width result ≤ width }
{
    let mut row = so_far;
    // no `for`, as in `decode_scanline`; no function for both loops: each calls a reader of its own, and only the loop of `decode_scanline` tests
    // whether the end is near
    while row.column < width {
        let segment = decompress_last_segment(src, row, codes)?;
        row = row.after(segment, width)?;
    }
    Ok(row.at - from)
}
