// Reading a row: segments until it is full (FORMAT 4.1).
ghost use Rattle.std.specs.Prelude.{◌≡◌, ◌+◌, ◌≤◌, length, take};
ghost use Rattle.rle_decoder.specs.Rows.{row_to_answer, coded_values, coded_row};

use crate::near_end::{decode_last_segments, near_end_index};
use crate::row_so_far::{RowSoFar, StoppedRow};
use crate::segment::decompress_next_segment;

// Reads a row, from index `from` of src on, into the first width values of codes, and returns the number of bytes that its segments take. The
// values stay coded: the delta code is undone only once the row is full, so that a refused row keeps its coded values. Near the end of src
// another loop reads the rest of the row, so that this one tests the length of src once for each segment.
// Source and index stay two parameters: `coded_row` has both.
pub(crate) fn decode_scanline(
    src: &[u8],
    from: usize,
    codes: &mut [u8],
    width: usize,
) -> Result<usize, StoppedRow>
    requires { (from ≤ length src.now) × (width + 47 ≤ length codes.old) }
    ensures answer { row_to_answer result ≡ (coded_row src.now from width).answer }
    ensures codes { take (coded_values width result) codes.new ≡ (coded_row src.now from width).written }
    ensures within { coded_values width result ≤ width }
{
    let near_end = near_end_index(src);
    let mut row = RowSoFar {
        at: from,
        column: 0,
        last: 0,
    };
    // no `for`: an iteration is a segment, and takes the row as many values and bytes further as the segment has
    while row.column < width {
        if near_end <= row.at {
            return decode_last_segments(src, from, row, codes, width);
        }
        let segment = decompress_next_segment(src, row, codes)?;
        row = row.after(segment, width)?;
    }
    Ok(row.at - from)
}
