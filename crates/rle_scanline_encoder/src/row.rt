// Scanning a row of coded values for the ends of its segments (FORMAT 5.1).
ghost use Rattle.std.specs.Prelude.{◌≡◌, ◌≤◌, ◌<◌, length};
ghost use Rattle.rle_format.specs.Answer.{to_answer};
ghost use Rattle.rle_format.specs.Pack.{row_segments};
ghost use Rattle.rle_format.specs.Written.{answer_at, slice_at};
ghost use Rattle.rle_scanline_encoder.specs.RowEnd.{row_end_segments};

use crate::segment::encode_segment;
use rle_format::Refusal;

// Writes the last segments of a row: the pending values begin at index `start`, and the value at `last` is repeated up to the end of the row.
// Indices stay beside their slices, as in segment.rt.
fn encode_row_end(
    codes: &[u8],
    start: usize,
    last: usize,
    dst: &mut [u8],
    at: usize,
) -> Result<usize, Refusal>
    requires { (start ≤ last) × (last < length codes.now) × (at ≤ length dst.old) }
    ensures answer { to_answer result ≡ answer_at (row_end_segments codes.now start last) dst.old at }
    ensures slice { dst.new ≡ slice_at (row_end_segments codes.now start last) dst.old at }
{
    let repeats = codes.len() - last - 1;
    if repeats < 3 {
        return encode_segment(&codes[start..], 0, dst, at);
    }
    encode_segment(&codes[start..last + 1], repeats, dst, at)
}

// Packs a row into the first bytes of dst. codes[start..last] are pending raw values; the value after them is at index `last`, and those from there
// up to i are equal to it. 3 or more repeats end a segment; fewer are pending too.
pub(crate) fn encode_row(codes: &[u8], dst: &mut [u8]) -> Result<usize, Refusal>
    requires { 0 < length codes.now }
    ensures answer { to_answer result ≡ answer_at (row_segments codes.now) dst.old 0 }
    ensures slice { dst.new ≡ slice_at (row_segments codes.now) dst.old 0 }
{
    let mut start = 0;
    let mut last = 0;
    let mut to = 0;
    for i in 1..codes.len() {
        if codes[i] == codes[last] {
            continue;
        }
        if i - last - 1 < 3 {
            last = i;
            continue;
        }
        to = encode_segment(&codes[start..last + 1], i - last - 1, dst, to)?;
        start = i;
        last = i;
    }
    encode_row_end(codes, start, last, dst, to)
}
