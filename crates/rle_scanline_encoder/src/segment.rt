// Writing raw bytes and a run as segments (FORMAT 5.2, 5.3). Each function with a destination writes into it from index `at` on, only complete
// segments, and returns the index behind the last, or refusal 12 at the first that does not fit. rle_encoder, which writes segments where there
// is room, divides a run by the same functions.
// The destination and the index stay two parameters: `answer_at` and `Wrote` of rle_format take the index behind as the result of a call.
// The loops stay `while`, since each turn is a segment. With `chunks_exact(15)` the last 1 to 15 raw bytes, which go with the run, are cut off
// first, by a division at each call: that was tried, and planes 16 wide take up to 1.13 times as long.
// Control bytes are made by `as`: both halves are at most 15, which TryFrom would test again.
ghost use Rattle.std.specs.Prelude.{◌≡◌, [], ◌∷◌, ◌≤◌, ◌<◌, min, length};
ghost use Rattle.rle_format.specs.Answer.{to_answer};
ghost use Rattle.rle_format.specs.Pack.{literal, repeat, split_segments, long_run};
ghost use Rattle.rle_format.specs.Written.{answer_at, slice_at};

use rle_format::Refusal;

// The longest run of one segment. The name is IronRDP's.
const MAX_DECODED_SEGMENT_SIZE: usize = 47;

// Writes one segment of up to 15 raw bytes and a run of up to 15.
fn write_literal(raw: &[u8], run: usize, dst: &mut [u8], at: usize) -> Result<usize, Refusal>
    requires { (length raw.now ≤ 15) × (run ≤ 15) × (at ≤ length dst.old) }
    ensures answer { to_answer result ≡ answer_at (literal raw.now run ∷ []) dst.old at }
    ensures slice { dst.new ≡ slice_at (literal raw.now run ∷ []) dst.old at }
{
    let raw_len = raw.len();
    if dst.len() - at < raw_len + 1 {
        return Err(Refusal::BufferTooSmall);
    }
    dst[at] = (16 * raw_len + run) as u8;
    dst[at + 1..at + 1 + raw_len].copy_from_slice(raw);
    Ok(at + 1 + raw_len)
}

// Writes one segment without raw bytes, a run of 16 to 47.
fn write_repeat(run: usize, dst: &mut [u8], at: usize) -> Result<usize, Refusal>
    requires { (16 ≤ run) × (run ≤ 47) × (at ≤ length dst.old) }
    ensures answer { to_answer result ≡ answer_at (repeat run ∷ []) dst.old at }
    ensures slice { dst.new ≡ slice_at (repeat run ∷ []) dst.old at }
{
    if dst.len() - at < 1 {
        return Err(Refusal::BufferTooSmall);
    }
    dst[at] = (16 * (run % 16) + run / 16) as u8;
    Ok(at + 1)
}

// How much of a long run goes into one segment.
pub fn long_run_part(left: usize) -> usize
    ensures { result ≡ min left 47 }
{
    left.min(MAX_DECODED_SEGMENT_SIZE)
}

// How many raw bytes the rest of a long run, 1 to 15 values, begins with: 1 to 3 values are all raw, 4 to 15 are one raw byte and a run.
pub fn raw_count_of_rest(left: usize) -> usize
    ensures few { (min left 1 ≤ result) × (result ≤ 3) × (result ≤ left) }
    ensures part { (left < 4 → result ≡ left) × (4 ≤ left → result ≡ 1) }
{
    if left < 4 { left } else { 1 }
}

// How much of a run goes into the segment with the raw bytes before it.
pub fn short_run_part(run: usize) -> usize
    ensures { result ≡ min run 15 }
{
    run.min(15)
}

// Writes raw bytes and a run of the last of them: 15 raw bytes at a time, then the last 1 to 15 with at most 15 of the run, then the rest of the
// run.
#[cycle(encode_long_sequence_encode_segment)]
pub(crate) fn encode_segment(
    raw: &[u8],
    run: usize,
    dst: &mut [u8],
    at: usize,
) -> Result<usize, Refusal>
    requires { (0 < length raw.now) × (at ≤ length dst.old) }
    ensures answer { to_answer result ≡ answer_at (split_segments raw.now run) dst.old at }
    ensures slice { dst.new ≡ slice_at (split_segments raw.now run) dst.old at }
{
    let mut start = 0;
    let mut to = at;
    while 15 < raw.len() - start {
        to = write_literal(&raw[start..start + 15], 0, dst, to)?;
        start += 15;
    }
    let next = write_literal(&raw[start..], short_run_part(run), dst, to)?;
    if run <= 15 {
        return Ok(next);
    }
    encode_long_sequence(run - 15, raw[raw.len() - 1], dst, next)
}

// Writes a long run of `last`: while 16 or more are left, one control byte for at most 47 of them, then the rest as raw bytes and a short run.
#[cycle(encode_long_sequence_encode_segment)]
fn encode_long_sequence(run: usize, last: u8, dst: &mut [u8], at: usize) -> Result<usize, Refusal>
    requires { at ≤ length dst.old }
    ensures answer { to_answer result ≡ answer_at (long_run last run) dst.old at }
    ensures slice { dst.new ≡ slice_at (long_run last run) dst.old at }
{
    let mut left = run;
    let mut to = at;
    while 16 <= left {
        let part = long_run_part(left);
        to = write_repeat(part, dst, to)?;
        left -= part;
    }
    if left == 0 {
        return Ok(to);
    }
    let raw = [last; 3];
    let count = raw_count_of_rest(left);
    encode_segment(&raw[0..count], left - count, dst, to)
}
