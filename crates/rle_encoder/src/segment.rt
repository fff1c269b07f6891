// Writing raw bytes and a run as segments (FORMAT 5.2, 5.3) into an array with room for the whole row. So nothing is tested, and raw bytes are
// copied 16 at a time, however few they are: the bytes behind them are overwritten by the next segment, or never read.
// The loops stay `while`, since each turn is a segment; with `chunks_exact(15)` each call would divide, which was measured in
// rle_scanline_encoder. `count` stands beside `raw`, since a copy of 16 reads behind the bytes that it counts. The array and the index stay two
// parameters: `Put` takes the index behind as the result of a call.
// They are the twins of rle_scanline_encoder's, which test for room and stop: with a const parameter for it each contract would have both answers.
// Control bytes are made by `as`: both halves are at most 15, which TryFrom would test again. The copy of 16 bytes stays beside
// rle_decoder's `copy_16`: decoder and encoder do not use each other.
ghost use Rattle.std.specs.Prelude.{◌≡◌, ◌+◌, ◌<◌, ◌≤◌, [], ◌∷◌, length, take, drop};
ghost use Rattle.rle_format.specs.Segment.{segments_bytes};
ghost use Rattle.rle_format.specs.Pack.{literal, repeat, split_segments, long_run};
ghost use Rattle.rle_encoder.specs.Put.{Put};

use rle_scanline_encoder::segment::{long_run_part, raw_count_of_rest, short_run_part};

// Writes one segment of up to 15 raw bytes, which begin at index `from` of raw, and a run of up to 15.
fn put_literal(
    raw: &[u8],
    from: usize,
    count: usize,
    run: usize,
    packed: &mut [u8],
    at: usize,
) -> usize
    requires { (count ≤ 15) × (run ≤ 15) × (from + 16 ≤ length raw.now) × (at + 17 ≤ length packed.old) }
    ensures { Put (literal (take count (drop from raw.now)) run ∷ []) packed.old packed.new at result }
{
    packed[at] = (16 * count + run) as u8;
    // By way of an array, since the compiler does not know that the two slices are apart: so it is one load and one store.
    let sixteen: [u8; 16] = *raw[from..from + 16].as_array().unwrap();
    packed[at + 1..at + 17].copy_from_slice(&sixteen);
    at + 1 + count
}

// Writes one segment without raw bytes, a run of 16 to 47.
fn put_repeat(run: usize, packed: &mut [u8], at: usize) -> usize
    requires { (16 ≤ run) × (run ≤ 47) × (at < length packed.old) }
    ensures { Put (repeat run ∷ []) packed.old packed.new at result }
{
    packed[at] = (16 * (run % 16) + run / 16) as u8;
    at + 1
}

// Writes the first `count` bytes of raw and a run of the last of them: 15 raw bytes at a time, then the last 1 to 15 with at most 15 of the run,
// then the rest of the run.
#[cycle(put_long_sequence_put_segment)]
pub(crate) fn put_segment(
    raw: &[u8],
    count: usize,
    run: usize,
    packed: &mut [u8],
    at: usize,
) -> usize
    requires { (0 < count) × (count + 15 ≤ length raw.now) × (at + length (segments_bytes (split_segments (take count raw.now) run)) + 16 ≤ length packed.old) }
    ensures { Put (split_segments (take count raw.now) run) packed.old packed.new at result }
{
    let mut start = 0;
    let mut to = at;
    while 15 < count - start {
        to = put_literal(raw, start, 15, 0, packed, to);
        start += 15;
    }
    to = put_literal(raw, start, count - start, short_run_part(run), packed, to);
    if run <= 15 {
        return to;
    }
    put_long_sequence(run - 15, raw[count - 1], packed, to)
}

// Writes a long run of `last`: while 16 or more are left, one control byte for at most 47 of them, then the rest as raw bytes and a short run.
// The rest, fewer than 16, comes back as a smaller run at every call.
#[cycle(put_long_sequence_put_segment)]
fn put_long_sequence(run: usize, last: u8, packed: &mut [u8], at: usize) -> usize
    requires { at + length (segments_bytes (long_run last run)) + 16 ≤ length packed.old }
    ensures { Put (long_run last run) packed.old packed.new at result }
{
    let mut left = run;
    let mut to = at;
    while 16 <= left {
        let part = long_run_part(left);
        to = put_repeat(part, packed, to);
        left -= part;
    }
    if left == 0 {
        return to;
    }
    let raw = [last; 18];
    let count = raw_count_of_rest(left);
    put_segment(&raw[0..], count, left - count, packed, to)
}
