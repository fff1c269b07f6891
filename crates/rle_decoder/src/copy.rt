// Writing the values of a segment to the array of a row's codes.
ghost use Rattle.std.specs.Prelude.{◌≡◌, ◌+◌, ◌<◌, ◌≤◌, ◌++◌, length, take, drop, replicate};
ghost use Rattle.rle_format.specs.Slice.{write_at};
ghost use Rattle.rle_decoder.specs.Appended.{Appended};

use crate::row_so_far::{RowSoFar, Segment};

// Copies 16 bytes of src, from index `from` on, to codes from index `at` on. The compiler does not know that the slices do not overlap, but it
// knows it of the local array; by way of that the copy is one load and one store.
// Slices and indices stay four parameters: `write_at` and `drop`, which say what is copied and what is kept, have them.
pub(crate) fn copy_16(src: &[u8], from: usize, codes: &mut [u8], at: usize)
    requires { (from + 16 ≤ length src.now) × (at + 16 ≤ length codes.old) }
    ensures { codes.new ≡ write_at codes.old at (take 16 (drop from src.now)) }
{
    let sixteen: [u8; 16] = *src[from..from + 16].as_array().unwrap();
    codes[at..at + 16].copy_from_slice(&sixteen);
}

// Writes `run` copies of a value to codes from index `at` on.
// Slice and index stay two parameters: `write_at` has both.
pub(crate) fn fill_run(codes: &mut [u8], at: usize, run: usize, value: u8)
    requires { at + run ≤ length codes.old }
    ensures { codes.new ≡ write_at codes.old at (replicate run value) }
{
    codes[at..at + run].fill(value);
}

// Writes the values of a segment that is not a long run behind those of the row: its raw bytes and its run. Each is written as 16 bytes, so that
// no branch depends on its count. The run overwrites what was copied behind the raw bytes, and the next segment what was filled behind the run.
pub(crate) fn write_segment(src: &[u8], row: RowSoFar, segment: Segment, codes: &mut [u8])
    requires { (segment.raw ≤ 15) × (segment.run ≤ 15) × (row.at + 16 < length src.now) × (row.column + 31 ≤ length codes.old) }
    ensures { Appended codes.old codes.new row.column (take segment.raw (drop (row.at + 1) src.now) ++ replicate segment.run segment.last) }
{
    copy_16(src, row.at + 1, codes, row.column);
    fill_run(codes, row.column + segment.raw, 16, segment.last);
}
