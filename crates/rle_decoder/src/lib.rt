// Unpacks an RLE plane (FORMAT 3, 4; MS-RDPEGDI 3.1.9.2): the decoding half of IronRDP's rdp6/rle.rs.
#![tactic(auto)]

mod copy;
mod delta;
mod near_end;
mod row;
mod row_so_far;
mod segment;

ghost use Rattle.std.specs.Prelude.{◌≡◌, ◌+◌, ◌*◌, ◌^◌, ◌<◌, ◌≤◌, length};
ghost use Rattle.std.proofs.Math.Option.{none};
ghost use Rattle.rle_format.specs.Answer.{to_answer};
ghost use Rattle.rle_format.specs.Slice.{overwrite};
ghost use Rattle.rle_format.specs.Unpack.{unpack_rows, unpack_plane};

use delta::restore_row;
use rle_format::{MAX_SIDE, Refusal, ValidSides};
use row::decode_scanline;

// An array of codes is longer than a row: 48 bytes are written for a segment that begins at the row's last value. Three contracts say so. A struct of
// the array and the width would say it once, but, lent to be written, needs a clause that its array keeps its length, in each of its methods.
const MARGIN: usize = 47;

// Planes of at most this width have a shorter array. Each call fills its array with zeros: to fill the long one takes about as long as to unpack
// a plane of 8 × 8 samples.
const NARROW_WIDTH: usize = 256;

const NARROW_CODES: usize = NARROW_WIDTH + MARGIN;

const WIDE_CODES: usize = MAX_SIDE + MARGIN;

// Reads the rows of a plane into the start of dst, each by way of codes, so that it reaches dst once: a full row as its samples, a refused
// row as the coded values of its earlier segments. All rows are read by the same call, which the compiler then makes part of this loop.
// `start` is counted: `chunks_exact_mut` lends one row, and a row is restored from the one above it too. So
// is `at`: each row says how many bytes it took.
fn decode(src: &[u8], dst: &mut [u8], sides: ValidSides, codes: &mut [u8]) -> Result<usize, Refusal>
    requires { (sides.width * sides.height ≤ length dst.old) × (sides.width + 47 ≤ length codes.old) }
    ensures answer { to_answer result ≡ (unpack_rows sides.width sides.height none src.now).answer }
    ensures slice { dst.new ≡ overwrite dst.old (unpack_rows sides.width sides.height none src.now).written }
{
    let width = sides.width;
    let mut at = 0;
    let mut start = 0;
    for _ in 0..sides.height {
        match decode_scanline(src, at, codes, width) {
            Ok(read) => at += read,
            Err(stop) => {
                dst[start..start + stop.column].copy_from_slice(&codes[..stop.column]);
                return Err(stop.reason);
            }
        }
        restore_row(&codes[..width], dst, start);
        start += width;
    }
    Ok(at)
}

// Does so by way of an array of CODES values. Not inlined: a frame this large behind the tests of its caller is not safe (examples/check-probes).
#[inline(never)]
fn decode_with<const CODES: usize>(
    src: &[u8],
    dst: &mut [u8],
    sides: ValidSides,
) -> Result<usize, Refusal>
    requires { (sides.width * sides.height ≤ length dst.old) × (sides.width + 47 ≤ CODES) × (CODES < 2 ^ 63) }
    ensures answer { to_answer result ≡ (unpack_rows sides.width sides.height none src.now).answer }
    ensures slice { dst.new ≡ overwrite dst.old (unpack_rows sides.width sides.height none src.now).written }
{
    let mut codes = [0u8; CODES];
    decode(src, dst, sides, &mut codes)
}

// Unpacks a plane of width × height samples from src into the first bytes of dst, and returns the number of bytes that its segments take.
// Refusals 1, 2, 10, then 7, 8, 9; FORMAT 8.3 says what each leaves in dst.
pub fn decompress_8bpp_plane(
    src: &[u8],
    dst: &mut [u8],
    width: usize,
    height: usize,
) -> Result<usize, Refusal>
    ensures answer { to_answer result ≡ (unpack_plane width height (length dst.old) src.now).answer }
    ensures slice { dst.new ≡ overwrite dst.old (unpack_plane width height (length dst.old) src.now).written }
{
    let sides = ValidSides::new(width, height)?;
    if dst.len() < sides.area() {
        return Err(Refusal::ShortPlane);
    }
    if sides.width <= NARROW_WIDTH {
        return decode_with::<NARROW_CODES>(src, dst, sides);
    }
    decode_with::<WIDE_CODES>(src, dst, sides)
}
