// Packing a picture from its planes.
ghost use Rattle.std.specs.Prelude.{◌≡◌, ◌*◌, ◌≤◌, false, length, map, IfOk, IfErr};
ghost use Rattle.rle_format.specs.Answer.{refused, number, to_answer};
ghost use Rattle.rle_format.specs.Slice.{overwrite};
ghost use Rattle.rle_format.specs.Written.{answer_at, slice_at};
ghost use Rattle.pixel_format.specs.Samples.{samples_in};
ghost use Rattle.bitmap_format.specs.PackPicture.{picture_segments, raw_body, write_all_or_nothing, any_short, check_pack, pack_picture};

use pixel_format::Samples;
use rle_encoder::compress_8bpp_channel;
use rle_format::{Refusal, ValidSides};

// The checks before anything is written: refusals 1, 2 and 11.
fn check_planes(planes: &[Samples], width: usize, height: usize) -> Result<ValidSides, Refusal>
    ensures passed { IfOk result (λ sides. (sides.width ≡ width) × (sides.height ≡ height) × (any_short (width * height) (map samples_in planes.now) ≡ false)) }
    ensures refused { IfErr result (λ r. check_pack width height (map samples_in planes.now) ≡ refused (number r)) }
{
    let sides = ValidSides::new(width, height)?;
    for plane in planes {
        if plane.count() < sides.area() {
            return Err(Refusal::NotEnoughBytes);
        }
    }
    Ok(sides)
}

// Packs each plane behind the one before it (FORMAT 7.3).
// `at` is counted, since each plane says how many bytes it took.
fn compress_planes(planes: &[Samples], dst: &mut [u8], sides: ValidSides) -> Result<usize, Refusal>
    requires { any_short (sides.width * sides.height) (map samples_in planes.now) ≡ false }
    ensures answer { to_answer result ≡ answer_at (picture_segments sides.width sides.height (map samples_in planes.now)) dst.old 0 }
    ensures slice { dst.new ≡ slice_at (picture_segments sides.width sides.height (map samples_in planes.now)) dst.old 0 }
{
    let mut at = 0;
    for plane in planes {
        at += compress_8bpp_channel(*plane, &mut dst[at..], sides.width, sides.height)?;
    }
    Ok(at)
}

// Writes the first n samples of each plane, and the zero byte that ends a raw body (FORMAT 7.4).
// `at` is counted: behind the loop it is where the zero byte goes.
fn write_planes(planes: &[Samples], dst: &mut [u8], n: usize) -> Result<usize, Refusal>
    requires { (length planes.now ≤ 4) × (n ≤ 67108864) × (any_short n (map samples_in planes.now) ≡ false) }
    ensures answer { to_answer result ≡ (write_all_or_nothing (raw_body n (map samples_in planes.now)) (length dst.old)).answer }
    ensures slice { dst.new ≡ overwrite dst.old (write_all_or_nothing (raw_body n (map samples_in planes.now)) (length dst.old)).written }
{
    let size = planes.len() * n + 1;
    if dst.len() < size {
        return Err(Refusal::BufferTooSmall);
    }
    let mut at = 0;
    for plane in planes {
        plane.read(0, &mut dst[at..at + n]);
        at += n;
    }
    dst[at] = 0;
    Ok(size)
}

// Packs a picture of up to four planes into the first bytes of dst, and returns the number of bytes written.
pub(crate) fn encode(
    planes: &[Samples],
    dst: &mut [u8],
    rle: bool,
    width: usize,
    height: usize,
) -> Result<usize, Refusal>
    requires { length planes.now ≤ 4 }
    ensures answer { to_answer result ≡ (pack_picture rle width height (length dst.old) (map samples_in planes.now)).answer }
    ensures slice { dst.new ≡ overwrite dst.old (pack_picture rle width height (length dst.old) (map samples_in planes.now)).written }
{
    let sides = check_planes(planes, width, height)?;
    if rle {
        return compress_planes(planes, dst, sides);
    }
    write_planes(planes, dst, sides.area())
}
