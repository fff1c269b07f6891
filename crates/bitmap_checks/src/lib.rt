// The checks before a picture is unpacked: refusals 1 to 6 (FORMAT 8). They depend on numbers alone, so they are a crate of their own: nothing that
// reads or writes a slice is proved again when a check changes.
#![tactic(auto)]

ghost use Rattle.std.specs.Prelude.{◌≡◌};
ghost use Rattle.rle_format.specs.Answer.{to_answer};
ghost use Rattle.bitmap_format.specs.Pixels.{format_to_form};
ghost use Rattle.bitmap_format.specs.Picture.{check_picture};

use bitmap_format::{BitmapStreamHeader, Picture, image_size, min_body_size, work_size};
use pixel_format::PixelFormat;
use rle_format::Refusal;

// The first of refusals 1 to 6, given the lengths of body, work area and image; or else the size of the image, which is the answer of the picture
// unless one of its planes is refused.
pub fn first_refusal(
    format: PixelFormat,
    header: BitmapStreamHeader,
    width: usize,
    height: usize,
    body: usize,
    work: usize,
    image: usize,
) -> Result<usize, Refusal>
    ensures { to_answer result ≡ check_picture (format_to_form format) header width height body work image }
{
    Picture::new(format, header, width, height)?;
    if body < min_body_size(header, width, height) {
        return Err(Refusal::InvalidUncompressedDataSize);
    }
    if work < work_size(format, header, width, height) {
        return Err(Refusal::ShortWork);
    }
    let size = image_size(format, width, height);
    if image < size {
        return Err(Refusal::ShortImage);
    }
    Ok(size)
}
