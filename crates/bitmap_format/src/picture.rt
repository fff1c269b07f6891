// A picture whose sides and loss level are checked once (FORMAT 8.1, refusals 1 to 3).
ghost use Rattle.std.specs.Prelude.{◌≡◌, false, Ok, Err};
ghost use Rattle.rle_format.specs.Choice.{choose};
ghost use Rattle.rle_format.specs.Sides.{check_sides_of, AllowedSides};
ghost use Rattle.bitmap_format.specs.Picture.{is_loss_level_invalid_of};

use crate::{BitmapStreamHeader, is_loss_level_invalid};
use pixel_format::PixelFormat;
use rle_format::{Refusal, ValidSides};

// What a picture is, but for its planes: the pixels that it is unpacked to, its header record and its sides. They pass refusals 1 to 3.
#[derive(Clone, Copy)]
pub struct Picture {
    pub format: PixelFormat,
    pub header: BitmapStreamHeader,
    pub width: usize,
    pub height: usize,
    pub ghost allowed: { AllowedSides width height },
    pub ghost level: { is_loss_level_invalid_of header.color_plane_definition ≡ false },
}

impl Picture {
    ghost use Rattle.bitmap_format.specs.CheckedPicture.{picture_or_number};

    // The picture, or the first of refusals 1 to 3.
    #[tactic(auto, unfolding(rle_format::specs::Sides::check_sides_of))]
    pub fn new(
        format: PixelFormat,
        header: BitmapStreamHeader,
        width: usize,
        height: usize,
    ) -> Result<Picture, Refusal>
        ensures { picture_or_number result ≡ check_sides_of Err width height (choose (is_loss_level_invalid_of header.color_plane_definition) (Err 3) (Ok (format, header, width, height))) }
    {
        let sides = ValidSides::new(width, height)?;
        if is_loss_level_invalid(header.color_plane_definition) {
            return Err(Refusal::LossLevel);
        }
        Ok(Picture {
            format,
            header,
            width: sides.width,
            height: sides.height,
        })
    }
}
