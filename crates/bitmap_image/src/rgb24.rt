// The rows of an image of three-byte pixels, from the rows of the planes.
ghost use Rattle.std.specs.Prelude.{◌≡◌, [], ◌≤◌, length};
ghost use Rattle.bitmap_format.specs.Pixels.{three_bytes};
ghost use Rattle.bitmap_format.specs.Sizes.{row_size, image_size_of};
ghost use Rattle.bitmap_format.specs.Image.{image_row, write_rows};

use crate::planes::ColorPlanes;
use bitmap_format::Picture;
use bitmap_rows::{ColorRule, write_rgb24_row};

// Writes the rows of the image.
// rows.rt says why the loop stays, and why the starts of the chroma rows are counted.
pub(crate) fn write_rgb24_rows(planes: ColorPlanes<'_>, image: &mut [u8])
    requires { image_size_of three_bytes planes.picture.width planes.picture.height ≤ length image.old }
    ensures { image.new ≡ write_rows (row_size three_bytes planes.entry.picture.width) (image_row three_bytes planes.entry.picture.header.color_plane_definition planes.entry.picture.header.use_alpha planes.entry.picture.width planes.entry.picture.height planes.entry.planes.now []) planes.entry.picture.height image.old }
{
    let Picture {
        header,
        width,
        height,
        ..
    } = planes.picture;
    let rule = ColorRule {
        definition: header.color_plane_definition,
        flagged: header.use_alpha,
    };
    let size = 3 * width;
    let mut to = 0;
    let mut second = width * height;
    let mut third = second + planes.chroma.size;
    for row in 0..height {
        let samples = planes.row_samples(row, second, third);
        write_rgb24_row(rule, samples, &mut image[to..], width);
        let step = planes.chroma_step(row);
        second += step;
        third += step;
        to += size;
    }
}
