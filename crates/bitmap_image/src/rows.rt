// The rows of an image of four-byte pixels, from the rows of the planes.
ghost use Rattle.std.specs.Prelude.{◌≡◌, false, ◌*◌, ◌≤◌, length};
ghost use Rattle.rle_format.specs.Slice.{overwrite};
ghost use Rattle.pixel_format.specs.Channel.{channel_offsets};
ghost use Rattle.bitmap_format.specs.Planes.{subsampled, chroma_side_of};
ghost use Rattle.bitmap_format.specs.Pixels.{four_bytes};
ghost use Rattle.bitmap_format.specs.Sizes.{row_size, image_size_of};
ghost use Rattle.bitmap_format.specs.Image.{write_rows};
ghost use Rattle.bitmap_format.specs.Picture.{is_loss_level_invalid_of};
ghost use Rattle.bitmap_rows.specs.Rows.{row_pixels};
ghost use Rattle.bitmap_image.specs.Rows.{array_width, row_with};

use crate::planes::ShownPlanes;
use bitmap_format::{Picture, has_subsampled_chroma};
use bitmap_rows::{ColorRule, RowSamples, double_samples, write_pixel_row};
use pixel_format::PixelLayout;

// Writes a row of four-byte pixels. The two arrays are for the chroma samples of a subsampled row, one for each column.
// The rule, the samples and the arrays stay parameters: only a subsampled row needs the arrays.
fn write_row(
    layout: PixelLayout,
    rule: ColorRule,
    samples: RowSamples<'_>,
    alpha: &[u8],
    dst: &mut [u8],
    width: usize,
    co: &mut [u8],
    cg: &mut [u8],
)
    requires { (is_loss_level_invalid_of rule.definition ≡ false) × (width ≤ length samples.first.now) × (chroma_side_of (subsampled rule.definition) width ≤ length samples.second.now) × (chroma_side_of (subsampled rule.definition) width ≤ length samples.third.now) × (width ≤ length alpha.now) × (4 * width ≤ length dst.old) × (array_width rule.definition width ≤ length co.old) × (array_width rule.definition width ≤ length cg.old) }
    ensures { dst.new ≡ overwrite dst.old (row_pixels (four_bytes (channel_offsets layout)) rule.definition rule.flagged samples.entry.first.now samples.entry.second.now samples.entry.third.now alpha.now width) }
{
    if has_subsampled_chroma(rule.definition) {
        double_samples(samples.second, co, width);
        double_samples(samples.third, cg, width);
        let doubled = RowSamples {
            first: samples.first,
            second: &co[0..],
            third: &cg[0..],
        };
        write_pixel_row(layout, rule, doubled, alpha, dst, width);
        return;
    }
    write_pixel_row(layout, rule, samples, alpha, dst, width);
}

// Writes the rows of an image of four-byte pixels.
// What this loop and that of rgb24.rt share is in `ColorPlanes`; one loop for both would need a closure that writes to the image and to
// the arrays, which is no plainer. `second` is counted: how far it goes on depends on the row.
pub(crate) fn write_pixel_rows(
    layout: PixelLayout,
    shown: ShownPlanes<'_, '_>,
    image: &mut [u8],
    co: &mut [u8],
    cg: &mut [u8],
)
    requires { (image_size_of (four_bytes (channel_offsets layout)) shown.colors.picture.width shown.colors.picture.height ≤ length image.old) × (array_width shown.colors.picture.header.color_plane_definition shown.colors.picture.width ≤ length co.old) × (array_width shown.colors.picture.header.color_plane_definition shown.colors.picture.width ≤ length cg.old) }
    ensures { image.new ≡ write_rows (row_size (four_bytes (channel_offsets layout)) shown.entry.colors.picture.width) (row_with (four_bytes (channel_offsets layout)) shown.entry.colors.picture.header.color_plane_definition shown.entry.colors.picture.header.use_alpha shown.entry.colors.picture.width shown.entry.colors.picture.height shown.entry.colors.planes.now shown.entry.alpha.now shown.entry.step) shown.entry.colors.picture.height image.old }
{
    let ShownPlanes {
        colors,
        alpha,
        step,
        ..
    } = shown;
    let Picture {
        header,
        width,
        height,
        ..
    } = colors.picture;
    let rule = ColorRule {
        definition: header.color_plane_definition,
        flagged: header.use_alpha,
    };
    let size = 4 * width;
    let mut to = 0;
    let mut second = width * height;
    for row in 0..height {
        let samples = colors.row_samples(row, second, second + colors.chroma.size);
        write_row(
            layout,
            rule,
            samples,
            &alpha[row * step..],
            &mut image[to..],
            width,
            co,
            cg,
        );
        second += colors.chroma_step(row);
        to += size;
    }
}
