// The image of a picture, from its planes (FORMAT 6): pixels of three or of four bytes.
#![tactic(auto)]

mod planes;
mod rgb24;
mod rows;

ghost use Rattle.std.specs.Prelude.{◌≡◌, false, ◌≤◌, length};
ghost use Rattle.pixel_format.specs.Channel.{channel_offsets};
ghost use Rattle.bitmap_format.specs.Pixels.{four_bytes, format_to_form};
ghost use Rattle.bitmap_format.specs.Sizes.{row_size, image_size_of};
ghost use Rattle.bitmap_format.specs.Image.{image_row, write_rows};
ghost use Rattle.bitmap_image.specs.Rows.{array_width, row_with};
ghost use Rattle.bitmap_image.specs.WritePlanes.{planes_fit, write_planes_of};

use bitmap_format::{
    BitmapStreamHeader, Picture, color_planes_size, has_subsampled_chroma, image_size,
    shown_alpha_size,
};
use pixel_format::{PixelFormat, PixelLayout};
use planes::{ColorPlanes, ShownPlanes, chroma_sizes};
use rgb24::write_rgb24_rows;
use rle_format::MAX_SIDE;
use rows::write_pixel_rows;

// Pictures up to this width have short arrays. To fill long ones takes about as long as to write a picture of 20 × 20 pixels.
const NARROW_WIDTH: usize = 256;

// Writes an image of four-byte pixels, with arrays of N bytes for two chroma rows. The image stays a slice beside the planes, with a fact on its
// length: in a struct contracts would name it as `planes.old.image` and `planes.new.image`, which is no plainer. Not inlined: a frame this large
// behind the tests of its caller is not safe (examples/check-probes).
// The layout stands beside the planes, since the format of a `Picture` may be RGB24.
#[inline(never)]
fn write_with_arrays<const N: usize>(
    layout: PixelLayout,
    shown: ShownPlanes<'_, '_>,
    image: &mut [u8],
)
    requires { (image_size_of (four_bytes (channel_offsets layout)) shown.colors.picture.width shown.colors.picture.height ≤ length image.old) × (array_width shown.colors.picture.header.color_plane_definition shown.colors.picture.width ≤ N) × (N ≤ 8192) }
    ensures { image.new ≡ write_rows (row_size (four_bytes (channel_offsets layout)) shown.entry.colors.picture.width) (row_with (four_bytes (channel_offsets layout)) shown.entry.colors.picture.header.color_plane_definition shown.entry.colors.picture.header.use_alpha shown.entry.colors.picture.width shown.entry.colors.picture.height shown.entry.colors.planes.now shown.entry.alpha.now shown.entry.step) shown.entry.colors.picture.height image.old }
{
    let mut co = [0u8; N];
    let mut cg = [0u8; N];
    write_pixel_rows(layout, shown, image, &mut co, &mut cg);
}

// Writes an image of four-byte pixels. Only a subsampled picture needs the arrays.
fn write_with_alpha(layout: PixelLayout, shown: ShownPlanes<'_, '_>, image: &mut [u8])
    requires { image_size_of (four_bytes (channel_offsets layout)) shown.colors.picture.width shown.colors.picture.height ≤ length image.old }
    ensures { image.new ≡ write_rows (row_size (four_bytes (channel_offsets layout)) shown.entry.colors.picture.width) (row_with (four_bytes (channel_offsets layout)) shown.entry.colors.picture.header.color_plane_definition shown.entry.colors.picture.header.use_alpha shown.entry.colors.picture.width shown.entry.colors.picture.height shown.entry.colors.planes.now shown.entry.alpha.now shown.entry.step) shown.entry.colors.picture.height image.old }
{
    let Picture { header, width, .. } = shown.colors.picture;
    if !has_subsampled_chroma(header.color_plane_definition) {
        write_with_arrays::<1>(layout, shown, image);
    } else if width <= NARROW_WIDTH {
        write_with_arrays::<NARROW_WIDTH>(layout, shown, image);
    } else {
        write_with_arrays::<MAX_SIDE>(layout, shown, image);
    }
}

// Writes an image of four-byte pixels without an alpha plane: all rows have the same row of alpha, which is 255. It is an array of N bytes.
// Not inlined, as `write_with_arrays`.
#[inline(never)]
fn write_opaque<const N: usize>(layout: PixelLayout, colors: ColorPlanes<'_>, image: &mut [u8])
    requires { (colors.picture.header.use_alpha ≡ false) × (colors.picture.width ≤ N) × (N ≤ 8192) × (image_size_of (four_bytes (channel_offsets layout)) colors.picture.width colors.picture.height ≤ length image.old) }
    ensures { (alpha : _) → image.new ≡ write_rows (row_size (four_bytes (channel_offsets layout)) colors.entry.picture.width) (image_row (four_bytes (channel_offsets layout)) colors.entry.picture.header.color_plane_definition colors.entry.picture.header.use_alpha colors.entry.picture.width colors.entry.picture.height colors.entry.planes.now alpha) colors.entry.picture.height image.old }
{
    let opaque = [255u8; N];
    let shown = ShownPlanes {
        colors,
        alpha: &opaque,
        step: 0,
    };
    write_with_alpha(layout, shown, image);
}

// Whether planes and image, of these lengths, have their minimum sizes.
fn has_planes(picture: Picture, planes: usize, alpha: usize, image: usize) -> bool
    ensures { result ≡ planes_fit (format_to_form picture.format) picture.header picture.width picture.height planes alpha image }
{
    let Picture {
        format,
        header,
        width,
        height,
        ..
    } = picture;
    image_size(format, width, height) <= image
        && color_planes_size(header, width, height) <= planes
        && shown_alpha_size(format, header.use_alpha, width, height) <= alpha
}

// Writes the image of a picture. `planes` begins with its three colour planes, `alpha` with its alpha plane, if four-byte pixels show one. If the
// picture cannot be written, the image is unchanged.
// Header record and sides stay one by one: its clause, which docs/PROOFS.md names, is of every header record and of all sides.
pub fn write_planes(
    format: PixelFormat,
    header: BitmapStreamHeader,
    planes: &[u8],
    alpha: &[u8],
    image: &mut [u8],
    width: usize,
    height: usize,
)
    ensures { image.new ≡ write_planes_of (format_to_form format) header width height planes.now alpha.now image.old }
{
    let Ok(picture) = Picture::new(format, header, width, height) else {
        return;
    };
    if !has_planes(picture, planes.len(), alpha.len(), image.len()) {
        return;
    }
    let chroma = chroma_sizes(picture);
    let colors = ColorPlanes {
        picture,
        planes,
        chroma,
    };
    let PixelFormat::FourBytes(layout) = picture.format else {
        write_rgb24_rows(colors, image);
        return;
    };
    if picture.header.use_alpha {
        let step = picture.width;
        let shown = ShownPlanes {
            colors,
            alpha,
            step,
        };
        write_with_alpha(layout, shown, image);
    } else if picture.width <= NARROW_WIDTH {
        write_opaque::<NARROW_WIDTH>(layout, colors, image);
    } else {
        write_opaque::<MAX_SIDE>(layout, colors, image);
    }
}
