// Pictures (FORMAT 1, 2; MS-RDPEGDI 2.2.2.5.1): the header record, pictures that are checked once, and the sizes. The definitions that the contracts of
// decoder and encoder cite are in specs/.
#![tactic(auto)]

mod picture;
mod plane_sizes;

ghost use Rattle.std.specs.Prelude.{◌≡◌, ℕ, ◌≤◌};
ghost use Rattle.rle_format.specs.Sides.{check_sides_of};
ghost use Rattle.bitmap_format.specs.Planes.{subsampled, chroma_side_of};
ghost use Rattle.bitmap_format.specs.Pixels.{format_to_form, bytes_per_pixel_of, shown_alpha_size_of};
ghost use Rattle.bitmap_format.specs.Picture.{is_loss_level_invalid_of};
ghost use Rattle.bitmap_format.specs.Sizes.{min_body_size_of, colour_planes_size, work_size_of, image_size_of};

pub use picture::Picture;
use pixel_format::PixelFormat;
use plane_sizes::{min_color_planes_size, min_plane_size};
use rle_format::ValidSides;

// The plane definition (FORMAT 1.3). The names are IronRDP's.
#[derive(Clone, Copy)]
pub enum ColorPlaneDefinition {
    Argb,
    AYCoCg {
        color_loss_level: u8,
        use_chroma_subsampling: bool,
    },
}

// The header record (FORMAT 1.3).
#[derive(Clone, Copy)]
pub struct BitmapStreamHeader {
    pub enable_rle_compression: bool,
    pub use_alpha: bool,
    pub color_plane_definition: ColorPlaneDefinition,
}

// The colour of a pixel.
#[derive(Clone, Copy)]
pub struct Rgb {
    pub r: u8,
    pub g: u8,
    pub b: u8,
}

// A picture that was packed: the number of bytes written, and the header record to send.
#[derive(Clone, Copy)]
pub struct Encoded {
    pub bytes: usize,
    pub header: BitmapStreamHeader,
}

// Whether the chroma planes are subsampled.
pub fn has_subsampled_chroma(definition: ColorPlaneDefinition) -> bool
    ensures { result ≡ subsampled definition }
{
    matches!(
        definition,
        ColorPlaneDefinition::AYCoCg {
            use_chroma_subsampling: true,
            ..
        }
    )
}

// Whether the definition is AYCoCg with a loss level outside 1 to 7.
#[tactic(auto, unfolding(crate::specs::Picture::is_loss_level_invalid_of))]
pub fn is_loss_level_invalid(definition: ColorPlaneDefinition) -> bool
    ensures { result ≡ is_loss_level_invalid_of definition }
{
    matches!(
        definition,
        ColorPlaneDefinition::AYCoCg {
            color_loss_level: 0 | 8..=255,
            ..
        }
    )
}

// A side of a chroma plane, given that of the picture (FORMAT 2.2).
#[tactic(auto, unfolding(crate::specs::Planes::chroma_side_of))]
pub fn chroma_side(subsampling: bool, side: usize) -> usize
    ensures { result ≡ chroma_side_of subsampling side }
{
    if subsampling {
        return side.div_ceil(2);
    }
    side
}

// The sizes answer 0 for sides that are refused, which a `Picture` excludes, so they take header record and sides one by one, as their clauses say. The 0 is
// no Option: the clauses have it, and C gets it (rdp6_work_size, rdp6_image_size).

// The minimum size of a body, or 0 if the sides are refused.
pub fn min_body_size(header: BitmapStreamHeader, width: usize, height: usize) -> usize
    ensures { result ≡ check_sides_of (λ (_ : ℕ). 0) width height (min_body_size_of header width height) }
{
    let Ok(sides) = ValidSides::new(width, height) else {
        return 0;
    };
    let rle = header.enable_rle_compression;
    let subsampling = has_subsampled_chroma(header.color_plane_definition);
    let color = min_color_planes_size(rle, subsampling, sides);
    if header.use_alpha {
        return min_plane_size(rle, sides) + color;
    }
    color
}

// The size of the three colour planes, or 0 if the sides are refused.
pub fn color_planes_size(header: BitmapStreamHeader, width: usize, height: usize) -> usize
    ensures { result ≡ check_sides_of (λ (_ : ℕ). 0) width height (colour_planes_size header width height) }
{
    let Ok(sides) = ValidSides::new(width, height) else {
        return 0;
    };
    let subsampling = has_subsampled_chroma(header.color_plane_definition);
    min_color_planes_size(false, subsampling, sides)
}

// The size of the alpha plane if the pixels show it, else 0; 0 too if the sides are refused. The second clause bounds it, so that callers can add
// without overflow.
pub fn shown_alpha_size(format: PixelFormat, flagged: bool, width: usize, height: usize) -> usize
    ensures size { result ≡ check_sides_of (λ (_ : ℕ). 0) width height (shown_alpha_size_of (format_to_form format) flagged width height) }
    ensures bound { result ≤ 67108864 }
{
    let Ok(sides) = ValidSides::new(width, height) else {
        return 0;
    };
    if !flagged {
        return 0;
    }
    match format {
        PixelFormat::Rgb24 => 0,
        PixelFormat::FourBytes(_) => sides.area(),
    }
}

// The minimum size of the work area, or 0 if the sides are refused. For a raw picture it is 0.
pub fn work_size(
    format: PixelFormat,
    header: BitmapStreamHeader,
    width: usize,
    height: usize,
) -> usize
    ensures { result ≡ check_sides_of (λ (_ : ℕ). 0) width height (work_size_of (format_to_form format) header width height) }
{
    let Ok(sides) = ValidSides::new(width, height) else {
        return 0;
    };
    if header.enable_rle_compression {
        let subsampling = has_subsampled_chroma(header.color_plane_definition);
        let color = min_color_planes_size(false, subsampling, sides);
        return shown_alpha_size(format, header.use_alpha, sides.width, sides.height) + color;
    }
    0
}

// The second clause bounds the number, so that callers can multiply without overflow.
pub fn bytes_per_pixel(format: PixelFormat) -> usize
    ensures bytes { result ≡ bytes_per_pixel_of (format_to_form format) }
    ensures bound { result ≤ 4 }
{
    match format {
        PixelFormat::Rgb24 => 3,
        PixelFormat::FourBytes(_) => 4,
    }
}

// The minimum size of the image, or 0 if the sides are refused.
pub fn image_size(format: PixelFormat, width: usize, height: usize) -> usize
    ensures { result ≡ check_sides_of (λ (_ : ℕ). 0) width height (image_size_of (format_to_form format) width height) }
{
    let Ok(sides) = ValidSides::new(width, height) else {
        return 0;
    };
    bytes_per_pixel(format) * sides.area()
}
