// A row of the image (FORMAT 6), from a row of samples of each plane: three-byte pixels, and four-byte pixels in a layout. A row that does not fit
// its slices, or whose loss level is not one of 1 to 7, is not written.
#![tactic(auto)]

mod chroma;
mod fitting;
mod pixel;
mod pixels;
mod rgb24;

ghost use Rattle.std.specs.Prelude.{◌≡◌, []};
ghost use Rattle.pixel_format.specs.Channel.{channel_offsets};
ghost use Rattle.bitmap_format.specs.Pixels.{three_bytes, four_bytes};
ghost use Rattle.bitmap_rows.specs.Rows.{write_row_of, full_chroma, write_doubled};

use bitmap_format::{ColorPlaneDefinition, chroma_side, has_subsampled_chroma};
use chroma::double_fitting;
use fitting::{FittingPixels, FittingRow};
use pixel_format::PixelLayout;
use pixels::write_pixels;
use rgb24::write_rgb24_pixels;

// What the colours of a picture depend on besides its samples: its plane definition and its alpha flag.
#[derive(Clone, Copy)]
pub struct ColorRule {
    pub definition: ColorPlaneDefinition,
    pub flagged: bool,
}

// A row of each colour plane: of R, G and B, or of Y, Co and Cg.
#[derive(Clone, Copy)]
pub struct RowSamples<'a> {
    pub first: &'a [u8],
    pub second: &'a [u8],
    pub third: &'a [u8],
}

// Writes a row of three-byte pixels (FORMAT 6.1).
pub fn write_rgb24_row(rule: ColorRule, samples: RowSamples<'_>, dst: &mut [u8], width: usize)
    ensures { dst.new ≡ write_row_of three_bytes rule.definition rule.flagged samples.entry.first.now samples.entry.second.now samples.entry.third.now [] width dst.old }
{
    if dst.len() / 3 < width {
        return;
    }
    let subsampling = has_subsampled_chroma(rule.definition);
    if let Some(row) = FittingRow::new(samples, width, subsampling) {
        write_rgb24_pixels(rule, row, dst);
    }
}

// Writes a row of four-byte pixels (FORMAT 6.6). Each pixel has its own chroma samples: for a subsampled picture they come from
// `double_samples`.
pub fn write_pixel_row(
    layout: PixelLayout,
    rule: ColorRule,
    samples: RowSamples<'_>,
    alpha: &[u8],
    dst: &mut [u8],
    width: usize,
)
    ensures { dst.new ≡ write_row_of (four_bytes (channel_offsets layout)) (full_chroma rule.definition) rule.flagged samples.entry.first.now samples.entry.second.now samples.entry.third.now alpha.now width dst.old }
{
    if dst.len() / 4 < width {
        return;
    }
    if let Some(pixels) = FittingPixels::new(samples, alpha, width) {
        write_pixels(layout, rule, pixels, dst);
    }
}

// Writes the chroma samples of a subsampled row, one for each column (FORMAT 6.3).
// Samples, slice and width stay three parameters: without room for the width nothing is written, which is its clause.
#[tactic(auto, unfolding(crate::specs::Rows::write_doubled))]
pub fn double_samples(samples: &[u8], doubled: &mut [u8], width: usize)
    ensures { doubled.new ≡ write_doubled samples.now width doubled.old }
{
    if chroma_side(true, width) <= samples.len() && width <= doubled.len() {
        double_fitting(samples, doubled, width);
    }
}
