// A row of four-byte pixels (FORMAT 6.6) that fits its slices.
ghost use Rattle.std.specs.Prelude.{◌≡◌, true, false, [], ◌∷◌, ◌*◌, ◌<◌, ◌≤◌, length};
ghost use Rattle.rle_format.specs.Slice.{overwrite};
ghost use Rattle.pixel_format.specs.Channel.{channel_offsets};
ghost use Rattle.bitmap_format.specs.declared.ColorPlaneDefinition.TheVariants.{Argb as argb};
ghost use Rattle.bitmap_format.specs.Image.{concat_up_to};
ghost use Rattle.bitmap_format.specs.Pixels.{four_bytes};
ghost use Rattle.bitmap_rows.specs.Rows.{row_pixels, full_chroma};
ghost use Rattle.bitmap_rows.specs.Inner.{quad_bytes, arranged, alpha_first_of, blue_first_of, colour_flag, arranged_at, write_fitting_row};

use crate::fitting::FittingPixels;
use crate::pixel::{Quad, write_each};
use crate::{ColorRule, RowSamples};
use bitmap_color::LossLevel;
use bitmap_format::{ColorPlaneDefinition, Rgb};
use pixel_format::PixelLayout;

// A pixel of these bytes.
fn quad(first: u8, second: u8, third: u8, fourth: u8) -> Quad
    ensures { quad_bytes result ≡ first ∷ second ∷ third ∷ fourth ∷ [] }
{
    Quad {
        first,
        second,
        third,
        fourth,
    }
}

// A pixel with alpha before its colour, if `leading`, or behind it.
fn arrange(leading: bool, color: Rgb, alpha: u8) -> Quad
    ensures { quad_bytes result ≡ arranged leading color alpha }
{
    if leading {
        return quad(alpha, color.r, color.g, color.b);
    }
    quad(color.r, color.g, color.b, alpha)
}

// Writes a row of an AYCoCg picture. The loop looks at two flags that it does not change, and at nothing else: with a third test in it the compiler
// no longer vectorises it.
fn write_aycocg_pixels(
    leading: bool,
    flag: bool,
    level: LossLevel,
    pixels: FittingPixels<'_>,
    dst: &mut [u8],
)
    requires { 4 * pixels.row.width ≤ length dst.old }
    ensures { dst.new ≡ overwrite dst.old (concat_up_to pixels.entry.row.width (arranged_at leading flag level.level pixels.entry.row.samples.first.now pixels.entry.row.samples.second.now pixels.entry.row.samples.third.now pixels.entry.alpha.now)) }
{
    let FittingPixels { row, alpha, .. } = pixels;
    let RowSamples {
        first: y,
        second: co,
        third: cg,
    } = row.samples;
    write_each(
        dst,
        row.width,
        |i|
            requires { (i < length y.now) × (i < length co.now) × (i < length cg.now) × (i < length alpha.now) }
        { arrange(leading, level.color(flag, y[i], co[i], cg[i]), alpha[i]) },
    );
}

// Whether alpha is before the colour.
// This and the next stay two matches: each is a table of its own, with its own definition.
fn alpha_first(layout: PixelLayout) -> bool
    ensures { result ≡ alpha_first_of layout }
{
    match layout {
        PixelLayout::BgrA | PixelLayout::RgbA => false,
        PixelLayout::ARgb | PixelLayout::ABgr => true,
    }
}

// Whether blue is before red.
fn blue_first(layout: PixelLayout) -> bool
    ensures { result ≡ blue_first_of layout }
{
    match layout {
        PixelLayout::BgrA | PixelLayout::ABgr => true,
        PixelLayout::RgbA | PixelLayout::ARgb => false,
    }
}

// The alpha flag under which the colour rule gives red and blue in the order of the layout (FORMAT 6.5): where blue is before red, the other
// flag. So the loop exchanges red and blue at most once.
fn color_flag(layout: PixelLayout, flagged: bool) -> bool
    ensures { result ≡ colour_flag layout flagged }
{
    flagged != blue_first(layout)
}

// Writes a row of an ARGB picture: a layout is only the order in which the rows are joined.
fn write_argb_pixels(layout: PixelLayout, pixels: FittingPixels<'_>, dst: &mut [u8])
    requires { 4 * pixels.row.width ≤ length dst.old }
    ensures { dst.new ≡ overwrite dst.old (row_pixels (four_bytes (channel_offsets layout)) argb true pixels.entry.row.samples.first.now pixels.entry.row.samples.second.now pixels.entry.row.samples.third.now pixels.entry.alpha.now pixels.entry.row.width) }
{
    let FittingPixels { row, alpha, .. } = pixels;
    let RowSamples {
        first: red,
        second: green,
        third: blue,
    } = row.samples;
    let n = row.width;
    match layout {
        PixelLayout::BgrA => write_each(dst, n, |i| quad(blue[i], green[i], red[i], alpha[i])),
        PixelLayout::RgbA => write_each(dst, n, |i| quad(red[i], green[i], blue[i], alpha[i])),
        PixelLayout::ARgb => write_each(dst, n, |i| quad(alpha[i], red[i], green[i], blue[i])),
        PixelLayout::ABgr => write_each(dst, n, |i| quad(alpha[i], blue[i], green[i], red[i])),
    }
}

// Writes a row, or nothing if the loss level is not one of 1 to 7.
pub(crate) fn write_pixels(
    layout: PixelLayout,
    rule: ColorRule,
    pixels: FittingPixels<'_>,
    dst: &mut [u8],
)
    requires { 4 * pixels.row.width ≤ length dst.old }
    ensures { dst.new ≡ write_fitting_row (four_bytes (channel_offsets layout)) (full_chroma rule.definition) rule.flagged pixels.entry.row.samples.first.now pixels.entry.row.samples.second.now pixels.entry.row.samples.third.now pixels.entry.alpha.now pixels.entry.row.width dst.old }
{
    match rule.definition {
        ColorPlaneDefinition::Argb => write_argb_pixels(layout, pixels, dst),
        ColorPlaneDefinition::AYCoCg {
            color_loss_level,
            ..
        } => {
            let Some(level) = LossLevel::new(color_loss_level) else {
                return;
            };
            let flag = color_flag(layout, rule.flagged);
            write_aycocg_pixels(alpha_first(layout), flag, level, pixels, dst)
        }
    }
}
