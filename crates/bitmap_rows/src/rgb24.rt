// A row of three-byte pixels (FORMAT 6.1 to 6.5) that fits its slices.
ghost use Rattle.std.specs.Prelude.{◌≡◌, true, false, [], ◌+◌, ◌*◌, ◌<◌, ◌≤◌, length};
ghost use Rattle.rle_format.specs.Slice.{overwrite};
ghost use Rattle.bitmap_format.specs.declared.ColorPlaneDefinition.TheVariants.{AYCoCg as aycocg};
ghost use Rattle.bitmap_format.specs.Counting.{IsChromaColumn};
ghost use Rattle.bitmap_format.specs.Planes.{subsampled};
ghost use Rattle.bitmap_format.specs.Pixels.{three_bytes};
ghost use Rattle.bitmap_rows.specs.Rows.{row_pixels};
ghost use Rattle.bitmap_rows.specs.Inner.{write_fitting_row};

use crate::fitting::FittingRow;
use crate::pixel::{Pixel, write_each};
use crate::{ColorRule, RowSamples};
use bitmap_color::LossLevel;
use bitmap_format::{ColorPlaneDefinition, Rgb};

// Writes a row of a subsampled picture. The two pixels of a pair share their chroma samples; both colours are computed before the first is
// written, so that the compiler reads the samples once. If the width is odd, the last pixel is written by itself.
fn write_subsampled_row(level: LossLevel, flagged: bool, row: FittingRow<'_>, dst: &mut [u8])
    requires { (row.subsampling ≡ true) × (3 * row.width ≤ length dst.old) }
    ensures { dst.new ≡ overwrite dst.old (row_pixels three_bytes (aycocg level.level true) flagged row.entry.samples.first.now row.entry.samples.second.now row.entry.samples.third.now [] row.entry.width) }
{
    let FittingRow { samples, width, .. } = row;
    let RowSamples {
        first: y,
        second: co,
        third: cg,
    } = samples;
    let pairs = width / 2;
    write_each(
        dst,
        pairs,
        |pair|
            requires { (2 * pair + 1 < length y.now) × (pair < length co.now) × (pair < length cg.now) × IsChromaColumn true (2 * pair) pair }
        {
            let left = level.color(flagged, y[2 * pair], co[pair], cg[pair]);
            let right = level.color(flagged, y[2 * pair + 1], co[pair], cg[pair]);
            (left, right)
        },
    );
    if width % 2 == 1 {
        let last = level.color(flagged, y[width - 1], co[pairs], cg[pairs]);
        last.store(dst, 3 * (width - 1));
    }
}

// Writes a row, or nothing if the loss level is not one of 1 to 7.
pub(crate) fn write_rgb24_pixels(rule: ColorRule, row: FittingRow<'_>, dst: &mut [u8])
    requires { (row.subsampling ≡ subsampled rule.definition) × (3 * row.width ≤ length dst.old) }
    ensures { dst.new ≡ write_fitting_row three_bytes rule.definition rule.flagged row.entry.samples.first.now row.entry.samples.second.now row.entry.samples.third.now [] row.entry.width dst.old }
{
    let RowSamples {
        first,
        second,
        third,
    } = row.samples;
    match rule.definition {
        ColorPlaneDefinition::Argb => {
            write_each(
                dst,
                row.width,
                |i|
                    requires { (i < length first.now) × (i < length second.now) × (i < length third.now) }
                {
                    Rgb {
                        r: first[i],
                        g: second[i],
                        b: third[i],
                    }
                },
            );
        }
        ColorPlaneDefinition::AYCoCg {
            color_loss_level,
            use_chroma_subsampling,
        } => {
            let Some(level) = LossLevel::new(color_loss_level) else {
                return;
            };
            if use_chroma_subsampling {
                write_subsampled_row(level, rule.flagged, row, dst);
                return;
            }
            write_each(
                dst,
                row.width,
                |i|
                    requires { (i < length first.now) × (i < length second.now) × (i < length third.now) × IsChromaColumn false i i }
                { level.color(rule.flagged, first[i], second[i], third[i]) },
            );
        }
    }
}
