// Rows of samples that have one for each column.
ghost use Rattle.std.specs.Prelude.{◌≡◌, false, ◌≤◌, length};
ghost use Rattle.bitmap_format.specs.Planes.{chroma_side_of};

use crate::RowSamples;
use bitmap_format::chroma_side;

// Samples for a row of `width` columns.
#[derive(Clone, Copy)]
pub(crate) struct FittingRow<'a> {
    pub(crate) samples: RowSamples<'a>,
    pub(crate) width: usize,
    pub(crate) subsampling: bool,
    pub(crate) ghost first: { width ≤ length samples.first.now },
    pub(crate) ghost second: { chroma_side_of subsampling width ≤ length samples.second.now },
    pub(crate) ghost third: { chroma_side_of subsampling width ≤ length samples.third.now },
}

impl<'a> FittingRow<'a> {
    ghost use Rattle.std.specs.Prelude.{MatchOption};
    ghost use Rattle.bitmap_rows.specs.Rows.{samples_fit};

    // None if a sample is missing.
    #[tactic(auto, unfolding(crate::specs::Rows::samples_fit))]
    pub(crate) fn new(
        samples: RowSamples<'a>,
        width: usize,
        subsampling: bool,
    ) -> Option<FittingRow<'a>>
        ensures { MatchOption result (samples_fit width (chroma_side_of subsampling width) samples.entry.first.now samples.entry.second.now samples.entry.third.now ≡ false) (λ r. (r.samples ≡ samples.entry) × (r.width ≡ width) × (r.subsampling ≡ subsampling)) }
    {
        let chroma = chroma_side(subsampling, width);
        if samples.first.len() < width
            || samples.second.len() < chroma
            || samples.third.len() < chroma
        {
            return None;
        }
        Some(FittingRow {
            samples,
            width,
            subsampling,
        })
    }
}

// The same with alpha. Each pixel has its own chroma samples.
#[derive(Clone, Copy)]
pub(crate) struct FittingPixels<'a> {
    pub(crate) row: FittingRow<'a>,
    pub(crate) alpha: &'a [u8],
    pub(crate) ghost second: { row.width ≤ length row.samples.second.now },
    pub(crate) ghost third: { row.width ≤ length row.samples.third.now },
    pub(crate) ghost shown: { row.width ≤ length alpha.now },
}

impl<'a> FittingPixels<'a> {
    ghost use Rattle.std.specs.Prelude.{MatchOption, ◌&&◌, leb};
    ghost use Rattle.bitmap_rows.specs.Rows.{samples_fit};

    // None if a sample is missing.
    pub(crate) fn new(
        samples: RowSamples<'a>,
        alpha: &'a [u8],
        width: usize,
    ) -> Option<FittingPixels<'a>>
        ensures { MatchOption result ((samples_fit width width samples.entry.first.now samples.entry.second.now samples.entry.third.now && leb width (length alpha.now)) ≡ false) (λ r. (r.row.samples ≡ samples.entry) × (r.row.width ≡ width) × (r.alpha.now ≡ alpha.now)) }
    {
        let row = FittingRow::new(samples, width, false)?;
        if alpha.len() < width {
            return None;
        }
        Some(FittingPixels { row, alpha })
    }
}
