// The planes of a picture, with sizes that are checked once.
ghost use Rattle.std.specs.Prelude.{◌≡◌, ◌≤◌, length};
ghost use Rattle.rle_format.specs.Choice.{choose};
ghost use Rattle.bitmap_format.specs.Planes.{subsampled};
ghost use Rattle.bitmap_format.specs.Sizes.{colour_planes_size};
ghost use Rattle.bitmap_image.specs.Rows.{AlphaRowsFit, chroma_width_of, chroma_size_of};

use bitmap_format::{Picture, chroma_side, has_subsampled_chroma};
use bitmap_rows::RowSamples;

// What the loops over rows need of the chroma planes: the width of one, its size, and how far the start of the chroma row goes on behind an even
// row (FORMAT 6.3). It is made once for a picture, so that no row asks whether it is subsampled.
#[derive(Clone, Copy)]
pub(crate) struct ChromaSizes {
    pub(crate) width: usize,
    pub(crate) size: usize,
    pub(crate) even_step: usize,
}

// The three colour planes, which are the first of `planes`.
#[derive(Clone, Copy)]
pub(crate) struct ColorPlanes<'a> {
    pub(crate) picture: Picture,
    pub(crate) planes: &'a [u8],
    pub(crate) chroma: ChromaSizes,
    pub(crate) ghost room: { colour_planes_size picture.header picture.width picture.height ≤ length planes.now },
    pub(crate) ghost chroma_width: { chroma.width ≡ chroma_width_of picture },
    pub(crate) ghost chroma_size: { chroma.size ≡ chroma_size_of picture },
    pub(crate) ghost chroma_even: { chroma.even_step ≡ choose (subsampled picture.header.color_plane_definition) 0 (chroma_width_of picture) },
}

// The same with alpha, whose rows are `step` apart: with a step of 0 all rows have the same.
#[derive(Clone, Copy)]
pub(crate) struct ShownPlanes<'a, 'b> {
    pub(crate) colors: ColorPlanes<'a>,
    pub(crate) alpha: &'b [u8],
    pub(crate) step: usize,
    pub(crate) ghost small: { step ≤ 8192 },
    pub(crate) ghost rows: { AlphaRowsFit colors.picture.width colors.picture.height step (length alpha.now) },
}

// How far the start of the chroma row goes on behind an even row, given the width of a chroma plane: if subsampled, the next row has the same one.
fn even_step(subsampling: bool, width: usize) -> usize
    ensures { result ≡ choose subsampling 0 width }
{
    if subsampling {
        return 0;
    }
    width
}

// The sizes of a picture's chroma planes.
pub(crate) fn chroma_sizes(picture: Picture) -> ChromaSizes
    ensures { (result.width ≡ chroma_width_of picture) × (result.size ≡ chroma_size_of picture) × (result.even_step ≡ choose (subsampled picture.header.color_plane_definition) 0 (chroma_width_of picture)) }
{
    let subsampling = has_subsampled_chroma(picture.header.color_plane_definition);
    let width = chroma_side(subsampling, picture.width);
    let size = width * chroma_side(subsampling, picture.height);
    let even_step = even_step(subsampling, width);
    ChromaSizes {
        width,
        size,
        even_step,
    }
}

impl<'a> ColorPlanes<'a> {
    ghost use Rattle.std.specs.Prelude.{◌+◌, ◌*◌, ◌<◌, drop};
    ghost use Rattle.bitmap_format.specs.Counting.{counter_step};

    // The rows of the planes for a row of the picture whose chroma rows start at `second` and `third`.
    pub(crate) fn row_samples(self, row: usize, second: usize, third: usize) -> RowSamples<'a>
        requires { (row < self.picture.height) × (second + chroma_width_of self.picture ≤ length self.planes.now) × (third + chroma_width_of self.picture ≤ length self.planes.now) }
        ensures rows { (result.first.now ≡ drop (row * self.entry.picture.width) self.entry.planes.now) × (result.second.now ≡ drop second self.entry.planes.now) × (result.third.now ≡ drop third self.entry.planes.now) }
        ensures room { (self.entry.picture.width ≤ length result.first.now) × (chroma_width_of self.entry.picture ≤ length result.second.now) × (chroma_width_of self.entry.picture ≤ length result.third.now) }
    {
        RowSamples {
            first: &self.planes[row * self.picture.width..],
            second: &self.planes[second..],
            third: &self.planes[third..],
        }
    }

    // How far the start of the chroma row goes on behind a row.
    pub(crate) fn chroma_step(self, row: usize) -> usize
        ensures { result ≡ counter_step (subsampled self.entry.picture.header.color_plane_definition) (chroma_width_of self.entry.picture) row }
    {
        if row % 2 == 0 {
            return self.chroma.even_step;
        }
        self.chroma.width
    }
}
