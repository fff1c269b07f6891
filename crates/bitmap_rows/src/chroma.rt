// The chroma samples of a subsampled row, one for each column.
ghost use Rattle.std.specs.Prelude.{◌≡◌, true, ◌*◌, ◌<◌, ◌≤◌, length};
ghost use Rattle.rle_format.specs.Slice.{overwrite};
ghost use Rattle.bitmap_format.specs.Counting.{IsChromaColumn};
ghost use Rattle.bitmap_format.specs.Planes.{chroma_side_of};
ghost use Rattle.bitmap_rows.specs.Rows.{doubled as doubledSamples};

use crate::pixel::write_each;

// Writes the samples of all columns: each twice. If the width is odd, the last column has its sample to itself.
pub(crate) fn double_fitting(samples: &[u8], doubled: &mut [u8], width: usize)
    requires { (chroma_side_of true width ≤ length samples.now) × (width ≤ length doubled.old) }
    ensures { doubled.new ≡ overwrite doubled.old (doubledSamples samples.now width) }
{
    let pairs = width / 2;
    write_each(
        doubled,
        pairs,
        |pair|
            requires { (pair < length samples.now) × IsChromaColumn true (2 * pair) pair }
        { (samples[pair], samples[pair]) },
    );
    if width % 2 == 1 {
        doubled[width - 1] = samples[pairs];
    }
}
