// The minimum sizes of planes, given their sides (FORMAT 2.3, 2.4).
ghost use Rattle.std.specs.Prelude.{◌≡◌, true, false, ℕ, ◌≤◌};
ghost use Rattle.bitmap_format.specs.Planes.{plane_at, colour_planes};
ghost use Rattle.bitmap_format.specs.Sizes.{min_plane_size_of, sum_over};

use crate::chroma_side;
use rle_format::ValidSides;

// The most values that a segment can have.
const LONGEST: usize = 47;

// The minimum size of a plane, RLE or raw: each row of an RLE plane has at least one control byte for every 47 values. The second clause bounds it,
// so that callers can add without overflow.
pub(crate) fn min_plane_size(rle: bool, sides: ValidSides) -> usize
    ensures size { result ≡ min_plane_size_of rle (plane_at sides.width sides.height 0) }
    ensures bound { result ≤ 67108864 }
{
    if rle {
        return sides.height * sides.width.div_ceil(LONGEST);
    }
    sides.area()
}

// The minimum size of the colour planes: one full, two chroma.
pub(crate) fn min_color_planes_size(rle: bool, subsampling: bool, sides: ValidSides) -> usize
    ensures size { result ≡ sum_over (min_plane_size_of rle) (colour_planes subsampling sides.width sides.height) }
    ensures bound { result ≤ 201326592 }
{
    let chroma = ValidSides {
        width: chroma_side(subsampling, sides.width),
        height: chroma_side(subsampling, sides.height),
    };
    min_plane_size(rle, sides) + 2 * min_plane_size(rle, chroma)
}
