// Unpacking the RLE planes of a picture into the work area (FORMAT 2.4, 2.5).
#![tactic(auto)]

ghost use Rattle.std.specs.Prelude.{◌≡◌};
ghost use Rattle.rle_format.specs.Answer.{to_answer};
ghost use Rattle.rle_format.specs.Slice.{write_at};
ghost use Rattle.bitmap_format.specs.Planes.{plane_at, colour_planes, alpha_planes_at, planes_with_alpha_at};
ghost use Rattle.bitmap_format.specs.UnpackPlanes.{unpack_plane_at, unpack_planes};

use bitmap_format::{BitmapStreamHeader, chroma_side, has_subsampled_chroma};
use rle_decoder::decompress_8bpp_plane;
use rle_format::Refusal;

// A plane of a picture: its sides, and where it begins in the work area.
#[derive(Clone, Copy)]
struct Plane {
    width: usize,
    height: usize,
    offset: usize,
}

// Unpacks a plane from the start of the body into the work area from its offset on. Returns the number of bytes read. If the work area ends before the
// offset, there is no room for the plane, which is refused with 1, 2 or 10.
fn decompress_plane(plane: Plane, body: &[u8], work: &mut [u8]) -> Result<usize, Refusal>
    ensures answer { to_answer result ≡ (unpack_plane_at (plane_at plane.width plane.height plane.offset) work.old body.now).answer }
    ensures slice { work.new ≡ write_at work.old plane.offset (unpack_plane_at (plane_at plane.width plane.height plane.offset) work.old body.now).written }
{
    let start = plane.offset.min(work.len());
    decompress_8bpp_plane(body, &mut work[start..], plane.width, plane.height)
}

// Unpacks alpha, if flagged.
fn decompress_alpha(
    alpha: bool,
    plane: Plane,
    body: &[u8],
    work: &mut [u8],
) -> Result<usize, Refusal>
    ensures answer { to_answer result ≡ (unpack_planes (alpha_planes_at plane.offset alpha plane.width plane.height) work.old body.now).answer }
    ensures slice { work.new ≡ (unpack_planes (alpha_planes_at plane.offset alpha plane.width plane.height) work.old body.now).work }
{
    if alpha {
        return decompress_plane(plane, body, work);
    }
    Ok(0)
}

// Unpacks the three colour planes. Returns the number of bytes read.
fn decompress_color_planes(
    body: &[u8],
    work: &mut [u8],
    width: usize,
    height: usize,
    subsampling: bool,
) -> Result<usize, Refusal>
    ensures answer { to_answer result ≡ (unpack_planes (colour_planes subsampling width height) work.old body.now).answer }
    ensures slice { work.new ≡ (unpack_planes (colour_planes subsampling width height) work.old body.now).work }
{
    let first = Plane {
        width,
        height,
        offset: 0,
    };
    let first_read = decompress_plane(first, body, work)?;
    let after_first = &body[first_read..];
    // The first plane was read, so the sides are allowed, and no product of them overflows.
    let second = Plane {
        width: chroma_side(subsampling, width),
        height: chroma_side(subsampling, height),
        offset: width * height,
    };
    let second_read = decompress_plane(second, after_first, work)?;
    let after_second = &after_first[second_read..];
    let third = Plane {
        offset: second.offset + second.width * second.height,
        ..second
    };
    let third_read = decompress_plane(third, after_second, work)?;
    Ok(first_read + second_read + third_read)
}

// Unpacks the planes of a picture into the work area: alpha, if flagged, from `offset` on, then the three colour planes from 0 on. A plane that has no
// room is refused with 10, and sides that are not allowed with 1 or 2.
// The offset stays a number: where the work area ends before it, the plane is refused, and a slice could not say so.
pub fn decompress_planes(
    header: BitmapStreamHeader,
    offset: usize,
    body: &[u8],
    work: &mut [u8],
    width: usize,
    height: usize,
) -> Result<usize, Refusal>
    ensures answer { to_answer result ≡ (unpack_planes (planes_with_alpha_at offset header width height) work.old body.now).answer }
    ensures slice { work.new ≡ (unpack_planes (planes_with_alpha_at offset header width height) work.old body.now).work }
{
    let alpha = Plane {
        width,
        height,
        offset,
    };
    let alpha_read = decompress_alpha(header.use_alpha, alpha, body, work)?;
    let rest = &body[alpha_read..];
    let subsampling = has_subsampled_chroma(header.color_plane_definition);
    let colors_read = decompress_color_planes(rest, work, width, height, subsampling)?;
    Ok(alpha_read + colors_read)
}
