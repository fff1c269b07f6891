// The prefix theorem (FORMAT 9; demand 3 of the customer): the claim is in specs/, the proof in proofs/. Here it is the contract of a function on
// real slices.
#![tactic(auto)]

ghost use Rattle.std.specs.Prelude.{◌≡◌, length};
ghost use Rattle.rle_format.specs.Slice.{overwrite};
ghost use Rattle.rle_format.specs.Pack.{pack_plane};
ghost use Rattle.rle_round_trip.specs.RoundTripResult.{UnpackResult, RoundTripResult};

use rle_decoder::decompress_8bpp_plane;
use rle_encoder::compress_8bpp_plane;
use rle_format::Refusal;

// Why a round trip has no number of bytes that were read.
#[derive(Clone, Copy, PartialEq, Eq)]
pub enum RoundTripError {
    // packing was refused
    NotPacked(Refusal),
    // the slice that it was packed into is shorter than `end`
    TooLong,
    // unpacking was refused
    NotUnpacked(Refusal),
}

// Unpacks a plane from the first `end` bytes of packed.
fn unpack_prefix(
    packed: &[u8],
    end: usize,
    dst: &mut [u8],
    width: usize,
    height: usize,
) -> Result<usize, RoundTripError>
    ensures { UnpackResult width height packed.now end dst.old dst.new result }
{
    let prefix = packed.get(..end).ok_or(RoundTripError::TooLong)?;
    decompress_8bpp_plane(prefix, dst, width, height).map_err(RoundTripError::NotUnpacked)
}

// Packs the first width × height bytes of src into packed, and unpacks the first `end` bytes of that slice into dst: a truncated packing if `end` is
// less than its length, else the packing and what the slice held behind it.
// `packed` and `end` stay two: an `end` over the slice has an answer of its own.
pub fn round_trip(
    src: &[u8],
    packed: &mut [u8],
    end: usize,
    dst: &mut [u8],
    width: usize,
    height: usize,
) -> Result<usize, RoundTripError>
    ensures packed { packed.new ≡ overwrite packed.old (pack_plane width height (length packed.old) src.now).written }
    ensures trip { RoundTripResult width height src.now (pack_plane width height (length packed.old) src.now).answer packed.new end dst.old dst.new result }
{
    compress_8bpp_plane(src, packed, width, height).map_err(RoundTripError::NotPacked)?;
    unpack_prefix(packed, end, dst, width, height)
}
