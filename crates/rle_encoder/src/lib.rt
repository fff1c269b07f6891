// Packs an RLE plane (FORMAT 5; MS-RDPEGDI 3.1.9.2): the encoding half of IronRDP's rdp6/rle.rs.
#![tactic(auto)]

mod delta;
mod plane_row;
mod row;
mod row_packer;
mod runs;
mod segment;

ghost use Rattle.std.specs.Prelude.{◌≡◌, ◌+◌, ◌*◌, ◌/◌, ◌^◌, ◌<◌, ◌≤◌, length};
ghost use Rattle.rle_format.specs.Answer.{to_answer};
ghost use Rattle.rle_format.specs.Slice.{overwrite};
ghost use Rattle.rle_format.specs.Pack.{plane_segments, write_segments, pack_plane};
ghost use Rattle.pixel_format.specs.Samples.{samples_in};

use delta::code_row;
use pixel_format::{Channel, Layout, Samples};
use plane_row::PlaneRow;
use rle_format::{MAX_SIDE, Refusal, ValidSides};
use row_packer::RowPacker;

// The width up to which a plane is packed with small arrays: to fill the large ones with zeros takes longer than to pack a small plane.
const NARROW: usize = 256;

// The lengths of arrays for a row of such a plane, and of any: of its coded values, and of its segments and flags.
const NARROW_CODES: usize = NARROW + 16;

const NARROW_PACKED: usize = NARROW + 64;

const WIDE_CODES: usize = MAX_SIDE + 16;

const WIDE_PACKED: usize = MAX_SIDE + 576;

// Packs the rows of a channel, the first row first. The last three slices are lent to work in. They have the samples of the row above, if the
// channel is in pixels; the coded values of a row, and 15 bytes that a copy of 16 may read; and the row's segments and flags. They stay three
// parameters: each call below takes others of them, and a struct of all would have to say in each contract which of its slices stay.
fn encode_rows(
    samples: Samples,
    sides: ValidSides,
    dst: &mut [u8],
    above: &mut [u8],
    codes: &mut [u8],
    packed: &mut [u8],
) -> Result<usize, Refusal>
    requires { (sides.width * sides.height ≤ length (samples_in samples)) × (sides.width ≤ length above.old) × (sides.width + 15 ≤ length codes.old) × (sides.width + sides.width / 15 + 24 ≤ length packed.old) }
    ensures answer { to_answer result ≡ (write_segments (plane_segments sides.width sides.height (samples_in samples.entry)) (length dst.old)).answer }
    ensures slice { dst.new ≡ overwrite dst.old (write_segments (plane_segments sides.width sides.height (samples_in samples.entry)) (length dst.old)).written }
{
    let width = sides.width;
    let mut to = 0;
    for r in 0..sides.height {
        code_row(
            PlaneRow { samples, r, width },
            &mut above[..width],
            &mut codes[..width],
        );
        let mut row = RowPacker {
            codes,
            width,
            packed,
        };
        to = row.encode_to(dst, to)?;
    }
    Ok(to)
}

// Packs a plane by way of arrays of these lengths. Not inlined: clang's probe of a stack frame this large takes r11, in which a caller that tests its
// arguments first may hold a refusal (examples/check-probes).
#[inline(never)]
fn encode<const ABOVE: usize, const CODES: usize, const PACKED: usize>(
    samples: Samples,
    sides: ValidSides,
    dst: &mut [u8],
) -> Result<usize, Refusal>
    requires { (sides.width * sides.height ≤ length (samples_in samples)) × (sides.width ≤ ABOVE) × (sides.width + 15 ≤ CODES) × (sides.width + sides.width / 15 + 24 ≤ PACKED) × (ABOVE + CODES + PACKED < 2 ^ 63) }
    ensures answer { to_answer result ≡ (write_segments (plane_segments sides.width sides.height (samples_in samples.entry)) (length dst.old)).answer }
    ensures slice { dst.new ≡ overwrite dst.old (write_segments (plane_segments sides.width sides.height (samples_in samples.entry)) (length dst.old)).written }
{
    let mut above = [0u8; ABOVE];
    let mut codes = [0u8; CODES];
    let mut packed = [0u8; PACKED];
    encode_rows(samples, sides, dst, &mut above, &mut codes, &mut packed)
}

// Packs the first width × height samples of a channel into the first bytes of dst, and returns the number of bytes written. Refusals 1, 2, 11,
// then 12; FORMAT 8.3 says what each leaves in dst.
pub fn compress_8bpp_channel(
    samples: Samples,
    dst: &mut [u8],
    width: usize,
    height: usize,
) -> Result<usize, Refusal>
    ensures answer { to_answer result ≡ (pack_plane width height (length dst.old) (samples_in samples.entry)).answer }
    ensures slice { dst.new ≡ overwrite dst.old (pack_plane width height (length dst.old) (samples_in samples.entry)).written }
{
    let sides = ValidSides::new(width, height)?;
    if samples.count() < sides.area() {
        return Err(Refusal::NotEnoughBytes);
    }
    if sides.width <= NARROW {
        return encode::<NARROW, NARROW_CODES, NARROW_PACKED>(samples, sides, dst);
    }
    encode::<MAX_SIDE, WIDE_CODES, WIDE_PACKED>(samples, sides, dst)
}

// The same for a slice that has the samples of one plane. The channel does not matter then.
pub fn compress_8bpp_plane(
    src: &[u8],
    dst: &mut [u8],
    width: usize,
    height: usize,
) -> Result<usize, Refusal>
    ensures answer { to_answer result ≡ (pack_plane width height (length dst.old) src.now).answer }
    ensures slice { dst.new ≡ overwrite dst.old (pack_plane width height (length dst.old) src.now).written }
{
    let samples = Samples {
        src,
        layout: Layout::Planar,
        channel: Channel::R,
    };
    compress_8bpp_channel(samples, dst, width, height)
}
