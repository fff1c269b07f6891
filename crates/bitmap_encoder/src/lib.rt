// Packs a picture (FORMAT 7): IronRDP's rdp6/bitmap_stream/encoder.rs, without the header byte.
#![tactic(auto)]

mod planes;
mod sources;

ghost use Rattle.std.specs.Prelude.{◌≡◌, true, false, length};
ghost use Rattle.rle_format.specs.Slice.{overwrite};
ghost use Rattle.pixel_format.specs.Channel.{channel_offsets};
ghost use Rattle.bitmap_format.specs.PackPicture.{three_planes, four_planes, pixel_planes, pixel_planes_alpha, pack_picture, header_to_send_of, with_header, encoded_to_answer};

use bitmap_format::{BitmapStreamHeader, ColorPlaneDefinition, Encoded};
use pixel_format::{Layout, PixelLayout};
use planes::encode;
use rle_format::Refusal;
use sources::{alpha_and_colors, colors};

// The header record to send (FORMAT 7.5). The alpha flag is false with an alpha plane too.
fn header_to_send(alpha: bool, rle: bool) -> BitmapStreamHeader
    ensures { result ≡ header_to_send_of alpha rle }
{
    BitmapStreamHeader {
        enable_rle_compression: rle,
        use_alpha: false,
        color_plane_definition: ColorPlaneDefinition::Argb,
    }
}

// Packs a picture from its R, G and B, each in a slice of its own, into the first bytes of dst. Refusals 1, 2, 11, then 12; FORMAT 8.3 says what
// each leaves in dst.
// The four packers stay four, and take slices and sides one by one: C has each of them (rdp6_encode_channels to rdp6_encode_bitmap_alpha).
pub fn encode_channels_body(
    r: &[u8],
    g: &[u8],
    b: &[u8],
    dst: &mut [u8],
    rle: bool,
    width: usize,
    height: usize,
) -> Result<Encoded, Refusal>
    ensures answer { encoded_to_answer result ≡ with_header (header_to_send_of false rle) (pack_picture rle width height (length dst.old) (three_planes r.now g.now b.now)).answer }
    ensures slice { dst.new ≡ overwrite dst.old (pack_picture rle width height (length dst.old) (three_planes r.now g.now b.now)).written }
{
    let planes = colors(r, g, b, Layout::Planar);
    let bytes = encode(&planes, dst, rle, width, height)?;
    let header = header_to_send(false, rle);
    Ok(Encoded { bytes, header })
}

// The same with an alpha plane, which is the first.
pub fn encode_channels_body_alpha(
    r: &[u8],
    g: &[u8],
    b: &[u8],
    a: &[u8],
    dst: &mut [u8],
    rle: bool,
    width: usize,
    height: usize,
) -> Result<Encoded, Refusal>
    ensures answer { encoded_to_answer result ≡ with_header (header_to_send_of true rle) (pack_picture rle width height (length dst.old) (four_planes r.now g.now b.now a.now)).answer }
    ensures slice { dst.new ≡ overwrite dst.old (pack_picture rle width height (length dst.old) (four_planes r.now g.now b.now a.now)).written }
{
    let planes = alpha_and_colors(r, g, b, a, Layout::Planar);
    let bytes = encode(&planes, dst, rle, width, height)?;
    let header = header_to_send(true, rle);
    Ok(Encoded { bytes, header })
}

// Packs a picture from pixels of the layout (FORMAT 7.1), without their alpha.
pub fn encode_bitmap_body(
    layout: PixelLayout,
    src: &[u8],
    dst: &mut [u8],
    rle: bool,
    width: usize,
    height: usize,
) -> Result<Encoded, Refusal>
    ensures answer { encoded_to_answer result ≡ with_header (header_to_send_of false rle) (pack_picture rle width height (length dst.old) (pixel_planes (channel_offsets layout) src.now)).answer }
    ensures slice { dst.new ≡ overwrite dst.old (pack_picture rle width height (length dst.old) (pixel_planes (channel_offsets layout) src.now)).written }
{
    let planes = colors(src, src, src, Layout::Pixels(layout));
    let bytes = encode(&planes, dst, rle, width, height)?;
    let header = header_to_send(false, rle);
    Ok(Encoded { bytes, header })
}

// The same with their alpha.
pub fn encode_bitmap_body_alpha(
    layout: PixelLayout,
    src: &[u8],
    dst: &mut [u8],
    rle: bool,
    width: usize,
    height: usize,
) -> Result<Encoded, Refusal>
    ensures answer { encoded_to_answer result ≡ with_header (header_to_send_of true rle) (pack_picture rle width height (length dst.old) (pixel_planes_alpha (channel_offsets layout) src.now)).answer }
    ensures slice { dst.new ≡ overwrite dst.old (pack_picture rle width height (length dst.old) (pixel_planes_alpha (channel_offsets layout) src.now)).written }
{
    let planes = alpha_and_colors(src, src, src, src, Layout::Pixels(layout));
    let bytes = encode(&planes, dst, rle, width, height)?;
    let header = header_to_send(true, rle);
    Ok(Encoded { bytes, header })
}
