// Whole streams (FORMAT 1.7, 7.6; MS-RDPEGDI 2.2.2.5.1): the header byte, and the body, which bitmap_decoder unpacks and bitmap_encoder packs. The
// names are IronRDP's.
#![tactic(auto)]

mod header;

ghost use Rattle.std.specs.Prelude.{◌≡◌, true, false, ℕ, ◌+◌, ◌<◌, min, length, set, IfOk};
ghost use Rattle.rle_format.specs.Answer.{to_answer};
ghost use Rattle.rle_format.specs.Sides.{check_sides_of};
ghost use Rattle.pixel_format.specs.Channel.{channel_offsets};
ghost use Rattle.bitmap_format.specs.HeaderByte.{header_to_byte_of};
ghost use Rattle.bitmap_format.specs.Pixels.{format_to_form};
ghost use Rattle.bitmap_format.specs.PackPicture.{three_planes, four_planes, pixel_planes, pixel_planes_alpha};
ghost use Rattle.bitmap_format.specs.Stream.{split_stream_of, unpack_stream_to, unpack_stream_of, unpack_pixel_stream, stream_work_size_of, pack_picture_stream};
ghost use Rattle.bitmap_stream.specs.Split.{split_of, body_of};

use bitmap_decoder::decode_to;
use bitmap_encoder::{
    encode_bitmap_body, encode_bitmap_body_alpha, encode_channels_body, encode_channels_body_alpha,
};
use bitmap_format::{BitmapStreamHeader, Encoded, work_size};
use header::{header_from_byte, header_to_byte};
use pixel_format::{PixelFormat, PixelLayout};
use rle_format::Refusal;

// A stream, split: the header record, and the body.
#[derive(Clone, Copy)]
pub struct Split<'a> {
    pub header: BitmapStreamHeader,
    pub body: &'a [u8],
}

// Splits a stream into its header record and its body (FORMAT 1.7). Refusals 13 and 14.
pub fn split_stream(stream: &[u8]) -> Result<Split<'_>, Refusal>
    ensures split { split_of result ≡ split_stream_of stream.now }
    ensures body { IfOk result (λ s. s.body.now ≡ body_of stream.now (length s.body.now)) }
{
    let (first, rest) = stream.split_first().ok_or(Refusal::EmptyStream)?;
    let header = header_from_byte(*first);
    if header.enable_rle_compression {
        return Ok(Split { header, body: rest });
    }
    let (_pad, body) = rest.split_last().ok_or(Refusal::MissingPad)?;
    Ok(Split { header, body })
}

// The minimum size of the work area of a stream, from its header byte; 0 if the stream is empty, or if the sides are refused.
// The 0 is no Option: it is the answer of rdp6_stream_work_size.
pub fn stream_work_size(format: PixelFormat, stream: &[u8], width: usize, height: usize) -> usize
    ensures { result ≡ check_sides_of (λ (_ : ℕ). 0) width height (stream_work_size_of (format_to_form format) width height stream.now) }
{
    match stream.first() {
        Some(byte) => work_size(format, header_from_byte(*byte), width, height),
        None => 0,
    }
}

// Unpacks a picture from its stream, as `decode_to` does from its header record and body. Refusals 13 and 14, which change nothing, then those of
// `decode_to` but 3.
fn decode_stream_to(
    format: PixelFormat,
    stream: &[u8],
    work: &mut [u8],
    image: &mut [u8],
    width: usize,
    height: usize,
) -> Result<usize, Refusal>
    ensures answer { to_answer result ≡ (unpack_stream_to (format_to_form format) width height stream.now work.old image.old).answer }
    ensures work { work.new ≡ (unpack_stream_to (format_to_form format) width height stream.now work.old image.old).work }
    ensures image { image.new ≡ (unpack_stream_to (format_to_form format) width height stream.now work.old image.old).image }
{
    let Split { header, body } = split_stream(stream)?;
    decode_to(format, header, body, work, image, width, height)
}

// To three-byte pixels, R, G and B.
// This function and the next stay two: README names both, and each has a clause by a definition of its own.
pub fn decode_bitmap_stream_to_rgb24(
    stream: &[u8],
    work: &mut [u8],
    image: &mut [u8],
    width: usize,
    height: usize,
) -> Result<usize, Refusal>
    ensures answer { to_answer result ≡ (unpack_stream_of width height stream.now work.old image.old).answer }
    ensures work { work.new ≡ (unpack_stream_of width height stream.now work.old image.old).work }
    ensures image { image.new ≡ (unpack_stream_of width height stream.now work.old image.old).image }
{
    let format = PixelFormat::Rgb24;
    decode_stream_to(format, stream, work, image, width, height)
}

// To four-byte pixels in a layout.
pub fn decode_bitmap_stream_to_pixels(
    layout: PixelLayout,
    stream: &[u8],
    work: &mut [u8],
    image: &mut [u8],
    width: usize,
    height: usize,
) -> Result<usize, Refusal>
    ensures answer { to_answer result ≡ (unpack_pixel_stream (channel_offsets layout) width height stream.now work.old image.old).answer }
    ensures work { work.new ≡ (unpack_pixel_stream (channel_offsets layout) width height stream.now work.old image.old).work }
    ensures image { image.new ≡ (unpack_pixel_stream (channel_offsets layout) width height stream.now work.old image.old).image }
{
    let format = PixelFormat::FourBytes(layout);
    decode_stream_to(format, stream, work, image, width, height)
}

// The body that is packed into a destination: all of it but its first byte. An empty one has no byte to leave out.
fn body_start(dst: &[u8]) -> usize
    ensures { result ≡ min 1 (length dst.now) }
{
    dst.len().min(1)
}

// Writes the header byte in front of a packed body, and counts it.
fn write_header_byte(body: Encoded, dst: &mut [u8]) -> usize
    requires { body.bytes < length dst.old }
    ensures count { result ≡ body.bytes + 1 }
    ensures slice { dst.new ≡ set dst.old 0 (header_to_byte_of body.header) }
{
    dst[0] = header_to_byte(body.header);
    body.bytes + 1
}

// Packs a stream from R, G and B, each in a slice of its own: the header byte, then the body. Refusals 1, 2, 11, then 12; none of them writes the header
// byte, and FORMAT 8.3 says what each leaves in dst.
// The four packers stay four: C has one of each kind, and their clauses say which planes each packs. They take slices and sides one by one, as C does.
pub fn encode_channels_stream(
    r: &[u8],
    g: &[u8],
    b: &[u8],
    dst: &mut [u8],
    rle: bool,
    width: usize,
    height: usize,
) -> Result<usize, Refusal>
    ensures answer { to_answer result ≡ (pack_picture_stream false rle width height (three_planes r.now g.now b.now) dst.old).answer }
    ensures slice { dst.new ≡ (pack_picture_stream false rle width height (three_planes r.now g.now b.now) dst.old).slice }
{
    let start = body_start(dst);
    let body = encode_channels_body(r, g, b, &mut dst[start..], rle, width, height)?;
    Ok(write_header_byte(body, dst))
}

// The same with an alpha plane, which is the first.
pub fn encode_channels_stream_alpha(
    r: &[u8],
    g: &[u8],
    b: &[u8],
    a: &[u8],
    dst: &mut [u8],
    rle: bool,
    width: usize,
    height: usize,
) -> Result<usize, Refusal>
    ensures answer { to_answer result ≡ (pack_picture_stream true rle width height (four_planes r.now g.now b.now a.now) dst.old).answer }
    ensures slice { dst.new ≡ (pack_picture_stream true rle width height (four_planes r.now g.now b.now a.now) dst.old).slice }
{
    let start = body_start(dst);
    let body = encode_channels_body_alpha(r, g, b, a, &mut dst[start..], rle, width, height)?;
    Ok(write_header_byte(body, dst))
}

// Packs a stream from pixels of the layout (FORMAT 7.1), without their alpha.
pub fn encode_bitmap(
    layout: PixelLayout,
    src: &[u8],
    dst: &mut [u8],
    rle: bool,
    width: usize,
    height: usize,
) -> Result<usize, Refusal>
    ensures answer { to_answer result ≡ (pack_picture_stream false rle width height (pixel_planes (channel_offsets layout) src.now) dst.old).answer }
    ensures slice { dst.new ≡ (pack_picture_stream false rle width height (pixel_planes (channel_offsets layout) src.now) dst.old).slice }
{
    let start = body_start(dst);
    let body = encode_bitmap_body(layout, src, &mut dst[start..], rle, width, height)?;
    Ok(write_header_byte(body, dst))
}

// The same with their alpha.
pub fn encode_bitmap_alpha(
    layout: PixelLayout,
    src: &[u8],
    dst: &mut [u8],
    rle: bool,
    width: usize,
    height: usize,
) -> Result<usize, Refusal>
    ensures answer { to_answer result ≡ (pack_picture_stream true rle width height (pixel_planes_alpha (channel_offsets layout) src.now) dst.old).answer }
    ensures slice { dst.new ≡ (pack_picture_stream true rle width height (pixel_planes_alpha (channel_offsets layout) src.now) dst.old).slice }
{
    let start = body_start(dst);
    let body = encode_bitmap_body_alpha(layout, src, &mut dst[start..], rle, width, height)?;
    Ok(write_header_byte(body, dst))
}
