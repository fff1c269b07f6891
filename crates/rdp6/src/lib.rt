// The C interface of librdp6.a; include/rdp6.h has the prototypes. A slice is passed as a pointer and a length. Each function calls one function of
// another crate and returns its answer as one number (FORMAT 8.4). Only an unknown layout is refused here.
// Names, parameters, numbers of kinds and sizes of 0 are those of include/rdp6.h, so functions that are alike stay side by side.
#![tactic(auto)]

ghost use Rattle.std.specs.Prelude.{◌≡◌, true, false, ℕ, ◌<◌, length, Ok};
ghost use Rattle.rle_format.specs.Answer.{refused, number, to_answer};
ghost use Rattle.rle_format.specs.Sides.{check_sides_of};
ghost use Rattle.rle_format.specs.Slice.{overwrite};
ghost use Rattle.rle_format.specs.Unpack.{unpack_plane};
ghost use Rattle.rle_format.specs.Pack.{pack_plane};
ghost use Rattle.pixel_format.specs.Channel.{bgr_a};
ghost use Rattle.bitmap_format.specs.Pixels.{three_bytes, four_bytes};
ghost use Rattle.bitmap_format.specs.Sizes.{work_size_of, image_size_of};
ghost use Rattle.bitmap_format.specs.Picture.{unpack_picture};
ghost use Rattle.bitmap_format.specs.PackPicture.{three_planes, four_planes, pack_picture, encoded_to_answer, drop_header};
ghost use Rattle.bitmap_format.specs.Stream.{unpack_stream_of, stream_work_size_of, pack_picture_stream};
ghost use Rattle.rdp6.specs.Number.{c_number};
ghost use Rattle.rdp6.specs.Header.{c_level, c_definition, c_header};
ghost use Rattle.rdp6.specs.Layout.{c_layout, unknown_layout, c_pack_pixels, c_pack_pixels_stream, c_unpack_pixels, unknown_layout_of_stream, c_unpack_pixel_stream};

use bitmap_decoder::decode_pixels;
use bitmap_format::{BitmapStreamHeader, ColorPlaneDefinition, Encoded};
use bitmap_stream::{
    decode_bitmap_stream_to_pixels, decode_bitmap_stream_to_rgb24, encode_bitmap,
    encode_bitmap_alpha, encode_channels_stream, encode_channels_stream_alpha, split_stream,
    stream_work_size,
};
use pixel_format::{PixelFormat, PixelLayout};
use rle_format::{Refusal, ValidSides};

// A refusal as a C function returns it.
fn refusal_number(refusal: Refusal) -> i64
    ensures { result ≡ c_number (refused (number refusal)) }
{
    -i64::from(u8::from(refusal))
}

// The answer of a call, as C gets it. A number of bytes is at most what a slice can have, so it fits an i64:
// `as` for that reason.
fn answer_number(answer: Result<usize, Refusal>) -> i64
    requires { (n : ℕ) → answer ≡ Ok n → n < 9223372036854775808 }
    ensures { result ≡ c_number (to_answer answer) }
{
    match answer {
        Ok(count) => count as i64,
        Err(refusal) => refusal_number(refusal),
    }
}

// The number of bytes of a packed body, without its header record.
fn body_size(body: Result<Encoded, Refusal>) -> Result<usize, Refusal>
    ensures { to_answer result ≡ drop_header (encoded_to_answer body) }
{
    Ok(body?.bytes)
}

// The loss level, from an argument of a C function. A number that is no level becomes 0 before it is narrowed: 257 must not become 1.
// By `as`: `u8::try_from` would take 8 to 255 too.
fn level_of(level: u32) -> u8
    ensures { result ≡ c_level level }
{
    if level > 7 {
        return 0;
    }
    level as u8
}

// The plane definition, from the arguments of a C function. An unknown number is refused with 3, by way of loss level 0.
// No Result: refusals 1 and 2, of the sides, come before it.
fn definition_of(definition: u32, level: u32, subsampling: bool) -> ColorPlaneDefinition
    ensures { result ≡ c_definition definition level subsampling }
{
    if definition == 0 {
        return ColorPlaneDefinition::Argb;
    }
    if definition == 1 {
        return ColorPlaneDefinition::AYCoCg {
            color_loss_level: level_of(level),
            use_chroma_subsampling: subsampling,
        };
    }
    ColorPlaneDefinition::AYCoCg {
        color_loss_level: 0,
        use_chroma_subsampling: subsampling,
    }
}

// The header record, from the arguments of a C function.
fn header_of(
    rle: bool,
    alpha: bool,
    definition: u32,
    level: u32,
    subsampling: bool,
) -> BitmapStreamHeader
    ensures { result ≡ c_header rle alpha definition level subsampling }
{
    BitmapStreamHeader {
        enable_rle_compression: rle,
        use_alpha: alpha,
        color_plane_definition: definition_of(definition, level, subsampling),
    }
}

// The layout, from an argument of a C function. The number is not narrowed before it is compared: 256 is not BGRA.
// No TryFrom: the types are of other crates, and pixel_format has no numbers for layouts; case_lines has those of its files by itself.
fn layout_of(layout: u32) -> Option<PixelLayout>
    ensures { result ≡ c_layout layout }
{
    match layout {
        0 => Some(PixelLayout::BgrA),
        1 => Some(PixelLayout::RgbA),
        2 => Some(PixelLayout::ARgb),
        3 => Some(PixelLayout::ABgr),
        _ => None,
    }
}

// Why a call with an unknown layout is refused: refusal 1 or 2 of the sides, or else 3, as for an unknown plane definition (FORMAT 8.1).
fn layout_refusal(width: usize, height: usize) -> Refusal
    ensures { refused (number result) ≡ unknown_layout width height }
{
    match ValidSides::new(width, height) {
        Ok(_) => Refusal::LossLevel,
        Err(refusal) => refusal,
    }
}

#[unsafe(no_mangle)]
pub extern "C" fn rdp6_decompress_8bpp_plane(
    src: &[u8],
    dst: &mut [u8],
    width: usize,
    height: usize,
) -> i64
    ensures answer { result ≡ c_number (unpack_plane width height (length dst.old) src.now).answer }
    ensures slice { dst.new ≡ overwrite dst.old (unpack_plane width height (length dst.old) src.now).written }
{
    answer_number(rle_decoder::decompress_8bpp_plane(src, dst, width, height))
}

#[unsafe(no_mangle)]
pub extern "C" fn rdp6_compress_8bpp_plane(
    src: &[u8],
    dst: &mut [u8],
    width: usize,
    height: usize,
) -> i64
    ensures answer { result ≡ c_number (pack_plane width height (length dst.old) src.now).answer }
    ensures slice { dst.new ≡ overwrite dst.old (pack_plane width height (length dst.old) src.now).written }
{
    answer_number(rle_encoder::compress_8bpp_plane(src, dst, width, height))
}

#[unsafe(no_mangle)]
pub extern "C" fn rdp6_decode(
    rle: bool,
    alpha: bool,
    definition: u32,
    level: u32,
    subsampling: bool,
    body: &[u8],
    work: &mut [u8],
    image: &mut [u8],
    width: usize,
    height: usize,
) -> i64
    ensures answer { result ≡ c_number (unpack_picture (c_header rle alpha definition level subsampling) width height body.now work.old image.old).answer }
    ensures work { work.new ≡ (unpack_picture (c_header rle alpha definition level subsampling) width height body.now work.old image.old).work }
    ensures image { image.new ≡ (unpack_picture (c_header rle alpha definition level subsampling) width height body.now work.old image.old).image }
{
    let header = header_of(rle, alpha, definition, level, subsampling);
    answer_number(bitmap_decoder::decode(header, body, work, image, width, height))
}

#[unsafe(no_mangle)]
pub extern "C" fn rdp6_work_size(
    rle: bool,
    definition: u32,
    subsampling: bool,
    width: usize,
    height: usize,
) -> usize
    ensures { result ≡ check_sides_of (λ (_ : ℕ). 0) width height (work_size_of three_bytes (c_header rle false definition 0 subsampling) width height) }
{
    let header = header_of(rle, false, definition, 0, subsampling);
    let rgb24 = PixelFormat::Rgb24;
    bitmap_format::work_size(rgb24, header, width, height)
}

#[unsafe(no_mangle)]
pub extern "C" fn rdp6_image_size(width: usize, height: usize) -> usize
    ensures { result ≡ check_sides_of (λ (_ : ℕ). 0) width height (image_size_of three_bytes width height) }
{
    let rgb24 = PixelFormat::Rgb24;
    bitmap_format::image_size(rgb24, width, height)
}

#[unsafe(no_mangle)]
pub extern "C" fn rdp6_decode_pixels(
    rle: bool,
    alpha: bool,
    definition: u32,
    level: u32,
    subsampling: bool,
    layout: u32,
    body: &[u8],
    work: &mut [u8],
    image: &mut [u8],
    width: usize,
    height: usize,
) -> i64
    ensures answer { result ≡ c_number (c_unpack_pixels (c_layout layout) (c_header rle alpha definition level subsampling) width height body.now work.old image.old).answer }
    ensures work { work.new ≡ (c_unpack_pixels (c_layout layout) (c_header rle alpha definition level subsampling) width height body.now work.old image.old).work }
    ensures image { image.new ≡ (c_unpack_pixels (c_layout layout) (c_header rle alpha definition level subsampling) width height body.now work.old image.old).image }
{
    let Some(pixels) = layout_of(layout) else {
        return refusal_number(layout_refusal(width, height));
    };
    let picture_header = header_of(rle, alpha, definition, level, subsampling);
    answer_number(decode_pixels(pixels, picture_header, body, work, image, width, height))
}

// The sizes are the same in every layout.
#[unsafe(no_mangle)]
pub extern "C" fn rdp6_pixels_work_size(
    rle: bool,
    alpha: bool,
    definition: u32,
    subsampling: bool,
    width: usize,
    height: usize,
) -> usize
    ensures { result ≡ check_sides_of (λ (_ : ℕ). 0) width height (work_size_of (four_bytes bgr_a) (c_header rle alpha definition 0 subsampling) width height) }
{
    let header = header_of(rle, alpha, definition, 0, subsampling);
    let pixels = PixelFormat::FourBytes(PixelLayout::BgrA);
    bitmap_format::work_size(pixels, header, width, height)
}

#[unsafe(no_mangle)]
pub extern "C" fn rdp6_pixels_image_size(width: usize, height: usize) -> usize
    ensures { result ≡ check_sides_of (λ (_ : ℕ). 0) width height (image_size_of (four_bytes bgr_a) width height) }
{
    let pixels = PixelFormat::FourBytes(PixelLayout::BgrA);
    bitmap_format::image_size(pixels, width, height)
}

#[unsafe(no_mangle)]
pub extern "C" fn rdp6_encode_channels(
    r: &[u8],
    g: &[u8],
    b: &[u8],
    dst: &mut [u8],
    rle: bool,
    width: usize,
    height: usize,
) -> i64
    ensures answer { result ≡ c_number (pack_picture rle width height (length dst.old) (three_planes r.now g.now b.now)).answer }
    ensures slice { dst.new ≡ overwrite dst.old (pack_picture rle width height (length dst.old) (three_planes r.now g.now b.now)).written }
{
    let body = bitmap_encoder::encode_channels_body(r, g, b, dst, rle, width, height);
    answer_number(body_size(body))
}

#[unsafe(no_mangle)]
pub extern "C" fn rdp6_encode_channels_alpha(
    r: &[u8],
    g: &[u8],
    b: &[u8],
    a: &[u8],
    dst: &mut [u8],
    rle: bool,
    width: usize,
    height: usize,
) -> i64
    ensures answer { result ≡ c_number (pack_picture rle width height (length dst.old) (four_planes r.now g.now b.now a.now)).answer }
    ensures slice { dst.new ≡ overwrite dst.old (pack_picture rle width height (length dst.old) (four_planes r.now g.now b.now a.now)).written }
{
    let body = bitmap_encoder::encode_channels_body_alpha(r, g, b, a, dst, rle, width, height);
    answer_number(body_size(body))
}

#[unsafe(no_mangle)]
pub extern "C" fn rdp6_encode_bitmap(
    layout: u32,
    src: &[u8],
    dst: &mut [u8],
    rle: bool,
    width: usize,
    height: usize,
) -> i64
    ensures answer { result ≡ c_number (c_pack_pixels false rle width height (length dst.old) src.now (c_layout layout)).answer }
    ensures slice { dst.new ≡ overwrite dst.old (c_pack_pixels false rle width height (length dst.old) src.now (c_layout layout)).written }
{
    let Some(pixels) = layout_of(layout) else {
        return refusal_number(layout_refusal(width, height));
    };
    let body = bitmap_encoder::encode_bitmap_body(pixels, src, dst, rle, width, height);
    answer_number(body_size(body))
}

#[unsafe(no_mangle)]
pub extern "C" fn rdp6_encode_bitmap_alpha(
    layout: u32,
    src: &[u8],
    dst: &mut [u8],
    rle: bool,
    width: usize,
    height: usize,
) -> i64
    ensures answer { result ≡ c_number (c_pack_pixels true rle width height (length dst.old) src.now (c_layout layout)).answer }
    ensures slice { dst.new ≡ overwrite dst.old (c_pack_pixels true rle width height (length dst.old) src.now (c_layout layout)).written }
{
    let Some(pixels) = layout_of(layout) else {
        return refusal_number(layout_refusal(width, height));
    };
    let body = bitmap_encoder::encode_bitmap_body_alpha(pixels, src, dst, rle, width, height);
    answer_number(body_size(body))
}

#[unsafe(no_mangle)]
pub extern "C" fn rdp6_stream_decode(
    stream: &[u8],
    work: &mut [u8],
    image: &mut [u8],
    width: usize,
    height: usize,
) -> i64
    ensures answer { result ≡ c_number (unpack_stream_of width height stream.now work.old image.old).answer }
    ensures work { work.new ≡ (unpack_stream_of width height stream.now work.old image.old).work }
    ensures image { image.new ≡ (unpack_stream_of width height stream.now work.old image.old).image }
{
    answer_number(decode_bitmap_stream_to_rgb24(stream, work, image, width, height))
}

#[unsafe(no_mangle)]
pub extern "C" fn rdp6_stream_work_size(stream: &[u8], width: usize, height: usize) -> usize
    ensures { result ≡ check_sides_of (λ (_ : ℕ). 0) width height (stream_work_size_of three_bytes width height stream.now) }
{
    let rgb24 = PixelFormat::Rgb24;
    stream_work_size(rgb24, stream, width, height)
}

// Why unpacking a stream to an unknown layout is refused: refusal 13 or 14 of the stream, or else that of the layout.
fn stream_layout_refusal(stream: &[u8], width: usize, height: usize) -> Refusal
    ensures { refused (number result) ≡ unknown_layout_of_stream width height stream.now }
{
    match split_stream(stream) {
        Ok(_) => layout_refusal(width, height),
        Err(reason) => reason,
    }
}

#[unsafe(no_mangle)]
pub extern "C" fn rdp6_stream_decode_pixels(
    layout: u32,
    stream: &[u8],
    work: &mut [u8],
    image: &mut [u8],
    width: usize,
    height: usize,
) -> i64
    ensures answer { result ≡ c_number (c_unpack_pixel_stream (c_layout layout) width height stream.now work.old image.old).answer }
    ensures work { work.new ≡ (c_unpack_pixel_stream (c_layout layout) width height stream.now work.old image.old).work }
    ensures image { image.new ≡ (c_unpack_pixel_stream (c_layout layout) width height stream.now work.old image.old).image }
{
    let Some(pixels) = layout_of(layout) else {
        return refusal_number(stream_layout_refusal(stream, width, height));
    };
    answer_number(decode_bitmap_stream_to_pixels(pixels, stream, work, image, width, height))
}

#[unsafe(no_mangle)]
pub extern "C" fn rdp6_stream_pixels_work_size(stream: &[u8], width: usize, height: usize) -> usize
    ensures { result ≡ check_sides_of (λ (_ : ℕ). 0) width height (stream_work_size_of (four_bytes bgr_a) width height stream.now) }
{
    let pixels = PixelFormat::FourBytes(PixelLayout::BgrA);
    stream_work_size(pixels, stream, width, height)
}

#[unsafe(no_mangle)]
pub extern "C" fn rdp6_stream_encode_channels(
    r: &[u8],
    g: &[u8],
    b: &[u8],
    dst: &mut [u8],
    rle: bool,
    width: usize,
    height: usize,
) -> i64
    ensures answer { result ≡ c_number (pack_picture_stream false rle width height (three_planes r.now g.now b.now) dst.old).answer }
    ensures slice { dst.new ≡ (pack_picture_stream false rle width height (three_planes r.now g.now b.now) dst.old).slice }
{
    answer_number(encode_channels_stream(r, g, b, dst, rle, width, height))
}

#[unsafe(no_mangle)]
pub extern "C" fn rdp6_stream_encode_channels_alpha(
    r: &[u8],
    g: &[u8],
    b: &[u8],
    a: &[u8],
    dst: &mut [u8],
    rle: bool,
    width: usize,
    height: usize,
) -> i64
    ensures answer { result ≡ c_number (pack_picture_stream true rle width height (four_planes r.now g.now b.now a.now) dst.old).answer }
    ensures slice { dst.new ≡ (pack_picture_stream true rle width height (four_planes r.now g.now b.now a.now) dst.old).slice }
{
    answer_number(encode_channels_stream_alpha(r, g, b, a, dst, rle, width, height))
}

#[unsafe(no_mangle)]
pub extern "C" fn rdp6_stream_encode_bitmap(
    layout: u32,
    src: &[u8],
    dst: &mut [u8],
    rle: bool,
    width: usize,
    height: usize,
) -> i64
    ensures answer { result ≡ c_number (c_pack_pixels_stream false rle width height src.now dst.old (c_layout layout)).answer }
    ensures slice { dst.new ≡ (c_pack_pixels_stream false rle width height src.now dst.old (c_layout layout)).slice }
{
    let Some(pixels) = layout_of(layout) else {
        return refusal_number(layout_refusal(width, height));
    };
    answer_number(encode_bitmap(pixels, src, dst, rle, width, height))
}

#[unsafe(no_mangle)]
pub extern "C" fn rdp6_stream_encode_bitmap_alpha(
    layout: u32,
    src: &[u8],
    dst: &mut [u8],
    rle: bool,
    width: usize,
    height: usize,
) -> i64
    ensures answer { result ≡ c_number (c_pack_pixels_stream true rle width height src.now dst.old (c_layout layout)).answer }
    ensures slice { dst.new ≡ (c_pack_pixels_stream true rle width height src.now dst.old (c_layout layout)).slice }
{
    let Some(pixels) = layout_of(layout) else {
        return refusal_number(layout_refusal(width, height));
    };
    answer_number(encode_bitmap_alpha(pixels, src, dst, rle, width, height))
}
