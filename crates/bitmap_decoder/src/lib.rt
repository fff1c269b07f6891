// Unpacks a picture from its body (FORMAT 2, 6; MS-RDPEGDI 3.1.9.1), to pixels of three or of four bytes: IronRDP's rdp6/bitmap_stream/decoder.rs.
#![tactic(auto)]

ghost use Rattle.std.specs.Prelude.{◌≡◌, true, false, ◌≤◌, length, drop};
ghost use Rattle.rle_format.specs.Answer.{to_answer};
ghost use Rattle.pixel_format.specs.Channel.{channel_offsets};
ghost use Rattle.bitmap_format.specs.Planes.{alpha_planes};
ghost use Rattle.bitmap_format.specs.Pixels.{format_to_form};
ghost use Rattle.bitmap_format.specs.Sizes.{sample_count_of, sum_over, min_body_size_of, alpha_offset_of, work_size_of, row_size, image_size_of};
ghost use Rattle.bitmap_format.specs.Image.{image_row, write_rows};
ghost use Rattle.bitmap_format.specs.Picture.{unpack_rle, unpack_to, unpack_picture, unpack_pixels};

use bitmap_checks::first_refusal;
use bitmap_format::{BitmapStreamHeader, Picture, color_planes_size, image_size};
use bitmap_image::write_planes;
use bitmap_planes::decompress_planes;
use pixel_format::{PixelFormat, PixelLayout};
use rle_format::Refusal;

// Where alpha is in the work area of an RLE picture: behind the colour planes if the pixels show it, else at the start.
fn alpha_offset(picture: Picture) -> usize
    ensures { result ≡ alpha_offset_of (format_to_form picture.format) picture.header picture.width picture.height }
{
    match picture.format {
        PixelFormat::Rgb24 => 0,
        PixelFormat::FourBytes(_) => color_planes_size(
            picture.header,
            picture.width,
            picture.height,
        ),
    }
}

// Unpacks an RLE picture that passed all checks. The image is written after the last plane is read, so that no refusal changes it.
fn decode_rle(
    picture: Picture,
    body: &[u8],
    work: &mut [u8],
    image: &mut [u8],
) -> Result<usize, Refusal>
    requires { (picture.header.enable_rle_compression ≡ true) × (work_size_of (format_to_form picture.format) picture.header picture.width picture.height ≤ length work.old) × (image_size_of (format_to_form picture.format) picture.width picture.height ≤ length image.old) }
    ensures answer { to_answer result ≡ (unpack_rle (format_to_form picture.format) picture.header picture.width picture.height body.now work.old image.old).answer }
    ensures work { work.new ≡ (unpack_rle (format_to_form picture.format) picture.header picture.width picture.height body.now work.old image.old).work }
    ensures image { image.new ≡ (unpack_rle (format_to_form picture.format) picture.header picture.width picture.height body.now work.old image.old).image }
{
    let Picture {
        format,
        header,
        width,
        height,
        ..
    } = picture;
    let offset = alpha_offset(picture);
    decompress_planes(header, offset, body, work, width, height)?;
    write_planes(
        format,
        header,
        &work[0..],
        &work[offset..],
        image,
        width,
        height,
    );
    Ok(image_size(format, width, height))
}

// The size of alpha in a raw body.
fn alpha_size(picture: Picture) -> usize
    ensures { result ≡ sum_over sample_count_of (alpha_planes picture.header.use_alpha picture.width picture.height) }
{
    if picture.header.use_alpha {
        return picture.width * picture.height;
    }
    0
}

// Unpacks a raw picture that passed all checks, from its planes in the body: alpha, if flagged, and the colour planes behind it.
fn decode_raw(picture: Picture, body: &[u8], image: &mut [u8])
    requires { (picture.header.enable_rle_compression ≡ false) × (min_body_size_of picture.header picture.width picture.height ≤ length body.now) × (image_size_of (format_to_form picture.format) picture.width picture.height ≤ length image.old) }
    ensures { image.new ≡ write_rows (row_size (format_to_form picture.format) picture.width) (image_row (format_to_form picture.format) picture.header.color_plane_definition picture.header.use_alpha picture.width picture.height (drop (sum_over sample_count_of (alpha_planes picture.header.use_alpha picture.width picture.height)) body.now) body.now) picture.height image.old }
{
    let Picture {
        format,
        header,
        width,
        height,
        ..
    } = picture;
    let start = alpha_size(picture);
    write_planes(
        format,
        header,
        &body[start..],
        &body[0..],
        image,
        width,
        height,
    );
}

// The three functions below take header record, slices and sides one by one, as the C interface (rdp6_decode) and README do: the slices are lent for
// the call alone, and each has a clause of its own.

// Unpacks a picture from its body into the first bytes of the image, and returns their number. An RLE picture uses the work area; a raw one does not
// change it. Refusals 1 to 6, then 7, 8, 9; FORMAT 8.3 says what each leaves.
pub fn decode_to(
    format: PixelFormat,
    header: BitmapStreamHeader,
    body: &[u8],
    work: &mut [u8],
    image: &mut [u8],
    width: usize,
    height: usize,
) -> Result<usize, Refusal>
    ensures answer { to_answer result ≡ (unpack_to (format_to_form format) header width height body.now work.old image.old).answer }
    ensures work { work.new ≡ (unpack_to (format_to_form format) header width height body.now work.old image.old).work }
    ensures image { image.new ≡ (unpack_to (format_to_form format) header width height body.now work.old image.old).image }
{
    let size = first_refusal(
        format,
        header,
        width,
        height,
        body.len(),
        work.len(),
        image.len(),
    )?;
    let picture = Picture {
        format,
        header,
        width,
        height,
    };
    if header.enable_rle_compression {
        return decode_rle(picture, body, work, image);
    }
    decode_raw(picture, body, image);
    Ok(size)
}

// The same to three-byte pixels, R, G and B: the first 3 × width × height bytes of the image.
pub fn decode(
    header: BitmapStreamHeader,
    body: &[u8],
    work: &mut [u8],
    image: &mut [u8],
    width: usize,
    height: usize,
) -> Result<usize, Refusal>
    ensures answer { to_answer result ≡ (unpack_picture header width height body.now work.old image.old).answer }
    ensures work { work.new ≡ (unpack_picture header width height body.now work.old image.old).work }
    ensures image { image.new ≡ (unpack_picture header width height body.now work.old image.old).image }
{
    let format = PixelFormat::Rgb24;
    decode_to(format, header, body, work, image, width, height)
}

// The same to four-byte pixels in a layout: the first 4 × width × height bytes of the image. Alpha is that of the alpha plane, or 255 if there is none.
// In the work area it is behind the colour planes, and stays there.
pub fn decode_pixels(
    layout: PixelLayout,
    header: BitmapStreamHeader,
    body: &[u8],
    work: &mut [u8],
    image: &mut [u8],
    width: usize,
    height: usize,
) -> Result<usize, Refusal>
    ensures answer { to_answer result ≡ (unpack_pixels (channel_offsets layout) header width height body.now work.old image.old).answer }
    ensures work { work.new ≡ (unpack_pixels (channel_offsets layout) header width height body.now work.old image.old).work }
    ensures image { image.new ≡ (unpack_pixels (channel_offsets layout) header width height body.now work.old image.old).image }
{
    let format = PixelFormat::FourBytes(layout);
    decode_to(format, header, body, work, image, width, height)
}
