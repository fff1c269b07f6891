// Replays one case of unpacking a picture, from its body or from a whole stream, to three or four bytes a pixel. The case is one line:
//     WIDTH HEIGHT RLE ALPHA DEFINITION LEVEL SUBSAMPLED WORKROOM IMAGEROOM ANSWER BODY WORK-AFTER IMAGE-AFTER
//     WIDTH HEIGHT RLE ALPHA DEFINITION LEVEL SUBSAMPLED LAYOUT WORKROOM IMAGEROOM ANSWER BODY WORK-AFTER IMAGE-AFTER
//     WIDTH HEIGHT WORKROOM IMAGEROOM WORKSIZE ANSWER STREAM WORK-AFTER IMAGE-AFTER
//     WIDTH HEIGHT LAYOUT WORKROOM IMAGEROOM WORKSIZE ANSWER STREAM WORK-AFTER IMAGE-AFTER
// RLE, ALPHA and SUBSAMPLED are 0 or 1, LEVEL is 0 to 255. DEFINITION is 0 for ARGB, which ignores LEVEL and SUBSAMPLED, and 1 for
// AYCoCg. LAYOUT is that of four-byte pixels (FORMAT 7.1): 0 is BGRA, 1 RGBA, 2 ARGB, 3 ABGR. WORKROOM and IMAGEROOM are the lengths of
// the work area and of the image. WORKSIZE is the minimum size of the work area, which `stream_work_size` returns. ANSWER is the number
// of bytes written, or the negative of a refusal's number. WORK-AFTER and IMAGE-AFTER have all bytes of both after the call. Bytes are
// written as in a plane's line.
ghost use Rattle.std.specs.Prelude.{◌≤◌};

use bitmap_format::{BitmapStreamHeader, ColorPlaneDefinition};
use case_lines::file::Replay;
use case_lines::guarded::{ARRAY_SIZE, Comparison, GUARD_SIZE, MAX_SLICE};
use case_lines::report::{Answer, LineResult};
use case_lines::{guarded, read, report};
use pixel_format::PixelFormat;
use rle_format::Refusal;

// What a case unpacks.
#[derive(Clone, Copy)]
pub(crate) enum SourceKind {
    Body,
    Stream,
}

// What it is unpacked to: three bytes a pixel, or four in a layout.
#[derive(Clone, Copy)]
pub(crate) enum ImageKind {
    Rgb24,
    Pixels,
}

// Both are the same for all cases of a file.
#[derive(Clone, Copy)]
pub(crate) struct CaseKind {
    pub(crate) source: SourceKind,
    pub(crate) image: ImageKind,
}

// The source of a case: a body with its header record, or a stream.
// No Option of a header record: a stream has its own in its first byte.
#[derive(Clone, Copy)]
enum Source {
    Body(BitmapStreamHeader),
    Stream,
}

// The lengths of the work area and of the image.
#[derive(Clone, Copy)]
struct Rooms {
    work: usize,
    image: usize,
    ghost fit: { (work ≤ 33000) × (image ≤ 33000) },
}

// What the calls of a case return. The minimum size of the work area is 0 for a body, whose line does not have it.
// No Option: for a body the expected size and the returned one are both 0.
#[derive(Clone, Copy)]
struct Returned {
    work_size: usize,
    answer: Answer,
}

// The numbers of a case.
#[derive(Clone, Copy)]
struct Case {
    width: usize,
    height: usize,
    source: Source,
    format: PixelFormat,
    rooms: Rooms,
    expected: Returned,
}

impl Replay for CaseKind {
    fn replay(&self, line: &[u8]) -> LineResult {
        replay_case(*self, line).unwrap_or(LineResult::Malformed)
    }
}

// Replays the case of a line, or returns None for a malformed line.
fn replay_case(kind: CaseKind, line: &[u8]) -> Option<LineResult> {
    let (case, line) = next_case(kind, line)?;
    replay_fields(case, line)
}

// Reads the remaining fields of a case, and replays it. The array stands before every test, and the function is not inlined: the compiler fills an
// array that stands behind a test twice, and that of an inlined function for malformed lines too.
#[inline(never)]
fn replay_fields(case: Case, line: &[u8]) -> Option<LineResult> {
    let mut source = [0; MAX_SLICE];
    let (count, line) = read::next_bytes(line, &mut source)?;
    run(case, &source[..count], line)
}

// Makes the calls with a work area and an image between guard bytes, and compares everything that can be observed with the remaining fields.
fn run(case: Case, source: &[u8], line: &[u8]) -> Option<LineResult> {
    let mut work = guarded::new_array();
    let mut image = guarded::new_array();
    let Rooms {
        work: work_room,
        image: image_room,
    } = case.rooms;
    let got = call(
        case,
        source,
        &mut work[GUARD_SIZE..GUARD_SIZE + work_room],
        &mut image[GUARD_SIZE..GUARD_SIZE + image_room],
    );
    let (work, line) = next_comparison(line, &work, work_room)?;
    let (image, line) = next_comparison(line, &image, image_room)?;
    if !line.is_empty() {
        return None;
    }
    Some(result_of(case.expected, got, work.and(image)))
}

// Reads the numbers of a case.
fn next_case(kind: CaseKind, line: &[u8]) -> Option<(Case, &[u8])> {
    let ([width, height], line) = read::next_numbers::<2>(line)?;
    let (source, line) = next_source(kind.source, line)?;
    let (format, line) = next_format(kind.image, line)?;
    let (rooms, line) = next_rooms(line)?;
    let (work_size, line) = next_work_size(kind.source, line)?;
    let (answer, line) = read::next_answer(line)?;
    let case = Case {
        width,
        height,
        source,
        format,
        rooms,
        expected: Returned { work_size, answer },
    };
    Some((case, line))
}

// Reads the header record, which only the line of a body has.
// Here and in the readers below the kind says whether the line has a field: with a closure for each
// kind, the code that reads the common fields would stand twice.
fn next_source(kind: SourceKind, line: &[u8]) -> Option<(Source, &[u8])> {
    match kind {
        SourceKind::Stream => Some((Source::Stream, line)),
        SourceKind::Body => {
            let (enable_rle_compression, line) = read::next_flag(line)?;
            let (use_alpha, line) = read::next_flag(line)?;
            let (color_plane_definition, line) = next_definition(line)?;
            let header = BitmapStreamHeader {
                enable_rle_compression,
                use_alpha,
                color_plane_definition,
            };
            Some((Source::Body(header), line))
        }
    }
}

// Reads a plane definition. ARGB ignores the two numbers after the first.
fn next_definition(line: &[u8]) -> Option<(ColorPlaneDefinition, &[u8])> {
    let (is_aycocg, line) = read::next_flag(line)?;
    let (level, line) = read::next_number(line)?;
    let (use_chroma_subsampling, line) = read::next_flag(line)?;
    let color_loss_level = u8::try_from(level).ok()?;
    if !is_aycocg {
        return Some((ColorPlaneDefinition::Argb, line));
    }
    let definition = ColorPlaneDefinition::AYCoCg {
        color_loss_level,
        use_chroma_subsampling,
    };
    Some((definition, line))
}

// Reads the layout, which only the line of four-byte pixels has.
fn next_format(kind: ImageKind, line: &[u8]) -> Option<(PixelFormat, &[u8])> {
    match kind {
        ImageKind::Rgb24 => Some((PixelFormat::Rgb24, line)),
        ImageKind::Pixels => {
            let (layout, line) = read::next_layout(line)?;
            Some((PixelFormat::FourBytes(layout), line))
        }
    }
}

// Reads the lengths of the work area and of the image.
fn next_rooms(line: &[u8]) -> Option<(Rooms, &[u8])> {
    let ([work, image], line) = read::next_numbers::<2>(line)?;
    if MAX_SLICE < work || MAX_SLICE < image {
        return None;
    }
    Some((Rooms { work, image }, line))
}

// Reads the minimum size of the work area, which only the line of a stream has.
fn next_work_size(kind: SourceKind, line: &[u8]) -> Option<(usize, &[u8])> {
    match kind {
        SourceKind::Body => Some((0, line)),
        SourceKind::Stream => read::next_number(line),
    }
}

// Makes the calls of a case.
// Case and bytes stay two parameters: the numbers are read before there is room for the bytes.
fn call(case: Case, bytes: &[u8], work: &mut [u8], image: &mut [u8]) -> Returned {
    guarded::prepare(work);
    guarded::prepare(image);
    Returned {
        work_size: work_size(case, bytes),
        answer: decode(case, bytes, work, image).into(),
    }
}

fn work_size(case: Case, bytes: &[u8]) -> usize {
    match case.source {
        Source::Body(_) => 0,
        Source::Stream => {
            bitmap_stream::stream_work_size(case.format, bytes, case.width, case.height)
        }
    }
}

fn decode(case: Case, bytes: &[u8], work: &mut [u8], image: &mut [u8]) -> Result<usize, Refusal> {
    let Case { width, height, .. } = case;
    match (case.source, case.format) {
        (Source::Body(header), PixelFormat::Rgb24) => {
            bitmap_decoder::decode(header, bytes, work, image, width, height)
        }
        (Source::Body(header), PixelFormat::FourBytes(layout)) => {
            bitmap_decoder::decode_pixels(layout, header, bytes, work, image, width, height)
        }
        (Source::Stream, PixelFormat::Rgb24) => {
            bitmap_stream::decode_bitmap_stream_to_rgb24(bytes, work, image, width, height)
        }
        (Source::Stream, PixelFormat::FourBytes(layout)) => {
            bitmap_stream::decode_bitmap_stream_to_pixels(layout, bytes, work, image, width, height)
        }
    }
}

// Reads a field of `size` bytes, and compares the slice that lies between guard bytes in `array` with it.
// Array and size stay two: the guard bytes behind the slice are compared too.
fn next_comparison<'a>(
    line: &'a [u8],
    array: &[u8; ARRAY_SIZE],
    size: usize,
) -> Option<(Comparison, &'a [u8])> {
    let mut after = [0; MAX_SLICE];
    let (count, line) = read::next_bytes(line, &mut after)?;
    if count != size {
        return None;
    }
    Some((guarded::compare_slice(array, &after[..count]), line))
}

// The result of a case. Only one pair of answers is reported: the minimum sizes of the work area if they differ.
fn result_of(expected: Returned, got: Returned, slices: Comparison) -> LineResult {
    if got.work_size != expected.work_size {
        return report::case_result(
            Answer::Count(expected.work_size),
            Answer::Count(got.work_size),
            true,
            slices,
        );
    }
    report::case_result(expected.answer, got.answer, true, slices)
}
