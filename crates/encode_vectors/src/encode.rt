// Replays one case of packing a picture, from its channels or from its pixels, into a body or into a whole stream. The case is one
// line:
//     WIDTH HEIGHT RLE ALPHA ROOM ANSWER SENTRLE SENTALPHA SENTDEFINITION R G B A AFTER
//     WIDTH HEIGHT LAYOUT RLE ALPHA ROOM ANSWER SENTRLE SENTALPHA SENTDEFINITION PIXELS AFTER
//     WIDTH HEIGHT RLE ALPHA ROOM ANSWER R G B A AFTER
//     WIDTH HEIGHT LAYOUT RLE ALPHA ROOM ANSWER PIXELS AFTER
// LAYOUT is that of the pixels (FORMAT 7.1): 0 is BGRA, 1 RGBA, 2 ARGB, 3 ABGR. RLE is 0 or 1. ALPHA is 1 for the function that packs
// alpha; if it is 0, A is a hyphen. ROOM is the length of the destination. ANSWER is the number of bytes written, or the negative of a
// refusal's number. AFTER has all bytes of the destination after the call. SENTRLE, SENTALPHA and SENTDEFINITION are the header record
// returned with a body (FORMAT 7.5), 0 or 1 each; a SENTDEFINITION of 0 is ARGB. A refusal returns no header record, and they are
// ignored. Bytes are written as in a plane's line.
ghost use Rattle.std.specs.Prelude.{◌≤◌, length};

use bitmap_format::{BitmapStreamHeader, ColorPlaneDefinition, Encoded};
use case_lines::file::Replay;
use case_lines::guarded::{ARRAY_SIZE, GUARD_SIZE, MAX_SLICE};
use case_lines::report::{Answer, LineResult};
use case_lines::{guarded, read, report};
use pixel_format::PixelLayout;
use rle_format::Refusal;

// What a case packs.
#[derive(Clone, Copy)]
pub(crate) enum SourceKind {
    Channels,
    Pixels,
}

// What it is packed into.
#[derive(Clone, Copy)]
pub(crate) enum ResultKind {
    Body,
    Stream,
}

// Both are the same for all cases of a file.
#[derive(Clone, Copy)]
pub(crate) struct CaseKind {
    pub(crate) source: SourceKind,
    pub(crate) result: ResultKind,
}

// The header record that a call should return.
#[derive(Clone, Copy)]
struct ExpectedHeader {
    rle: bool,
    alpha: bool,
    is_aycocg: bool,
}

// The numbers of a case. The line of channels has no layout, and that of a stream no header record.
#[derive(Clone, Copy)]
struct Case {
    width: usize,
    height: usize,
    layout: Option<PixelLayout>,
    rle: bool,
    alpha: bool,
    room: usize,
    answer: Answer,
    header: Option<ExpectedHeader>,
}

// The channels of a case, or its pixels.
#[derive(Clone, Copy)]
enum Source<'a> {
    Channels(Channels<'a>),
    Pixels(PixelLayout, &'a [u8]),
}

// Alpha is there only if it is packed.
#[derive(Clone, Copy)]
struct Channels<'a> {
    r: &'a [u8],
    g: &'a [u8],
    b: &'a [u8],
    a: Option<&'a [u8]>,
}

impl Replay for CaseKind {
    fn replay(&self, line: &[u8]) -> LineResult {
        replay_case(*self, line).unwrap_or(LineResult::Malformed)
    }
}

// Replays the case of a line, or returns None for a malformed line. Each source field has room for ARRAY_SIZE bytes, the destination for MAX_SLICE.
fn replay_case(kind: CaseKind, line: &[u8]) -> Option<LineResult> {
    let (case, line) = next_case(kind, line)?;
    match case.layout {
        None => replay_channels(case, line),
        Some(layout) => replay_pixels(case, layout, line),
    }
}

// Reads the numbers of a case.
fn next_case(kind: CaseKind, line: &[u8]) -> Option<(Case, &[u8])> {
    let ([width, height], line) = read::next_numbers::<2>(line)?;
    let (layout, line) = next_layout(kind.source, line)?;
    let (rle, line) = read::next_flag(line)?;
    let (alpha, line) = read::next_flag(line)?;
    let (room, line) = read::next_number(line)?;
    let (answer, line) = read::next_answer(line)?;
    let (header, line) = next_header(kind.result, line)?;
    let case = Case {
        width,
        height,
        layout,
        rle,
        alpha,
        room,
        answer,
        header,
    };
    Some((case, line))
}

// Reads the layout, which only the line of pixels has.
// Here and in the next function the kind says whether the line has a field: with a closure for each
// kind, the code that reads the common fields would stand twice.
fn next_layout(kind: SourceKind, line: &[u8]) -> Option<(Option<PixelLayout>, &[u8])> {
    match kind {
        SourceKind::Channels => Some((None, line)),
        SourceKind::Pixels => {
            let (layout, line) = read::next_layout(line)?;
            Some((Some(layout), line))
        }
    }
}

// Reads the header record, which only the line of a body has.
fn next_header(kind: ResultKind, line: &[u8]) -> Option<(Option<ExpectedHeader>, &[u8])> {
    match kind {
        ResultKind::Stream => Some((None, line)),
        ResultKind::Body => {
            let (rle, line) = read::next_flag(line)?;
            let (alpha, line) = read::next_flag(line)?;
            let (is_aycocg, line) = read::next_flag(line)?;
            let header = ExpectedHeader {
                rle,
                alpha,
                is_aycocg,
            };
            Some((Some(header), line))
        }
    }
}

// Replays a case of channels. A has bytes only if alpha is packed.
fn replay_channels(case: Case, line: &[u8]) -> Option<LineResult> {
    let mut r = [0; ARRAY_SIZE];
    let mut g = [0; ARRAY_SIZE];
    let mut b = [0; ARRAY_SIZE];
    let mut a = [0; ARRAY_SIZE];
    let (r_count, line) = read::next_bytes(line, &mut r)?;
    let (g_count, line) = read::next_bytes(line, &mut g)?;
    let (b_count, line) = read::next_bytes(line, &mut b)?;
    let (a_count, line) = read::next_bytes(line, &mut a)?;
    if !case.alpha && a_count != 0 {
        return None;
    }
    let channels = Channels {
        r: &r[..r_count],
        g: &g[..g_count],
        b: &b[..b_count],
        a: case.alpha.then_some(&a[..a_count]),
    };
    replay_source(case, Source::Channels(channels), line)
}

// Replays a case of pixels.
fn replay_pixels(case: Case, layout: PixelLayout, line: &[u8]) -> Option<LineResult> {
    let mut pixels = [0; ARRAY_SIZE];
    let (count, line) = read::next_bytes(line, &mut pixels)?;
    replay_source(case, Source::Pixels(layout, &pixels[..count]), line)
}

// Reads the last field of a case, and replays the case.
fn replay_source(case: Case, source: Source, line: &[u8]) -> Option<LineResult> {
    let mut after = [0; MAX_SLICE];
    let (room, line) = read::next_bytes(line, &mut after)?;
    if !line.is_empty() || room != case.room {
        return None;
    }
    Some(run(case, source, &after[..room]))
}

// Makes the call with a destination between guard bytes, as long as `after`, and compares everything that can be observed.
fn run(case: Case, source: Source, after: &[u8]) -> LineResult
    requires { length after.now ≤ 33000 }
{
    let mut array = guarded::new_array();
    let dst = &mut array[GUARD_SIZE..GUARD_SIZE + after.len()];
    guarded::prepare(dst);
    let (got, header_equal) = match case.header {
        None => (pack_stream(case, source, dst).into(), true),
        Some(expected) => body_answer(expected, pack_body(case, source, dst)),
    };
    report::case_result(
        case.answer,
        got,
        header_equal,
        guarded::compare_slice(&array, after),
    )
}

// This function and the next stay two: the calls are of two crates, with two types of result. Case and source stay two parameters: the numbers
// are read before there is room for the bytes.
fn pack_stream(case: Case, source: Source, dst: &mut [u8]) -> Result<usize, Refusal> {
    let Case {
        rle,
        width,
        height,
        ..
    } = case;
    match source {
        Source::Channels(
            Channels {
                r,
                g,
                b,
                a: Some(a),
            },
        ) => { bitmap_stream::encode_channels_stream_alpha(r, g, b, a, dst, rle, width, height) }
        Source::Channels(Channels { r, g, b, a: None }) => {
            bitmap_stream::encode_channels_stream(r, g, b, dst, rle, width, height)
        }
        Source::Pixels(layout, pixels) if case.alpha => {
            bitmap_stream::encode_bitmap_alpha(layout, pixels, dst, rle, width, height)
        }
        Source::Pixels(layout, pixels) => {
            bitmap_stream::encode_bitmap(layout, pixels, dst, rle, width, height)
        }
    }
}

fn pack_body(case: Case, source: Source, dst: &mut [u8]) -> Result<Encoded, Refusal> {
    let Case {
        rle,
        width,
        height,
        ..
    } = case;
    match source {
        Source::Channels(
            Channels {
                r,
                g,
                b,
                a: Some(a),
            },
        ) => { bitmap_encoder::encode_channels_body_alpha(r, g, b, a, dst, rle, width, height) }
        Source::Channels(Channels { r, g, b, a: None }) => {
            bitmap_encoder::encode_channels_body(r, g, b, dst, rle, width, height)
        }
        Source::Pixels(layout, pixels) if case.alpha => {
            bitmap_encoder::encode_bitmap_body_alpha(layout, pixels, dst, rle, width, height)
        }
        Source::Pixels(layout, pixels) => {
            bitmap_encoder::encode_bitmap_body(layout, pixels, dst, rle, width, height)
        }
    }
}

// The answer of a call that packs a body, and whether the header record is the expected one. A refusal returns no header record.
fn body_answer(expected: ExpectedHeader, packed: Result<Encoded, Refusal>) -> (Answer, bool) {
    match packed {
        Ok(Encoded { bytes, header }) => (Answer::Count(bytes), is_header_equal(expected, header)),
        Err(refusal) => (refusal.into(), true),
    }
}

// Not derived: a line has no loss level to compare.
fn is_header_equal(expected: ExpectedHeader, header: BitmapStreamHeader) -> bool {
    let is_argb = matches!(header.color_plane_definition, ColorPlaneDefinition::Argb);
    expected.rle == header.enable_rle_compression
        && expected.alpha == header.use_alpha
        && expected.is_aycocg != is_argb
}
