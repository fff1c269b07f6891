// Replays one case of packing or unpacking a plane. The case is one line:
//     WIDTH HEIGHT ROOM ANSWER SOURCE AFTER
// SOURCE is the body that is unpacked or the samples that are packed. ROOM is the length of the destination. ANSWER is the number
// of bytes read or written, or the negative of a refusal's number. AFTER has all bytes of the destination after the call. In
// SOURCE and AFTER a byte is two hexadecimal digits in upper case. `1F*3` is the byte 1F three times; if another byte follows, a
// comma is between them. A hyphen is no bytes.
//
// A round trip (FORMAT 9) has one more number:
//     WIDTH HEIGHT END ROOM ANSWER SAMPLES AFTER
// The samples are packed into a slice of 20,000 bytes C7, and the first END bytes of that slice are unpacked. ANSWER is the answer
// of unpacking; or, if packing is refused, the negative of that refusal's number; or -0 if END is over 20,000.
ghost use Rattle.std.specs.Prelude.{◌≤◌, length};

use case_lines::file::Replay;
use case_lines::guarded::{GUARD_SIZE, MAX_SLICE};
use case_lines::report::{Answer, LineResult};
use case_lines::{guarded, read, report};
use rle_round_trip::RoundTripError;

// What a case calls. It is the same for all cases of a file.
#[derive(Clone, Copy)]
pub(crate) enum Operation {
    Unpack,
    Pack,
    RoundTrip,
}

// The call of a case. Only a round trip has an `end`.
#[derive(Clone, Copy)]
enum Call {
    Unpack,
    Pack,
    RoundTrip { end: usize },
}

// The slice that a round trip packs into: its length, and the value of every byte before the call.
const PACKED_SIZE: usize = 20_000;

const PACKED_BYTE: u8 = 0xC7;

// The numbers of a case.
#[derive(Clone, Copy)]
struct Case {
    width: usize,
    height: usize,
    call: Call,
    room: usize,
    answer: Answer,
}

impl Replay for Operation {
    fn replay(&self, line: &[u8]) -> LineResult {
        replay_case(*self, line).unwrap_or(LineResult::Malformed)
    }
}

// Replays the case of a line, or returns None for a malformed line.
fn replay_case(operation: Operation, line: &[u8]) -> Option<LineResult> {
    let (case, line) = next_case(operation, line)?;
    replay_fields(case, line)
}

// Reads the remaining fields of a case, and replays it. The arrays stand before every test, and the function is not inlined: the compiler fills an
// array that stands behind a test twice, and those of an inlined function for malformed lines too.
#[inline(never)]
fn replay_fields(case: Case, line: &[u8]) -> Option<LineResult> {
    let mut source = [0; MAX_SLICE];
    let mut after = [0; MAX_SLICE];
    let (count, line) = read::next_bytes(line, &mut source)?;
    let (room, line) = read::next_bytes(line, &mut after)?;
    if !line.is_empty() || room != case.room {
        return None;
    }
    Some(run(case, &source[..count], &after[..room]))
}

// Reads the numbers of a case.
// The operation is asked only here, for the fields of a line; from then on the `Call` says it.
fn next_case(operation: Operation, line: &[u8]) -> Option<(Case, &[u8])> {
    let ([width, height], line) = read::next_numbers::<2>(line)?;
    let (call, line) = match operation {
        Operation::Unpack => (Call::Unpack, line),
        Operation::Pack => (Call::Pack, line),
        Operation::RoundTrip => {
            let (end, line) = read::next_number(line)?;
            (Call::RoundTrip { end }, line)
        }
    };
    let (room, line) = read::next_number(line)?;
    let (answer, line) = read::next_answer(line)?;
    let case = Case {
        width,
        height,
        call,
        room,
        answer,
    };
    Some((case, line))
}

// Makes the call with a destination between guard bytes, as long as `after`, and compares everything that can be observed.
fn run(case: Case, source: &[u8], after: &[u8]) -> LineResult
    requires { length after.now ≤ 33000 }
{
    let mut array = guarded::new_array();
    let dst = &mut array[GUARD_SIZE..GUARD_SIZE + after.len()];
    guarded::prepare(dst);
    let got = make_call(case, source, dst);
    report::case_result(
        case.answer,
        got,
        true,
        guarded::compare_slice(&array, after),
    )
}

// Makes the call of a case.
fn make_call(case: Case, source: &[u8], dst: &mut [u8]) -> Answer {
    let Case { width, height, .. } = case;
    match case.call {
        Call::Unpack => rle_decoder::decompress_8bpp_plane(source, dst, width, height).into(),
        Call::Pack => rle_encoder::compress_8bpp_plane(source, dst, width, height).into(),
        Call::RoundTrip { end } => round_trip(source, end, dst, width, height),
    }
}

// Packs the samples, and unpacks the first `end` bytes of the slice that they were packed into.
fn round_trip(samples: &[u8], end: usize, dst: &mut [u8], width: usize, height: usize) -> Answer {
    let mut packed = [PACKED_BYTE; PACKED_SIZE];
    match rle_round_trip::round_trip(samples, &mut packed, end, dst, width, height) {
        Ok(count) => Answer::Count(count),
        Err(RoundTripError::NotPacked(refusal) | RoundTripError::NotUnpacked(refusal)) => {
            refusal.into()
        }
        Err(RoundTripError::TooLong) => Answer::Refused(0),
    }
}
