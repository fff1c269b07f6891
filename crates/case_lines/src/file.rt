// A data file: loaded completely, its cases replayed one after the other, and its tally printed after the last one.
ghost use Rattle.std.specs.Prelude.{◌≡◌, ◌+◌, ◌≤◌, ◌<◌, ◌∷◌, ◌++◌, eqb, length, position, IfOk, IfSome, option_map};
ghost use Rattle.case_lines.specs.Cases.{lines_of, case_after};
ghost use Rattle.case_lines.specs.Counts.{IsRest};

use crate::report::{LineResult, Report};
use std::fs;
use std::io::Read;
use std::rt::Files;

// The largest file: 1 MiB.
const MAX_FILE_SIZE: usize = 1_048_576;

// The length of the buffer for a file. It has one byte more than the largest file, which only a larger file fills.
const BUFFER_SIZE: usize = MAX_FILE_SIZE + 1;

// A kind of cases, and how one of them is replayed. All cases of a file are of one kind. A closure in its place would need a `requires` that it may
// be called, and no public function has one.
pub trait Replay {
    fn replay(&self, line: &[u8]) -> LineResult;
}

// Replays the cases of the file at `path`, prints those that did not give the stored result, and the tally, and returns how many bytes the file has.
// If the file cannot be loaded, it prints why, and returns None.
pub fn replay_file<R: Files + Print>(rt: &R, path: &[u8], kind: &impl Replay) -> Option<usize>
    ensures { IfSome result (λ size. size ≤ 1048576) }
{
    let report = Report::new(rt, path);
    let mut buffer = [0u8; BUFFER_SIZE];
    match load(rt, path, &mut buffer) {
        Ok(length) => {
            replay_text(&buffer[..length], kind, report);
            Some(length)
        }
        Err(why) => {
            report.fail(why);
            None
        }
    }
}

// Loads the file at `path` into the first bytes of the buffer, and returns how many they are, or why it cannot be loaded.
fn load(rt: &impl Files, path: &[u8], buffer: &mut [u8; BUFFER_SIZE]) -> Result<usize, &'static str>
    ensures { IfOk result (λ size. size ≤ 1048576) }
{
    let mut file = open(rt, path).ok_or("cannot be opened")?;
    let size = read_full(&mut file, buffer);
    if MAX_FILE_SIZE < size {
        return Err("is larger than 1 MiB");
    }
    Ok(size)
}

// The file at `path`, if it can be opened. A path is bytes, as its callers may have it: std takes paths as text, so bytes that are no text are no path
// of a file.
fn open<R: Files>(rt: &R, path: &[u8]) -> Option<R::File> {
    let text = str::from_utf8(path).ok()?;
    fs::open(rt, text).ok()
}

// Reads into the first bytes of the buffer until it is full, the file ends or a read fails, and returns how many bytes were read. Each read says how
// many it read, so no `for` counts them, and std's `read_to_end` needs a Vec.
fn read_full(file: &mut impl Read, buffer: &mut [u8]) -> usize
    ensures { result ≤ length buffer.new }
{
    let mut size = 0;
    while size < buffer.len() {
        match file.read(&mut buffer[size..]) {
            Ok(0) | Err(_) => break,
            Ok(count) => size += count,
        }
    }
    size
}

// The next case of what is left of a text: how many comments come before it, its line with the newline, which the last line of a text may lack, and
// what is left of the text behind it.
#[derive(Clone, Copy)]
pub struct NextCase<'a> {
    pub comments: usize,
    pub line: &'a [u8],
    pub rest: &'a [u8],
}

// The first line that is no comment, or None if there is none. What is left begins where the line ends, so no case is replayed twice. A `for` over
// std's `split_inclusive` would not know what is left behind a line.
pub fn next_case(text: &[u8]) -> Option<NextCase<'_>>
    ensures meaning { option_map (λ c. (c.comments, (c.line.now, lines_of c.rest.now))) result ≡ case_after 0 (lines_of text.now) }
    ensures parts { IfSome result (λ c. IsRest text.now (c.line.now ++ c.rest.now) × (0 < length c.line.now)) }
    ensures bound { IfSome result (λ c. c.comments + length c.line.now + length c.rest.now ≤ length text.now) }
{
    let mut comments = 0;
    let mut rest = text;
    while !rest.is_empty() {
        let (line, after) = split_line(rest);
        if !line.starts_with(b"#") {
            return Some(NextCase {
                comments,
                line,
                rest: after,
            });
        }
        comments += 1;
        rest = after;
    }
    None
}

// The first line of a text, with its newline, and what is left of the text behind it.
fn split_line(text: &[u8]) -> (&[u8], &[u8])
    requires { 0 < length text.now }
    ensures lines { lines_of text.now ≡ result.0.now ∷ lines_of result.1.now }
    ensures parts { (text.now ≡ result.0.now ++ result.1.now) × (0 < length result.0.now) }
{
    match newline(text) {
        Some(end) => text.split_at(end + 1),
        None => (text, [].as_slice()),
    }
}

// The index of the newline that ends the first line of a text, if it has one.
fn newline(text: &[u8]) -> Option<usize>
    ensures value { result ≡ position (λ byte. eqb byte 10) text.now }
    ensures bound { IfSome result (λ end. end < length text.now) }
{
    text.iter().position(|byte| *byte == b'\n')
}

// Replays the cases of a text. The number of a line counts the comments before it too. Each case says what is left behind it, so no `for` goes over
// them.
fn replay_text<P: Print>(text: &[u8], kind: &impl Replay, mut report: Report<'_, P>) {
    let mut number = 0;
    let mut rest = text;
    while let Some(case) = next_case(rest) {
        number += case.comments + 1;
        report.add(number, kind.replay(case.line));
        rest = case.rest;
    }
    report.finish();
}
