// Reads the fields of one line of a data file. The line is given with its newline. Each field ends with a space or with that newline. A
// function that reads a field is given what is left of the line. It returns the field's value and what is left after the byte that ends the
// field, or None for a malformed field. A field that no byte ends is malformed.
ghost use Rattle.std.specs.Prelude.{◌≡◌, ◌+◌, ◌≤◌, ◌<◌, [], length, drop, IfSome, option_map, position};
ghost use Rattle.case_lines.specs.Counts.{count_of, next_of_number, next_of_answer, next_of_bytes, IsRest};
ghost use Rattle.case_lines.specs.Fields.{to_read, ends_field, field_at, with_digit_of, decimal_in, answer_in, number_at, numbers_from, as_meant};
ghost use Rattle.case_lines.specs.Layouts.{layout_of, flag_of};

use crate::report::Answer;
use pixel_format::PixelLayout;

// One entry of a field of bytes: a byte, and how often it is repeated.
#[derive(Clone, Copy)]
struct Entry {
    byte: u8,
    times: usize,
}

// Reads a decimal number. `next_answer` is alike, and stays another: each has a clause by a definition of its own.
pub fn next_number(line: &[u8]) -> Option<(usize, &[u8])>
    ensures meaning { to_read result ≡ number_at line.now }
    ensures rest { IfSome result (λ p. p.1.now ≡ drop (next_of_number line.now result) line.now) }
{
    let (field, rest) = next_field(line)?;
    Some((decimal_of(field)?, rest))
}

// Reads as many numbers as the array has elements.
pub fn next_numbers<const N: usize>(line: &[u8]) -> Option<([usize; N], &[u8])>
    ensures meaning { to_read result ≡ numbers_from [] N line.now }
    ensures rest { IfSome result (λ p. IsRest line.now p.1.now) }
{
    let mut numbers = [0; N];
    let mut rest = line;
    for number in &mut numbers {
        (*number, rest) = next_number(rest)?;
    }
    Some((numbers, rest))
}

// Reads a flag, 0 or 1.
// This reader and the next stay two: one that takes the conversion as a closure would ask in a `requires` that it may be called.
pub fn next_flag(line: &[u8]) -> Option<(bool, &[u8])>
    ensures meaning { to_read result ≡ as_meant flag_of (number_at line.now) }
    ensures rest { IfSome result (λ p. IsRest line.now p.1.now) }
{
    let (number, rest) = next_number(line)?;
    Some((flag_of(number)?, rest))
}

// Reads the number of a layout.
pub fn next_layout(line: &[u8]) -> Option<(PixelLayout, &[u8])>
    ensures meaning { to_read result ≡ as_meant layout_of (number_at line.now) }
    ensures rest { IfSome result (λ p. IsRest line.now p.1.now) }
{
    let (number, rest) = next_number(line)?;
    Some((layout_of(number)?, rest))
}

// Reads an answer: a decimal number, with a minus sign if it is that of a refusal.
pub fn next_answer(line: &[u8]) -> Option<(Answer, &[u8])>
    ensures meaning { to_read result ≡ as_meant answer_in (field_at line.now) }
    ensures rest { IfSome result (λ p. p.1.now ≡ drop (next_of_answer line.now result) line.now) }
{
    let (signed, rest) = next_field(line)?;
    Some((answer_of_field(signed)?, rest))
}

// Reads a field of bytes into the first bytes of `into`, and returns how many they are.
// A count, and not that part of `into`, which would stay lent as long as the part is used.
pub fn next_bytes<'a>(line: &'a [u8], into: &mut [u8]) -> Option<(usize, &'a [u8])>
    ensures result_in_bounds { count_of result ≤ length into.old }
    ensures rest { IfSome result (λ p. p.1.now ≡ drop (next_of_bytes line.now result) line.now) }
{
    let (field, rest) = next_field(line)?;
    Some((expand(field, into)?, rest))
}

// The flag that a line has as a number.
// No TryFrom: neither type is of this crate.
pub fn flag_of(flag: usize) -> Option<bool>
    ensures { result ≡ flag_of flag }
{
    match flag {
        0 => Some(false),
        1 => Some(true),
        _ => None,
    }
}

// The layout (FORMAT 7.1) that a line has as a number. It is no TryFrom: the types are of other crates, and pixel_format
// has no numbers for layouts; rdp6 has those of C by itself.
#[tactic(auto, unfolding(crate::specs::Layouts::layout_of))]
pub fn layout_of(number: usize) -> Option<PixelLayout>
    ensures { result ≡ layout_of number }
{
    match number {
        0 => Some(PixelLayout::BgrA),
        1 => Some(PixelLayout::RgbA),
        2 => Some(PixelLayout::ARgb),
        3 => Some(PixelLayout::ABgr),
        _ => None,
    }
}

// The field at the start of what is left of a line, and what is left after it.
fn next_field(line: &[u8]) -> Option<(&[u8], &[u8])>
    ensures meaning { option_map (λ p. (p.0.now, p.1.now)) result ≡ field_at line.now }
    ensures parts { IfSome result (λ p. (length p.0.now + 1 + length p.1.now ≡ length line.now) × IsRest line.now p.1.now) }
{
    let end = field_end(line)?;
    Some((&line[..end], &line[end + 1..]))
}

// The index of the space or newline that ends a field.
fn field_end(line: &[u8]) -> Option<usize>
    ensures value { result ≡ position ends_field line.now }
    ensures bound { IfSome result (λ end. end < length line.now) }
{
    line.iter().position(|byte| *byte == b' ' || *byte == b'\n')
}

// The answer that a field is.
fn answer_of_field(field: &[u8]) -> Option<Answer>
    ensures { result ≡ answer_in field.now }
{
    match field.strip_prefix(b"-".as_slice()) {
        Some(digits) => Some(Answer::Refused(decimal_of(digits)?)),
        None => Some(Answer::Count(decimal_of(field)?)),
    }
}

// The value of a field that consists of decimal digits. A value that does not fit into a usize is malformed.
// No `parse`, which takes a plus sign too.
fn decimal_of(field: &[u8]) -> Option<usize>
    ensures { result ≡ decimal_in field.now }
{
    if field.is_empty() {
        return None;
    }
    let mut value = 0;
    for byte in field {
        value = with_digit(value, *byte)?;
    }
    Some(value)
}

// A number with one more decimal digit.
fn with_digit(number: usize, digit: u8) -> Option<usize>
    ensures { result ≡ with_digit_of number digit }
{
    match digit {
        b'0'..=b'9' => number
            .checked_mul(10)?
            .checked_add(usize::from(digit - b'0')),
        _ => None,
    }
}

// The value of a hexadecimal digit, in upper case.
fn digit(byte: u8) -> Option<u8>
    ensures { IfSome result (λ unit. unit < 16) }
{
    match byte {
        b'0'..=b'9' => Some(byte - b'0'),
        b'A'..=b'F' => Some(byte - b'A' + 10),
        _ => None,
    }
}

// Writes the bytes of a field to the first bytes of `into`, and returns how many they are. A field that is a hyphen has no bytes. One that does
// not fit is malformed.
fn expand(field: &[u8], into: &mut [u8]) -> Option<usize>
    ensures { IfSome result (λ count. count ≤ length into.old) }
{
    match field {
        [] => None,
        b"-" => Some(0),
        _ => expand_entries(field, into),
    }
}

// The same for a field that consists of entries. Entries have one to many bytes each, so no `for` counts the bytes written.
fn expand_entries(field: &[u8], into: &mut [u8]) -> Option<usize>
    ensures { IfSome result (λ count. count ≤ length into.old) }
{
    let mut count: usize = 0;
    let mut rest = field;
    while !rest.is_empty() {
        let (entry, after) = next_entry(rest)?;
        let end = count.checked_add(entry.times)?;
        into.get_mut(count..end)?.fill(entry.byte);
        count = end;
        rest = after;
    }
    Some(count)
}

// The entry at the start of a field: two hexadecimal digits, and a star and a number if the byte is repeated.
fn next_entry(field: &[u8]) -> Option<(Entry, &[u8])>
    ensures { IfSome result (λ p. length p.1.now < length field.now) }
{
    let [high, low, rest @ ..] = field else {
        return None;
    };
    let byte = digit(*high)? * 16 + digit(*low)?;
    match rest.strip_prefix(b"*".as_slice()) {
        None => Some((Entry { byte, times: 1 }, rest)),
        Some(number) => {
            let (times, rest) = next_times(number)?;
            Some((Entry { byte, times }, rest))
        }
    }
}

// The number of a repeated byte, at least 2. A comma ends it, and another entry must follow the comma.
fn next_times(field: &[u8]) -> Option<(usize, &[u8])>
    ensures { IfSome result (λ p. length p.1.now ≤ length field.now) }
{
    let (number, rest) = match field.iter().position(|byte| *byte == b',') {
        None => (field, [].as_slice()),
        Some(end) => (&field[..end], &field[end + 1..]),
    };
    if rest.is_empty() && number.len() < field.len() {
        return None;
    }
    let times = decimal_of(number)?;
    if times < 2 {
        return None;
    }
    Some((times, rest))
}
