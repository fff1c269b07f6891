// The result of replaying a case, and how the results of a file are counted and printed.
ghost use Rattle.std.specs.Prelude.{◌≡◌};
ghost use Rattle.rle_format.specs.Answer.{number};
ghost use Rattle.case_lines.specs.declared.report.Answer.TheVariants as answer;
ghost use Rattle.case_lines.specs.Results.{case_result_of, answer_of};

use crate::guarded::Comparison;
use rle_format::Refusal;
use std::{fmt, io};

// The answer of a call: a number of bytes, or the number of a refusal. It is no Result of a Refusal, since data files have a -0 too, and it is printed so.
#[derive(Clone, Copy, PartialEq, Eq)]
pub enum Answer {
    Count(usize),
    Refused(usize),
}

// As a data file has it.
impl fmt::Display for Answer {
    fn fmt<W: fmt::Write>(&self, f: &mut fmt::Formatter<W>) -> fmt::Result {
        match self {
            Answer::Count(number) => write!(f, "{number}"),
            Answer::Refused(number) => write!(f, "-{number}"),
        }
    }
}

// The answer of a call that was refused.
impl From<Refusal> for Answer {
    ghost from_gives = { λ refusal a. a ≡ answer.Refused (number refusal) };

    fn from(refusal: Refusal) -> Answer {
        Answer::Refused(usize::from(u8::from(refusal)))
    }
}

// The answer of a call that returns a number of bytes or is refused.
impl From<Result<usize, Refusal>> for Answer {
    ghost from_gives = { λ r a. a ≡ answer_of r };

    fn from(returned: Result<usize, Refusal>) -> Answer {
        match returned {
            Ok(count) => Answer::Count(count),
            Err(refusal) => Answer::from(refusal),
        }
    }
}

// What was observed of a case that did not give the stored result: the two answers; whether the returned header record, if there is one, is the
// expected one; the slices that could be written, compared.
// header_equal is no Option: without a header record nothing can differ, which is what true says.
#[derive(Clone, Copy)]
pub struct Difference {
    pub expected: Answer,
    pub got: Answer,
    pub header_equal: bool,
    pub slices: Comparison,
}

impl fmt::Display for Difference {
    fn fmt<W: fmt::Write>(&self, f: &mut fmt::Formatter<W>) -> fmt::Result {
        let expected = self.expected;
        let got = self.got;
        write!(f, "expected {expected}, got {got}")?;
        if !self.header_equal {
            write!(f, "; the header record differs")?;
        }
        if !self.slices.bytes_equal {
            write!(f, "; the destination differs")?;
        }
        if !self.slices.guards_unchanged {
            write!(f, "; bytes around the destination were changed")?;
        }
        Ok(())
    }
}

// The result of replaying a line.
// No Result: two kinds are failures, and each is counted and printed in its own way.
#[derive(Clone, Copy)]
pub enum LineResult {
    Equal,
    Different(Difference),
    Malformed,
}

// The result of a case whose call was made.
pub fn case_result(
    expected: Answer,
    got: Answer,
    header_equal: bool,
    slices: Comparison,
) -> LineResult
    ensures { result ≡ case_result_of expected got header_equal slices.bytes_equal slices.guards_unchanged }
{
    if expected == got && header_equal && slices.bytes_equal && slices.guards_unchanged {
        return LineResult::Equal;
    }
    LineResult::Different(Difference {
        expected,
        got,
        header_equal,
        slices,
    })
}

// At most this many lines of a file that are different or malformed are printed one by one. The others are only counted.
const MAX_REPORTED_LINES: usize = 10;

// How many lines had each result. Comments are not counted. A count stops at the largest number: no file has so many lines, and the functions
// that count need no precondition.
#[derive(Clone, Copy, Default)]
struct Tally {
    equal: usize,
    different: usize,
    malformed: usize,
}

impl Tally {
    fn count(&mut self, res: LineResult) {
        let count = match res {
            LineResult::Equal => &mut self.equal,
            LineResult::Different(_) => &mut self.different,
            LineResult::Malformed => &mut self.malformed,
        };
        *count = count.saturating_add(1);
    }

    // How many lines did not give the stored result.
    fn failures(self) -> usize {
        self.different.saturating_add(self.malformed)
    }
}

// The report of a file, which ends with the tally, or with why the file could not be replayed. Output that cannot be written is lost, and what was
// to be replayed is replayed all the same.
pub(crate) struct Report<'a, P> {
    rt: &'a P,
    path: &'a [u8],
    tally: Tally,
}

impl<'a, P: Print> Report<'a, P> {
    pub(crate) fn new(rt: &'a P, path: &'a [u8]) -> Report<'a, P> {
        Report {
            rt,
            path,
            tally: Tally::default(),
        }
    }

    // Counts the result of line `line`, and prints what is wrong with it, unless that was printed for enough lines.
    pub(crate) fn add(&mut self, line: usize, res: LineResult) {
        if self.tally.failures() < MAX_REPORTED_LINES {
            let _ = self.print_result(line, res);
        }
        self.tally.count(res);
    }

    // Prints what is wrong with a line. For a case that gave the stored result it prints nothing.
    fn print_result(&self, line: usize, res: LineResult) -> io::Result<()> {
        match res {
            LineResult::Equal => Ok(()),
            LineResult::Malformed => {
                print_line(self.rt, self.path, format_args!(", line {line}: bad line"))
            }
            LineResult::Different(difference) => {
                print_line(
                    self.rt,
                    self.path,
                    format_args!(", line {line}: {difference}"),
                )
            }
        }
    }

    // Prints why the file could not be replayed.
    pub(crate) fn fail(self, why: &str) {
        let Report { rt, path, tally: _ } = self;
        let _ = print_line(rt, path, format_args!(": {why}"));
    }

    // Prints the tally.
    pub(crate) fn finish(self) {
        let Report { rt, path, tally } = self;
        let Tally {
            equal,
            different,
            malformed,
        } = tally;
        let cases = equal.saturating_add(different);
        let _ = print_line(
            rt,
            path,
            format_args!(
                ": {cases} cases, {equal} equal, {different} different, {malformed} bad lines"
            ),
        );
    }
}

// Prints a line that begins with the path.
fn print_line(rt: &impl Print, path: &[u8], text: impl fmt::Display + Drop) -> io::Result<()> {
    rt.write_all(path)?;
    rt.println(text)
}
