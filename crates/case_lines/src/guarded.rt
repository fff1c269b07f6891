// The slices that the functions get. Each lies between guard bytes in a larger array, so that a write outside the slice is found.
ghost use Rattle.std.specs.Prelude.{◌≡◌, ◌&&◌, length, replicate};
ghost use Rattle.case_lines.specs.Results.{Compared, Tests, guard};

// The longest slice of a case. The pixels of the widest row have 32,768 bytes.
pub const MAX_SLICE: usize = 33_000;

// The number of guard bytes before a slice, and the number after it.
pub const GUARD_SIZE: usize = 16;

// The length of an array for the longest slice and its guard bytes.
pub const ARRAY_SIZE: usize = MAX_SLICE + GUARD_SIZE * 2;

// The value of every guard byte, and of every other byte of a new array.
const GUARD_BYTE: u8 = 0xC7;

// The value of every byte of a destination before the call.
const UNWRITTEN_BYTE: u8 = 0xEE;

// A slice after the call, compared with the line: whether its bytes are the expected ones, and whether its guard bytes are
// unchanged.
#[derive(Clone, Copy, Default)]
pub struct Comparison {
    pub bytes_equal: bool,
    pub guards_unchanged: bool,
}

impl Comparison {
    // The comparison of two slices: what holds of both.
    pub fn and(self, other: Comparison) -> Comparison
        ensures { (result.bytes_equal ≡ self.bytes_equal && other.bytes_equal) × (result.guards_unchanged ≡ self.guards_unchanged && other.guards_unchanged) }
    {
        Comparison {
            bytes_equal: self.bytes_equal && other.bytes_equal,
            guards_unchanged: self.guards_unchanged && other.guards_unchanged,
        }
    }
}

// An array for the longest slice and its guard bytes. Its length is stated by itself, since that is what callers need.
pub fn new_array() -> [u8; ARRAY_SIZE]
    ensures value { result ≡ replicate 33032 0xC7 }
    ensures value_2 { 33032 ≡ length result }
{
    [GUARD_BYTE; ARRAY_SIZE]
}

// Fills a destination before the call.
pub fn prepare(destination: &mut [u8])
    ensures { destination.new ≡ replicate (length destination.old) 0xEE }
{
    destination.fill(UNWRITTEN_BYTE);
}

// Compares the slice after the first guard bytes of `array` with the expected bytes, and the guard bytes with their value before
// the call. In an array without room for all of them nothing is as expected.
pub fn compare_slice(array: &[u8], expected: &[u8]) -> Comparison
    ensures { Compared array.now expected.now result }
{
    if array.len() < GUARD_SIZE * 2 || array.len() - GUARD_SIZE * 2 < expected.len() {
        return Comparison::default();
    }
    let (before, rest) = array.split_at(GUARD_SIZE);
    let (slice, rest) = rest.split_at(expected.len());
    let after = &rest[..GUARD_SIZE];
    let bytes_equal = slice == expected;
    let before_unchanged = is_guard_unchanged(before);
    let after_unchanged = is_guard_unchanged(after);
    Comparison {
        bytes_equal,
        guards_unchanged: before_unchanged && after_unchanged,
    }
}

// Whether guard bytes are unchanged.
fn is_guard_unchanged(bytes: &[u8]) -> bool
    ensures { Tests result (bytes.now ≡ guard) }
{
    bytes == [GUARD_BYTE; GUARD_SIZE].as_slice()
}
