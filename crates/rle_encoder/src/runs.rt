// Where the runs of a row begin and end. A flag, one byte, says of each coded value whether it and the next three are equal. The search looks
// at eight flags in one word, and skips 32 by the sum of four words. Its loops stay `while`: they go on by 8 and by 32 flags, and from where the
// other stopped.
ghost use Rattle.std.specs.Prelude.{◌≡◌, ℕ, ◌+◌, ◌-◌, ◌<◌, ◌≤◌, length, slice_index};
ghost use Rattle.rle_encoder.specs.RunFlags.{four_equal_of, Flagged, Bits, AllAre, flag_word, OthersWord};

// Eight flags that are all set.
const ALL_SET: u64 = 0x0101010101010101;

// Without branches, so that many flags are made at a time.
// A byte and no bool, since eight are read as one word.
fn four_equal(a: u8, b: u8, c: u8, d: u8) -> u8
    ensures { result ≡ four_equal_of a b c d }
{
    u8::from((a == b) & (a == c) & (a == d))
}

// Makes the flags of a row of `width` values. The eight flags behind them, which a word may reach, are cleared.
// By index: each flag is of four values, and both slices go on behind the row. Flags and width stay two for the same reason.
pub(crate) fn flag_runs(codes: &[u8], width: usize, flags: &mut [u8])
    requires { (width + 3 ≤ length codes.now) × (width + 8 ≤ length flags.old) }
    ensures flags { Flagged codes.now flags.new 0 width }
    ensures bits { Bits flags.new 0 (width + 8) }
{
    for i in 0..width {
        flags[i] = four_equal(codes[i], codes[i + 1], codes[i + 2], codes[i + 3]);
    }
    flags[width..width + 8].fill(0);
}

// Eight flags as one word, the first flag lowest.
// Slice and index stay two: `flag_word` has both.
fn word(flags: &[u8], at: usize) -> u64
    requires { at + 8 ≤ length flags.now }
    ensures { result ≡ flag_word flags.now at }
{
    let eight = *flags[at..at + 8].as_array().unwrap();
    u64::from_le_bytes(eight)
}

// Eight flags as one word, in which those that are not V are set. V is 0 or 1: with a const `bool` no contract would bound it. That was tried:
// proofs see such a `bool` as a number of Rattle's own, and did not close.
fn others<const V: u64>(flags: &[u8], at: usize) -> u64
    requires { (V ≤ 1) × (at + 8 ≤ length flags.now) × Bits flags.now at (at + 8) }
    ensures word { OthersWord V flags.now at result }
    ensures most { result ≤ 0x0101010101010101 }
{
    if V == 0 {
        word(flags, at)
    } else {
        ALL_SET - word(flags, at)
    }
}

// The first index from `from` on, in steps of 32, where not all of the next 32 flags are V, or the row ends before them.
fn skip<const V: u64>(flags: &[u8], from: usize, width: usize) -> usize
    requires { (V ≤ 1) × (from ≤ width + 7) × (width + 8 ≤ length flags.now) × Bits flags.now from (width + 8) }
    ensures { (from ≤ result) × (result ≤ width + 7) × AllAre V flags.now from result }
{
    let mut p = from;
    while p + 32 <= width {
        let sum = others::<V>(flags, p)
            + others::<V>(flags, p + 8)
            + others::<V>(flags, p + 16)
            + others::<V>(flags, p + 24);
        if sum != 0 {
            return p;
        }
        p += 32;
    }
    p
}

// The first index from `from` on whose flag is not V; if all flags of the row are V, an index from the width on.
// By `as`: a word has at most 64 zero bits.
pub(crate) fn next_other<const V: u64>(flags: &[u8], from: usize, width: usize) -> usize
    requires { (V ≤ 1) × (from ≤ width) × (width + 8 ≤ length flags.now) × Bits flags.now from (width + 8) }
    ensures { (from ≤ result) × (result ≤ width + 7) × AllAre V flags.now from result × (result < width → slice_index flags.now result ≡ 1 - V) }
{
    let mut p = from;
    while p < width {
        let w = others::<V>(flags, p);
        if w != 0 {
            return p + (w.trailing_zeros() / 8) as usize;
        }
        p = skip::<V>(flags, p + 8, width);
    }
    p
}
