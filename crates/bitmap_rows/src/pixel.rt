// Pixels written one behind another: the loop of all functions that write a row.
ghost use Rattle.std.specs.Prelude.{◌≡◌, ℕ, List, [], ◌∷◌, ◌++◌, ◌+◌, ◌*◌, ◌<◌, ◌≤◌, length};
ghost use Rattle.rle_format.specs.Slice.{overwrite, write_at};
ghost use Rattle.bitmap_format.specs.Colour.{rgb24};
ghost use Rattle.bitmap_format.specs.Image.{concat_up_to};
ghost use Rattle.bitmap_rows.specs.Inner.{quad_bytes};

use bitmap_format::Rgb;

// What is written at a time.
pub(crate) trait Pixel: Copy {
    ghost SIZE: { ℕ };

    const SIZE: usize;

    ghost bytes: { Self → List ℕ };

    // Writes the bytes to dst from index `at` on.
    // Slice and index stay two parameters: `write_at`, which says what is written and what is kept, has both.
    fn store(self, dst: &mut [u8], at: usize)
        requires { at + SIZE ≤ length dst.old }
        ensures { dst.new ≡ write_at dst.old at (bytes self) };
}

impl Pixel for Rgb {
    ghost SIZE = { 3 };

    const SIZE: usize = 3;

    ghost bytes = { rgb24 };

    fn store(self, dst: &mut [u8], at: usize) {
        dst[at] = self.r;
        dst[at + 1] = self.g;
        dst[at + 2] = self.b;
    }
}

// The two pixels of a pair.
impl Pixel for (Rgb, Rgb) {
    ghost SIZE = { 6 };

    const SIZE: usize = 6;

    ghost bytes = { λ pair. rgb24 pair.0 ++ rgb24 pair.1 };

    fn store(self, dst: &mut [u8], at: usize) {
        let (left, right) = self;
        left.store(dst, at);
        right.store(dst, at + 3);
    }
}

// Two samples.
// A pair of samples is no pair of pixels: one impl for both would make a sample a pixel, with a SIZE computed from that of its half.
impl Pixel for (u8, u8) {
    ghost SIZE = { 2 };

    const SIZE: usize = 2;

    ghost bytes = { λ pair. pair.0 ∷ pair.1 ∷ [] };

    fn store(self, dst: &mut [u8], at: usize) {
        let (left, right) = self;
        dst[at] = left;
        dst[at + 1] = right;
    }
}

// The bytes of a four-byte pixel, in their order. An array of four is passed as one word: measured, the loop over AYCoCg pixels then takes twice as
// long, and with `u32::from_le_bytes` the one over ARGB pixels five times.
#[derive(Clone, Copy)]
pub(crate) struct Quad {
    pub(crate) first: u8,
    pub(crate) second: u8,
    pub(crate) third: u8,
    pub(crate) fourth: u8,
}

impl Pixel for Quad {
    ghost SIZE = { 4 };

    const SIZE: usize = 4;

    ghost bytes = { quad_bytes };

    fn store(self, dst: &mut [u8], at: usize) {
        dst[at] = self.first;
        dst[at + 1] = self.second;
        dst[at + 2] = self.third;
        dst[at + 3] = self.fourth;
    }
}

// Writes n pixels, each found from its index. Here and in the functions that call it dst stays a slice beside the row, with a fact on its length: in
// a struct contracts would name it as `row.old.dst` and `row.new.dst`, which is no plainer.
pub(crate) fn write_each<P: Pixel, F: Fn(usize) -> P>(dst: &mut [u8], n: usize, pixel: F)
    requires callable { (i : ℕ) → i < n → F.pre pixel i }
    requires room { P.SIZE * n ≤ length dst.old }
    ensures { (f : ℕ → List ℕ) → ((i : ℕ) → length (f i) ≡ P.SIZE) → ((i : ℕ) (p : P) → i < n → F.post pixel i p → P.bytes p ≡ f i) → dst.new ≡ overwrite dst.old (concat_up_to n f) }
{
    for i in 0..n {
        pixel(i).store(dst, P::SIZE * i);
    }
}
