// One byte of every pixel of a slice.
ghost use Rattle.std.specs.Prelude.{◌≡◌, ℕ, ◌+◌, ◌*◌, ◌/◌, ◌%◌, ◌^◌, ◌≤◌, ◌<◌, length, take, drop, slice_index};
ghost use Rattle.pixel_format.specs.declared.Layout.TheVariants.{Pixels};
ghost use Rattle.pixel_format.specs.Channel.{channel_offsets, offset_of, samples_of};

use crate::{
    ABgrChannels, ARgbChannels, BgrAChannels, Channel, PixelChannels, PixelLayout, RgbAChannels,
};

// The offset of a channel in a pixel.
fn offset_of(layout: PixelLayout, channel: Channel) -> usize
    ensures offset { result ≡ offset_of (channel_offsets layout) channel }
    ensures within { result < 4 }
{
    match layout {
        PixelLayout::BgrA => BgrAChannels::offset(channel),
        PixelLayout::RgbA => RgbAChannels::offset(channel),
        PixelLayout::ARgb => ARgbChannels::offset(channel),
        PixelLayout::ABgr => ABgrChannels::offset(channel),
    }
}

// The bytes at one offset of the complete pixels of a slice.
#[derive(Clone, Copy)]
pub(crate) struct Column<'a> {
    pub(crate) pixels: &'a [u8],
    pub(crate) offset: usize,
    pub(crate) ghost within: { offset < 4 },
}

impl Column<'_> {
    ghost use Rattle.pixel_format.specs.Column.{samples_at, IsCopied};

    // The samples of a channel.
    pub(crate) fn new(pixels: &[u8], layout: PixelLayout, channel: Channel) -> Column<'_>
        ensures { samples_at result ≡ samples_of (Pixels layout) channel pixels.now }
    {
        Column {
            pixels,
            offset: offset_of(layout, channel),
        }
    }

    // The four bytes from index `at` on as one word, the first of them lowest.
    fn word(self, at: usize) -> u32
        requires { at + 4 ≤ length self.pixels.now }
        ensures { result / 2 ^ (8 * self.entry.offset) % 256 ≡ slice_index self.entry.pixels.now (at + self.entry.offset) }
    {
        let bytes = self.pixels;
        u32::from_le_bytes([bytes[at], bytes[at + 1], bytes[at + 2], bytes[at + 3]])
    }

    // The sample in the word of a pixel. `to_le_bytes()[offset]` reads it from memory, which takes five times as long.
    // By `as`: the offset is under 4, the remainder under 256, and TryFrom would test both again.
    fn sample_of(self, word: u32) -> u8
        ensures { result ≡ word / 2 ^ (8 * self.entry.offset) % 256 }
    {
        ((word >> (8 * self.offset as u32)) % 256) as u8
    }

    // Copies the samples of N pixels, from pixel `from` on. They are read as words into an array, which the compiler turns into vector instructions.
    // Single bytes 4 apart it reads one by one. The second loop is not zipped with the words: that was tried, and of what a zipped
    // `iter_mut` has written a proof knows only the length.
    fn copy_block<const N: usize>(self, from: usize, dst: &mut [u8])
        requires { (from + N ≤ length self.pixels.now / 4) × (length dst.old ≡ N) }
        ensures { IsCopied (samples_at self.entry) from dst.new N }
    {
        let mut words = [0u32; N];
        for (i, word) in words.iter_mut().enumerate() {
            *word = self.word((from + i) * BgrAChannels::STRIDE);
        }
        for (k, sample) in dst.iter_mut().enumerate() {
            *sample = self.sample_of(words[k]);
        }
    }

    // The same for as many blocks of N pixels as dst has room for. Returns the number of samples.
    // No `chunks_exact_mut`: the pixels need the index of each block as well, so it would be counted all the same.
    fn copy_blocks<const N: usize>(self, from: usize, dst: &mut [u8]) -> usize
        requires { (0 < N) × (from + length dst.old ≤ length self.pixels.now / 4) }
        ensures within { (result ≤ length dst.old) × (length dst.old < result + N) }
        ensures copied { IsCopied (samples_at self.entry) from dst.new result }
    {
        let blocks = dst.len() / N;
        for block in 0..blocks {
            let i = block * N;
            self.copy_block::<N>(from + i, &mut dst[i..i + N]);
        }
        blocks * N
    }

    // Fills dst with the samples from pixel `from` on.
    pub(crate) fn copy(self, from: usize, dst: &mut [u8])
        requires { from + length dst.old ≤ length self.pixels.now / 4 }
        ensures { dst.new ≡ take (length dst.old) (drop from (samples_at self.entry)) }
    {
        let i = self.copy_blocks::<16>(from, dst);
        let j = i + self.copy_blocks::<4>(from + i, &mut dst[i..]);
        self.copy_blocks::<1>(from + j, &mut dst[j..]);
    }
}
