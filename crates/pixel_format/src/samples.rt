// The samples of a channel in a slice.
ghost use Rattle.std.specs.Prelude.{◌≡◌, length, take, drop};
ghost use Rattle.rle_format.specs.Slice.{overwrite};
ghost use Rattle.pixel_format.specs.Channel.{samples_of};
ghost use Rattle.pixel_format.specs.Samples.{samples_in};

use crate::column::Column;
use crate::{BgrAChannels, Channel, Layout, PixelChannels};

// A channel, and the slice that its samples are in.
#[derive(Clone, Copy)]
pub struct Samples<'a> {
    pub src: &'a [u8],
    pub layout: Layout,
    pub channel: Channel,
}

impl Samples<'_> {
    // How many there are; of pixels, those that are complete. The other channels of the slice have as many.
    pub fn count(self) -> usize
        ensures own { result ≡ length (samples_in self.entry) }
        ensures each { (c : Channel) → result ≡ length (samples_of self.entry.layout c self.entry.src.now) }
    {
        match self.layout {
            Layout::Planar => self.src.len(),
            Layout::Pixels(_) => self.src.len() / BgrAChannels::STRIDE,
        }
    }

    // Copies them, from sample `from` on, into dst, until dst is full or there are no more.
    pub fn read(self, from: usize, dst: &mut [u8])
        ensures { dst.new ≡ overwrite dst.old (take (length dst.old) (drop from (samples_in self.entry))) }
    {
        let count = self.count();
        if count <= from {
            return;
        }
        let n = (count - from).min(dst.len());
        let part = &mut dst[..n];
        match self.layout {
            Layout::Planar => part.copy_from_slice(&self.src[from..from + n]),
            Layout::Pixels(pixels) => Column::new(self.src, pixels, self.channel).copy(from, part),
        }
    }
}
