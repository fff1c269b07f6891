// Pixels and channels (FORMAT 7.1): the layouts of four-byte pixels, and the samples of a channel, from a slice of its own or out of pixels.
#![tactic(auto)]

mod channels;
mod column;
mod samples;

pub use channels::{ABgrChannels, ARgbChannels, BgrAChannels, PixelChannels, RgbAChannels};
pub use samples::Samples;

// The layouts of four-byte pixels, by the order of their bytes.
#[derive(Clone, Copy)]
pub enum PixelLayout {
    BgrA,
    RgbA,
    ARgb,
    ABgr,
}

// The pixels of an image that is unpacked: R, G and B, or four bytes in a layout.
// No Option of a layout: a reader sees at each place which of the two kinds of pixels is meant.
#[derive(Clone, Copy)]
pub enum PixelFormat {
    Rgb24,
    FourBytes(PixelLayout),
}

#[derive(Clone, Copy)]
pub enum Channel {
    R,
    G,
    B,
    A,
}

// Planar: every byte of the slice is a sample of the channel. Pixels: one byte of every pixel is.
// Likewise no Option.
#[derive(Clone, Copy)]
pub enum Layout {
    Planar,
    Pixels(PixelLayout),
}
