// The layouts of four-byte pixels as types. Their names are IronRDP's.
ghost use Rattle.std.specs.Prelude.{◌≡◌, ℕ, refl};
ghost use Rattle.pixel_format.specs.Channel.{offset_of, bgr_a, rgb_a, a_rgb, a_bgr};
ghost use Rattle.pixel_format.specs.Layouts.{IsRearrangement, by_offsets};

use crate::Channel;

// The bytes of a pixel, and the offset of each channel in it.
pub trait PixelChannels {
    const STRIDE: usize;

    const R: usize;

    const G: usize;

    const B: usize;

    const A: usize;

    ghost STRIDE: { ℕ };

    ghost R: { ℕ };

    ghost G: { ℕ };

    ghost B: { ℕ };

    ghost A: { ℕ };

    // The offset of a channel.
    fn offset(channel: Channel) -> usize
        ensures { result ≡ offset_of (record { stride = STRIDE; r = R; g = G; b = B; a = A }) channel }
    {
        match channel {
            Channel::R => Self::R,
            Channel::G => Self::G,
            Channel::B => Self::B,
            Channel::A => Self::A,
        }
    }

    // Each of the offsets 0 to 3 is that of exactly one channel.
    ghost is_rearrangement: { IsRearrangement (record { stride = STRIDE; r = R; g = G; b = B; a = A }) };
}

// Pixels of B, G, R, A.
#[derive(Clone, Copy)]
pub struct BgrAChannels {}

impl PixelChannels for BgrAChannels {
    const STRIDE: usize = 4;

    const R: usize = 2;

    const G: usize = 1;

    const B: usize = 0;

    const A: usize = 3;

    ghost STRIDE = { 4 };

    ghost R = { 2 };

    ghost G = { 1 };

    ghost B = { 0 };

    ghost A = { 3 };

    ghost is_rearrangement = { by_offsets bgr_a refl refl refl refl refl };
}

// Pixels of R, G, B, A.
#[derive(Clone, Copy)]
pub struct RgbAChannels {}

impl PixelChannels for RgbAChannels {
    const STRIDE: usize = 4;

    const R: usize = 0;

    const G: usize = 1;

    const B: usize = 2;

    const A: usize = 3;

    ghost STRIDE = { 4 };

    ghost R = { 0 };

    ghost G = { 1 };

    ghost B = { 2 };

    ghost A = { 3 };

    ghost is_rearrangement = { by_offsets rgb_a refl refl refl refl refl };
}

// Pixels of A, R, G, B.
#[derive(Clone, Copy)]
pub struct ARgbChannels {}

impl PixelChannels for ARgbChannels {
    const STRIDE: usize = 4;

    const R: usize = 1;

    const G: usize = 2;

    const B: usize = 3;

    const A: usize = 0;

    ghost STRIDE = { 4 };

    ghost R = { 1 };

    ghost G = { 2 };

    ghost B = { 3 };

    ghost A = { 0 };

    ghost is_rearrangement = { by_offsets a_rgb refl refl refl refl refl };
}

// Pixels of A, B, G, R.
#[derive(Clone, Copy)]
pub struct ABgrChannels {}

impl PixelChannels for ABgrChannels {
    const STRIDE: usize = 4;

    const R: usize = 3;

    const G: usize = 2;

    const B: usize = 1;

    const A: usize = 0;

    ghost STRIDE = { 4 };

    ghost R = { 3 };

    ghost G = { 2 };

    ghost B = { 1 };

    ghost A = { 0 };

    ghost is_rearrangement = { by_offsets a_bgr refl refl refl refl refl };
}
