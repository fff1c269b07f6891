// The colour of an AYCoCg pixel (FORMAT 6.4, 6.5; MS-RDPEGDI 3.1.9.1.2).
#![tactic(auto)]

mod loss_level;

ghost use Rattle.std.specs.Prelude.{◌≡◌};
ghost use Rattle.bitmap_color.specs.ColourOrBlack.{colour_or_black};

use bitmap_format::Rgb;
pub use loss_level::LossLevel;

// What the colours of a picture depend on besides its samples.
#[derive(Clone, Copy)]
pub struct AYCoCgParams {
    pub color_loss_level: u8,
    pub chroma_subsampling: bool,
    pub alpha: bool,
}

// The colour of a pixel, or black if the loss level is not one of 1 to 7.
// It stays beside `LossLevel::color`: its clause, which docs/PROOFS.md names, is of every level, 0 and 8 to 255 too.
#[tactic(auto, using(crate::proofs::Colour::colour_level_known, crate::proofs::Colour::colour_level_refused))]
pub fn aycocg_color(params: AYCoCgParams, y: u8, co: u8, cg: u8) -> Rgb
    ensures { result ≡ colour_or_black params.alpha params.color_loss_level y co cg }
{
    match LossLevel::new(params.color_loss_level) {
        Some(level) => level.color(params.alpha, y, co, cg),
        None => Rgb { r: 0, g: 0, b: 0 },
    }
}
