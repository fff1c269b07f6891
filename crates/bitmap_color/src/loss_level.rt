// The loss level of a picture that is not refused, and its colours (FORMAT 6.4, 6.5).
ghost use Rattle.std.specs.Prelude.{◌≡◌, ◌≤◌, pos, negsuc, ◌≤ℤ◌};
ghost use Rattle.bitmap_format.specs.Colour.{chroma_value_of, clip, ycocg, aycocg_colour};
ghost use Rattle.bitmap_color.specs.ColourOrBlack.{colour_or_black};

use bitmap_format::Rgb;

// A loss level of 1 to 7.
#[derive(Clone, Copy)]
pub struct LossLevel {
    pub level: u8,
    pub ghost allowed: { (1 ≤ level) × (level ≤ 7) },
}

impl LossLevel {
    ghost use Rattle.std.specs.Prelude.{true, ◌||◌, ◌==◌, nat_lt, MatchOption};

    // None for a level that refuses the picture (FORMAT 8.1, refusal 3).
    pub fn new(level: u8) -> Option<LossLevel>
        ensures { MatchOption result ((level == 0 || nat_lt 7 level) ≡ true) (λ known. known.level ≡ level) }
    {
        if level == 0 || 7 < level {
            return None;
        }
        Some(LossLevel { level })
    }

    // The colour of a pixel. Without the alpha flag red and blue change places.
    // The samples stay three parameters: each is read from a plane of its own.
    pub fn color(self, alpha: bool, y: u8, co: u8, cg: u8) -> Rgb
        ensures color { result ≡ aycocg_colour alpha self.level y co cg }
        ensures shown { result ≡ colour_or_black alpha self.level y co cg }
    {
        let color = ycocg_with_cll_to_rgb(self, y, co, cg);
        if alpha {
            return color;
        }
        Rgb {
            r: color.b,
            g: color.g,
            b: color.r,
        }
    }
}

// The value of a chroma sample. The multiplication wraps at 8 bits, before the sign is taken. The sign is taken by adding 128 with wrapping and
// subtracting it again, which the compiler vectorises better than a test.
fn chroma_value(cll: LossLevel, byte: u8) -> i16
    ensures value { result ≡ chroma_value_of cll.level byte }
    ensures low { negsuc 127 ≤ℤ result }
    ensures high { result ≤ℤ pos 127 }
{
    let scaled = byte << (cll.level - 1);
    i16::from(scaled.wrapping_add(128)) - 128
}

// The nearest byte.
// By `as`: after `clamp` there is no value that TryFrom would refuse.
fn clip_i16(v: i16) -> u8
    ensures { result ≡ clip v }
{
    v.clamp(0, 255) as u8
}

// The three colours of a pixel, before it is known which is R and which is B.
fn ycocg_with_cll_to_rgb(cll: LossLevel, y: u8, co: u8, cg: u8) -> Rgb
    ensures { result ≡ ycocg cll.level y co cg }
{
    let co = chroma_value(cll, co);
    let cg = chroma_value(cll, cg);
    let t = i16::from(y) - cg;
    let r = clip_i16(t + co);
    let g = clip_i16(i16::from(y) + cg);
    let b = clip_i16(t - co);
    Rgb { r, g, b }
}
