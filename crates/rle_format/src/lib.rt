// RLE planes (FORMAT 3 to 5; MS-RDPEGDI 2.2.2.5.1.2, 3.1.9.2): refusals, and sides. The definitions that the contracts of decoder and encoder
// cite are in specs/.
#![tactic(auto)]

mod valid_sides;

ghost use Rattle.std.specs.Prelude.{◌≡◌};
ghost use Rattle.rle_format.specs.Answer.{number};

pub use valid_sides::ValidSides;

// The largest width and the largest height.
pub const MAX_SIDE: usize = 8192;

// Why a call is refused, with its number (FORMAT 8.1). The names are IronRDP's where it has one.
#[derive(Clone, Copy, PartialEq, Eq)]
pub enum Refusal {
    ZeroSize = 1,
    TooLarge = 2,
    LossLevel = 3,
    InvalidUncompressedDataSize = 4,
    ShortWork = 5,
    ShortImage = 6,
    ReadCompressedData = 7,
    InvalidSegmentHeader = 8,
    SegmentDoNotFitScanline = 9,
    ShortPlane = 10,
    NotEnoughBytes = 11,
    BufferTooSmall = 12,
    EmptyStream = 13,
    MissingPad = 14,
}

// The number of a refusal.
// By `as`, the one way from an enum to its number.
impl From<Refusal> for u8 {
    ghost from_gives = { λ refusal n. n ≡ number refusal };

    fn from(refusal: Refusal) -> u8 {
        refusal as u8
    }
}
