// The sides of a plane or a picture, checked once (FORMAT 8.1, refusals 1 and 2).
ghost use Rattle.std.specs.Prelude.{◌≡◌, ◌*◌, Ok, Err};
ghost use Rattle.rle_format.specs.Sides.{check_sides_of, AllowedSides};

use crate::{MAX_SIDE, Refusal};

// Sides that pass refusals 1 and 2: 1 to 8,192 each.
#[derive(Clone, Copy)]
pub struct ValidSides {
    pub width: usize,
    pub height: usize,
    pub ghost allowed: { AllowedSides width height },
}

impl ValidSides {
    ghost use Rattle.rle_format.specs.CheckedSides.{sides_or_number};

    // The sides, or the refusal: 1 before 2.
    #[tactic(auto, unfolding(crate::specs::Sides::check_sides_of))]
    pub fn new(width: usize, height: usize) -> Result<ValidSides, Refusal>
        ensures { sides_or_number result ≡ check_sides_of Err width height (Ok (width, height)) }
    {
        if width == 0 || height == 0 {
            return Err(Refusal::ZeroSize);
        }
        if MAX_SIDE < width || MAX_SIDE < height {
            return Err(Refusal::TooLarge);
        }
        Ok(ValidSides { width, height })
    }

    // The number of samples of a plane with these sides.
    pub fn area(self) -> usize
        ensures { result ≡ self.width * self.height }
    {
        self.width * self.height
    }
}
