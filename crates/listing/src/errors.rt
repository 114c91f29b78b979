// Why a program image is not counted.
ghost use Rattle.std.specs.Prelude.{◌≡◌, Some};
ghost use Rattle.listing.specs.Refusals.{image_number, image_place};
ghost use Rattle.listing.specs.Lines.{error_text};

use std::fmt;

#[derive(Clone, Copy, PartialEq, Eq, Debug)]
pub enum ImageError {
    // bytes are left over, fewer than a word has
    LeftOver,
}

impl ImageError {
    // The number under which the refusal is logged.
    pub fn number(self) -> u16
        ensures { result ≡ image_number self }
    {
        match self {
            ImageError::LeftOver => 29,
        }
    }

    // The place under which the refusal is logged.
    pub fn place(self) -> usize
        ensures { result ≡ image_place self }
    {
        match self {
            ImageError::LeftOver => 0,
        }
    }
}

impl fmt::Display for ImageError {
    ghost output = { λ error. Some (error_text error) };

    fn fmt<W: fmt::Write>(&self, f: &mut fmt::Formatter<W>) -> fmt::Result {
        let number = self.number();
        let place = self.place();
        write!(f, "refused {number} at {place}")
    }
}
