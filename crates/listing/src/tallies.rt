// How many words an image has.
ghost use Rattle.std.specs.Prelude.{Some};
ghost use Rattle.listing.specs.Lines.{tally_text};

use std::fmt;

#[derive(Clone, Copy, PartialEq, Eq, Debug)]
pub struct Tally {
    pub words: usize,
    // those that are no instructions
    pub refused: usize,
}

impl fmt::Display for Tally {
    ghost output = { λ tally. Some (tally_text tally) };

    fn fmt<W: fmt::Write>(&self, f: &mut fmt::Formatter<W>) -> fmt::Result {
        let Tally { words, refused } = *self;
        write!(f, "{words} words, {refused} refused")
    }
}
