// Why a program is not admitted.
ghost use Rattle.std.specs.Prelude.{◌≡◌};
ghost use Rattle.admission.specs.Refusals.{broken_rule, breach_number};
ghost use Rattle.admission.specs.declared.faults.Breach.TheVariants.{Undefined};

use crate::rules::{LineRule, Rule};
use words::DecodeError;

#[derive(Clone, Copy, PartialEq, Eq, Debug)]
pub enum Breach {
    Broken(Rule),
    // a word that is no instruction, with the decoder's refusal of it
    Undefined(DecodeError),
}

impl From<DecodeError> for Breach {
    ghost from_gives = { λ error breach. breach ≡ Undefined error };

    fn from(error: DecodeError) -> Breach {
        Breach::Undefined(error)
    }
}

impl Breach {
    pub fn rule(self) -> Rule
        ensures { result ≡ broken_rule self }
    {
        match self {
            Breach::Broken(rule) => rule,
            Breach::Undefined(_) => Rule::Line(LineRule::Word),
        }
    }

    // The number under which it is logged.
    pub fn number(self) -> u16
        ensures { result ≡ breach_number self }
    {
        self.rule().number()
    }
}

// A breach and its place: the index of a record or the address of a word, and 0 for what has no place.
#[derive(Clone, Copy, PartialEq, Eq, Debug)]
pub struct Fault {
    pub breach: Breach,
    pub place: u16,
}
