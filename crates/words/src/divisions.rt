// How far FREQ divides the clock.
ghost use Rattle.std.specs.Prelude.{◌≡◌, ◌<◌};
ghost use Rattle.std.specs.Option.{ok_or};
ghost use Rattle.words.specs.Codes.{division_code, division};
ghost use Rattle.words.specs.declared.errors.DecodeError.TheVariants.{Reserved};

use crate::errors::DecodeError;

// The number of each variant is the code that names it in a word. The other eleven codes are reserved.
#[derive(Clone, Copy, PartialEq, Eq, Debug)]
pub enum Division {
    Undivided = 0,
    By2 = 8,
    By4 = 12,
    By8 = 14,
    By16 = 15,
}

impl From<Division> for u32 {
    ghost from_gives = { λ x code. (code ≡ division_code x) × (code < 16) };

    fn from(division: Division) -> u32 {
        division as u32
    }
}

// A field of four bits.
impl TryFrom<u32> for Division {
    type Error = DecodeError;

    ghost try_from_gives = { λ code r. r ≡ ok_or (division code) Reserved };

    fn try_from(code: u32) -> Result<Division, DecodeError> {
        match code {
            0 => Ok(Division::Undivided),
            8 => Ok(Division::By2),
            12 => Ok(Division::By4),
            14 => Ok(Division::By8),
            15 => Ok(Division::By16),
            _ => Err(DecodeError::Reserved),
        }
    }
}
