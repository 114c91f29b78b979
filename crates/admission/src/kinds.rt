// What a record of the depth table stands for.
ghost use Rattle.std.specs.Prelude.{◌≡◌};
ghost use Rattle.std.specs.Result.{result_ok};
ghost use Rattle.admission.specs.Tables.{kind_of};

#[derive(Clone, Copy, PartialEq, Eq, Debug)]
pub enum Kind {
    // the program that runs when no interrupt does
    Background,
    // a routine that leaves stat alone, and so can be called inside an interrupt
    Quiet,
    // the routine of an interrupt level
    Interrupt,
    // a routine that may write stat, for the background alone
    Open,
}

// A number that names no kind.
#[derive(Clone, Copy, PartialEq, Eq, Debug)]
pub struct UnknownKind;

impl TryFrom<u16> for Kind {
    type Error = UnknownKind;

    ghost try_from_gives = { λ number kind. result_ok kind ≡ kind_of number };

    fn try_from(number: u16) -> Result<Kind, UnknownKind> {
        match number {
            1 => Ok(Kind::Background),
            2 => Ok(Kind::Quiet),
            3 => Ok(Kind::Interrupt),
            4 => Ok(Kind::Open),
            _ => Err(UnknownKind),
        }
    }
}
