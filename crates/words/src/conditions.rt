// What a jump asks.
ghost use Rattle.std.specs.Prelude.{◌≡◌, ◌<◌};
ghost use Rattle.words.specs.Codes.{condition_code, condition};

// The number of each variant is the code that names it in a word.
#[derive(Clone, Copy, PartialEq, Eq, Debug)]
pub enum Condition {
    CarryClear = 0,
    OverflowClear = 1,
    ZeroClear = 2,
    Always = 3,
    CarrySet = 4,
    OverflowSet = 5,
    ZeroSet = 6,
    Event = 7,
}

impl From<Condition> for u32 {
    ghost from_gives = { λ x code. (code ≡ condition_code x) × (code < 8) };

    fn from(condition: Condition) -> u32 {
        condition as u32
    }
}

impl Condition {
    // The condition that a field of three bits names: each of its values is a code.
    pub(crate) fn of_code(code: u32) -> Condition
        ensures { result ≡ condition code }
    {
        match code {
            0 => Condition::CarryClear,
            1 => Condition::OverflowClear,
            2 => Condition::ZeroClear,
            3 => Condition::Always,
            4 => Condition::CarrySet,
            5 => Condition::OverflowSet,
            6 => Condition::ZeroSet,
            _ => Condition::Event,
        }
    }
}
