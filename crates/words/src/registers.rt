// The sixteen byte registers, and the four pairs of them that address data memory.
ghost use Rattle.std.specs.Prelude.{◌≡◌, ◌<◌};
ghost use Rattle.words.specs.Codes.{register_code, register, index_code, index};

// The number of each variant is the code that names it in a word.
#[derive(Clone, Copy, PartialEq, Eq, Debug)]
pub enum Register {
    I0l = 0,
    I0h = 1,
    I1l = 2,
    I1h = 3,
    I2l = 4,
    I2h = 5,
    I3l = 6,
    I3h = 7,
    Ipl = 8,
    Iph = 9,
    Stat = 10,
    R3 = 11,
    R2 = 12,
    R1 = 13,
    R0 = 14,
    A = 15,
}

impl From<Register> for u32 {
    ghost from_gives = { λ x code. (code ≡ register_code x) × (code < 16) };

    fn from(register: Register) -> u32 {
        register as u32
    }
}

impl Register {
    // The register that a field of four bits names: each of its values is a code.
    pub(crate) fn of_code(code: u32) -> Register
        ensures { result ≡ register code }
    {
        match code {
            0 => Register::I0l,
            1 => Register::I0h,
            2 => Register::I1l,
            3 => Register::I1h,
            4 => Register::I2l,
            5 => Register::I2h,
            6 => Register::I3l,
            7 => Register::I3h,
            8 => Register::Ipl,
            9 => Register::Iph,
            10 => Register::Stat,
            11 => Register::R3,
            12 => Register::R2,
            13 => Register::R1,
            14 => Register::R0,
            _ => Register::A,
        }
    }
}

#[derive(Clone, Copy, PartialEq, Eq, Debug)]
pub enum IndexRegister {
    I0 = 0,
    I1 = 1,
    I2 = 2,
    I3 = 3,
}

impl From<IndexRegister> for u32 {
    ghost from_gives = { λ x code. (code ≡ index_code x) × (code < 4) };

    fn from(index: IndexRegister) -> u32 {
        index as u32
    }
}

impl IndexRegister {
    // The index register that a field of two bits names.
    pub(crate) fn of_code(code: u32) -> IndexRegister
        ensures { result ≡ index code }
    {
        match code {
            0 => IndexRegister::I0,
            1 => IndexRegister::I1,
            2 => IndexRegister::I2,
            _ => IndexRegister::I3,
        }
    }
}
