// The operations of the ALU. One set serves all forms of instruction, so a form may lack an operation.
ghost use Rattle.std.specs.Prelude.{◌≡◌, ◌<◌};
ghost use Rattle.std.specs.Option.{ok_or};
ghost use Rattle.words.specs.Codes.{operation_code, operation};
ghost use Rattle.words.specs.Forms.{one_source, has_form};
ghost use Rattle.words.specs.declared.errors.DecodeError.TheVariants.{Reserved};

use crate::errors::DecodeError;

// The number of each variant is the code that names it in a word.
#[derive(Clone, Copy, PartialEq, Eq, Debug)]
pub enum Operation {
    Cmpa = 0,
    Cmp = 1,
    And = 2,
    Subs = 3,
    Subd = 4,
    Subdc = 5,
    Mula = 6,
    Subsc = 7,
    Xor = 8,
    Move = 10,
    Or = 11,
    Add = 12,
    Addc = 13,
    Mul = 14,
    Tstb = 15,
    Shra = 16,
    Inc = 17,
    Cmvd = 18,
    Cmvs = 19,
    Shrc = 20,
    Incc = 21,
    Shr = 22,
    Cpl1 = 24,
    Cpl2 = 25,
    Shl = 26,
    Dec = 27,
    Cpl2c = 28,
    Shlc = 30,
    Decc = 31,
}

// Where an operation takes its operands from.
#[derive(Clone, Copy, PartialEq, Eq, Debug)]
pub enum Form {
    // a byte of data memory and the destination register
    Memory,
    // a byte of the word and the destination register
    Immediate,
    // one register
    OneSource,
    // two registers
    TwoSources,
}

impl From<Operation> for u32 {
    ghost from_gives = { λ x code. (code ≡ operation_code x) × (code < 32) };

    fn from(operation: Operation) -> u32 {
        operation as u32
    }
}

// A field of five bits.
impl TryFrom<u32> for Operation {
    type Error = DecodeError;

    ghost try_from_gives = { λ code r. r ≡ ok_or (operation code) Reserved };

    fn try_from(code: u32) -> Result<Operation, DecodeError> {
        match code {
            0 => Ok(Operation::Cmpa),
            1 => Ok(Operation::Cmp),
            2 => Ok(Operation::And),
            3 => Ok(Operation::Subs),
            4 => Ok(Operation::Subd),
            5 => Ok(Operation::Subdc),
            6 => Ok(Operation::Mula),
            7 => Ok(Operation::Subsc),
            8 => Ok(Operation::Xor),
            10 => Ok(Operation::Move),
            11 => Ok(Operation::Or),
            12 => Ok(Operation::Add),
            13 => Ok(Operation::Addc),
            14 => Ok(Operation::Mul),
            15 => Ok(Operation::Tstb),
            16 => Ok(Operation::Shra),
            17 => Ok(Operation::Inc),
            18 => Ok(Operation::Cmvd),
            19 => Ok(Operation::Cmvs),
            20 => Ok(Operation::Shrc),
            21 => Ok(Operation::Incc),
            22 => Ok(Operation::Shr),
            24 => Ok(Operation::Cpl1),
            25 => Ok(Operation::Cpl2),
            26 => Ok(Operation::Shl),
            27 => Ok(Operation::Dec),
            28 => Ok(Operation::Cpl2c),
            30 => Ok(Operation::Shlc),
            31 => Ok(Operation::Decc),
            _ => Err(DecodeError::Reserved),
        }
    }
}

impl Operation {
    fn has_one_source(self) -> bool
        ensures { result ≡ one_source self }
    {
        matches!(
            self,
            Operation::Move
                | Operation::Cmvd
                | Operation::Cmvs
                | Operation::Shl
                | Operation::Shlc
                | Operation::Shr
                | Operation::Shrc
                | Operation::Shra
                | Operation::Cpl1
                | Operation::Cpl2
                | Operation::Cpl2c
                | Operation::Inc
                | Operation::Incc
                | Operation::Dec
                | Operation::Decc
        )
    }

    pub fn has_form(self, form: Form) -> bool
        ensures { result ≡ has_form self form }
    {
        match form {
            Form::Memory => !matches!(self, Operation::Tstb),
            Form::Immediate => matches!(self, Operation::Move) || !self.has_one_source(),
            Form::OneSource => self.has_one_source(),
            Form::TwoSources => !matches!(self, Operation::Tstb) && !self.has_one_source(),
        }
    }
}
