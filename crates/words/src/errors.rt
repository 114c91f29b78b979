// Why a word is not read, or an instruction not written.
ghost use Rattle.std.specs.Prelude.{◌≡◌, Some};
ghost use Rattle.words.specs.Refusals.{decode_number, decode_error_text, encode_number};

use std::fmt;

#[derive(Clone, Copy, PartialEq, Eq, Debug)]
pub enum DecodeError {
    // a word that is no instruction
    Reserved,
    // a number of more than 22 bits
    TooWide,
}

impl DecodeError {
    // The number under which the refusal is logged.
    pub fn number(self) -> u16
        ensures { result ≡ decode_number self }
    {
        match self {
            DecodeError::Reserved => 25,
            DecodeError::TooWide => 30,
        }
    }
}

impl fmt::Display for DecodeError {
    ghost output = { λ error. Some (decode_error_text error) };

    fn fmt<W: fmt::Write>(&self, f: &mut fmt::Formatter<W>) -> fmt::Result {
        write!(f, "refused {}", self.number())
    }
}

#[derive(Clone, Copy, PartialEq, Eq, Debug)]
pub enum EncodeError {
    // the form lacks the operation
    NoSuchForm,
    // a field is too wide, or an amount to subtract is not 1 to 128
    FieldRange,
}

impl EncodeError {
    // The number under which the refusal is logged.
    pub fn number(self) -> u16
        ensures { result ≡ encode_number self }
    {
        match self {
            EncodeError::NoSuchForm => 31,
            EncodeError::FieldRange => 32,
        }
    }
}
