// From a word to its instruction.
ghost use Rattle.std.specs.Prelude.{◌≡◌};
ghost use Rattle.words.specs.Decoding.{decoded};
ghost use Rattle.words.specs.Laws.{Reads};

use crate::divisions::Division;
use crate::errors::DecodeError;
use crate::instructions::{Instruction, Target};
use crate::rows;

// Each range has the words of one row of the table, lowest row first.
pub fn decode(word: u32) -> Result<Instruction, DecodeError>
    ensures value { result ≡ decoded word }
    ensures reads { Reads word result }
{
    match word {
        0x00_0000..=0x00_FFFF => Ok(rows::store_immediate(word)),
        0x01_B000..=0x01_BFFF => Ok(rows::store_direct(word)),
        0x02_C000..=0x02_FFFF => Ok(rows::store_offset(word)),
        0x03_4000..=0x03_7FFF => Ok(rows::store_stepped(word)),
        0x03_8000..=0x03_BFFF if word % 0x100 == 0xFF => Ok(rows::store_r3(word)),
        0x04_0000..=0x05_FFFF => rows::alu_direct(word),
        0x06_0000..=0x07_FFFF if word / 4 % 64 == 63 => rows::alu_r3(word),
        0x0B_7FFF => Ok(Instruction::Sflag),
        0x0B_BFF0..=0x0B_BFFF if Division::try_from(word % 16).is_ok() => rows::frequency(word),
        0x0B_DFFF => Ok(Instruction::Halt),
        0x0C_0000..=0x0D_FFFF => rows::alu_registers(word),
        0x0E_0000..=0x0E_FFFF => rows::alu_immediate(word),
        0x10_0000..=0x17_FFFF => rows::alu_stepped(word),
        0x18_0000..=0x1F_FFFF => rows::alu_offset(word),
        0x20_0000..=0x27_FFFF if word % 0x1_0000 == 0xFFFF => Ok(rows::jump_ip(word)),
        0x29_FFFF => Ok(Instruction::Call(Target::Ip)),
        0x2A_FFFF => Ok(Instruction::Calls(Target::Ip)),
        0x2D_FFFF => Ok(Instruction::Push),
        0x30_0000..=0x37_FFFF => Ok(rows::jump_to(word)),
        0x39_0000..=0x39_FFFF => Ok(Instruction::Call(rows::jump_target(word))),
        0x3A_0000..=0x3A_FFFF => Ok(Instruction::Calls(rows::jump_target(word))),
        0x3E_BFFF => Ok(Instruction::Pop),
        0x3F_1FFF => Ok(Instruction::Reti),
        0x3F_3FFF => Ok(Instruction::Ret),
        0x3F_FFFF => Ok(Instruction::Nop),
        0..=0x3F_FFFF => Err(DecodeError::Reserved),
        _ => Err(DecodeError::TooWide),
    }
}
