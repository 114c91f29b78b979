// Instructions whose words are worked out by hand.
ghost use Rattle.std.specs.Prelude.{◌≡◌};
ghost use Rattle.words.specs.Examples.{examples, AllStand};

use crate::addresses::MemoryAddress;
use crate::instructions::Instruction;
use crate::operations::Operation;
use crate::registers::{IndexRegister, Register};

// SFLAG, MOVE r0, (i0, 0x05) and CMVS r0, r1, each with its word.
pub fn worked_examples() -> [(Instruction, u32); 3]
    ensures value { result ≡ examples }
    ensures all_stand { AllStand result }
{
    [
        (Instruction::Sflag, 0x0B_7FFF),
        (
            Instruction::AluMemory {
                operation: Operation::Move,
                register: Register::R0,
                source: MemoryAddress::Offset(IndexRegister::I0, 0x05),
            },
            0x18_AE05,
        ),
        (
            Instruction::AluOneSource {
                operation: Operation::Cmvs,
                result: Register::R0,
                source: Register::R1,
            },
            0x0D_3FDE,
        ),
    ]
}
