// Instructions in the notation of the CoolRISC 816 manual, for people to read.
ghost use Rattle.std.specs.Prelude.{Some};
ghost use Rattle.words.specs.Notation.{
  register_text,
  index_text,
  jump_text,
  division_text,
  operation_text,
  address_text,
  target_text,
  instruction_text,
};

use crate::addresses::MemoryAddress;
use crate::conditions::Condition;
use crate::divisions::Division;
use crate::instructions::{Instruction, Target};
use crate::operations::Operation;
use crate::registers::{IndexRegister, Register};
use std::fmt;

impl fmt::Display for Register {
    ghost output = { λ register. Some (register_text register) };

    fn fmt<W: fmt::Write>(&self, f: &mut fmt::Formatter<W>) -> fmt::Result {
        f.write_str(match self {
            Register::I0l => "i0l",
            Register::I0h => "i0h",
            Register::I1l => "i1l",
            Register::I1h => "i1h",
            Register::I2l => "i2l",
            Register::I2h => "i2h",
            Register::I3l => "i3l",
            Register::I3h => "i3h",
            Register::Ipl => "ipl",
            Register::Iph => "iph",
            Register::Stat => "stat",
            Register::R3 => "r3",
            Register::R2 => "r2",
            Register::R1 => "r1",
            Register::R0 => "r0",
            Register::A => "a",
        })
    }
}

impl fmt::Display for IndexRegister {
    ghost output = { λ index. Some (index_text index) };

    fn fmt<W: fmt::Write>(&self, f: &mut fmt::Formatter<W>) -> fmt::Result {
        f.write_str(match self {
            IndexRegister::I0 => "i0",
            IndexRegister::I1 => "i1",
            IndexRegister::I2 => "i2",
            IndexRegister::I3 => "i3",
        })
    }
}

// The mnemonic of the jump on that condition.
impl fmt::Display for Condition {
    ghost output = { λ condition. Some (jump_text condition) };

    fn fmt<W: fmt::Write>(&self, f: &mut fmt::Formatter<W>) -> fmt::Result {
        f.write_str(match self {
            Condition::CarryClear => "JCC",
            Condition::OverflowClear => "JVC",
            Condition::ZeroClear => "JZC",
            Condition::Always => "JUMP",
            Condition::CarrySet => "JCS",
            Condition::OverflowSet => "JVS",
            Condition::ZeroSet => "JZS",
            Condition::Event => "JEV",
        })
    }
}

impl fmt::Display for Division {
    ghost output = { λ division. Some (division_text division) };

    fn fmt<W: fmt::Write>(&self, f: &mut fmt::Formatter<W>) -> fmt::Result {
        f.write_str(match self {
            Division::Undivided => "nodiv",
            Division::By2 => "div2",
            Division::By4 => "div4",
            Division::By8 => "div8",
            Division::By16 => "div16",
        })
    }
}

impl fmt::Display for Operation {
    ghost output = { λ operation. Some (operation_text operation) };

    fn fmt<W: fmt::Write>(&self, f: &mut fmt::Formatter<W>) -> fmt::Result {
        f.write_str(match self {
            Operation::Cmpa => "CMPA",
            Operation::Cmp => "CMP",
            Operation::And => "AND",
            Operation::Subs => "SUBS",
            Operation::Subd => "SUBD",
            Operation::Subdc => "SUBDC",
            Operation::Mula => "MULA",
            Operation::Subsc => "SUBSC",
            Operation::Xor => "XOR",
            Operation::Move => "MOVE",
            Operation::Or => "OR",
            Operation::Add => "ADD",
            Operation::Addc => "ADDC",
            Operation::Mul => "MUL",
            Operation::Tstb => "TSTB",
            Operation::Shra => "SHRA",
            Operation::Inc => "INC",
            Operation::Cmvd => "CMVD",
            Operation::Cmvs => "CMVS",
            Operation::Shrc => "SHRC",
            Operation::Incc => "INCC",
            Operation::Shr => "SHR",
            Operation::Cpl1 => "CPL1",
            Operation::Cpl2 => "CPL2",
            Operation::Shl => "SHL",
            Operation::Dec => "DEC",
            Operation::Cpl2c => "CPL2C",
            Operation::Shlc => "SHLC",
            Operation::Decc => "DECC",
        })
    }
}

impl fmt::Display for MemoryAddress {
    ghost output = { λ address. Some (address_text address) };

    fn fmt<W: fmt::Write>(&self, f: &mut fmt::Formatter<W>) -> fmt::Result {
        match *self {
            MemoryAddress::Direct(address) => write!(f, "0x{address:02X}"),
            MemoryAddress::Offset(index, offset) => write!(f, "({index}, 0x{offset:02X})"),
            MemoryAddress::OffsetR3(index) => write!(f, "({index}, r3)"),
            MemoryAddress::PostIncrement(index, step) => write!(f, "({index}, 0x{step:02X})+"),
            MemoryAddress::PreDecrement(index, step) => write!(f, "-({index}, 0x{step:02X})"),
        }
    }
}

impl fmt::Display for Target {
    ghost output = { λ target. Some (target_text target) };

    fn fmt<W: fmt::Write>(&self, f: &mut fmt::Formatter<W>) -> fmt::Result {
        match *self {
            Target::Address(address) => write!(f, "0x{address:04X}"),
            Target::Ip => f.write_str("ip"),
        }
    }
}

impl fmt::Display for Instruction {
    ghost output = { λ instruction. Some (instruction_text instruction) };

    fn fmt<W: fmt::Write>(&self, f: &mut fmt::Formatter<W>) -> fmt::Result {
        match *self {
            Instruction::Nop => f.write_str("NOP"),
            Instruction::Halt => f.write_str("HALT"),
            Instruction::Sflag => f.write_str("SFLAG"),
            Instruction::Freq(division) => write!(f, "FREQ {division}"),
            Instruction::Push => f.write_str("PUSH"),
            Instruction::Pop => f.write_str("POP"),
            Instruction::Ret => f.write_str("RET"),
            Instruction::Reti => f.write_str("RETI"),
            Instruction::Jump(condition, target) => write!(f, "{condition} {target}"),
            Instruction::Call(target) => write!(f, "CALL {target}"),
            Instruction::Calls(target) => write!(f, "CALLS {target}"),
            Instruction::AluMemory {
                operation,
                register,
                source,
            } => write!(f, "{operation} {register}, {source}"),
            Instruction::AluImmediate {
                operation,
                register,
                value,
            } => write!(f, "{operation} {register}, #0x{value:02X}"),
            Instruction::AluOneSource {
                operation,
                result,
                source,
            } => write!(f, "{operation} {result}, {source}"),
            // A comparison names what is compared, destination and source, and no result.
            Instruction::AluTwoSources {
                operation: operation @ (Operation::Cmp | Operation::Cmpa),
                op1,
                op2,
                ..
            } => write!(f, "{operation} {op2}, {op1}"),
            Instruction::AluTwoSources {
                operation,
                result,
                op1,
                op2,
            } => write!(f, "{operation} {result}, {op1}, {op2}"),
            Instruction::Store { target, source } => write!(f, "MOVE {target}, {source}"),
            Instruction::StoreImmediate { target, value } => {
                write!(f, "MOVE 0x{target:02X}, #0x{value:02X}")
            }
        }
    }
}
