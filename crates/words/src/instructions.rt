// Every instruction of the table of words.
use crate::addresses::MemoryAddress;
use crate::conditions::Condition;
use crate::divisions::Division;
use crate::operations::Operation;
use crate::registers::Register;

// Where a jump or a call goes.
#[derive(Clone, Copy, PartialEq, Eq, Debug)]
pub enum Target {
    Address(u16),
    // the address that the register pair ip holds
    Ip,
}

// An operation with its operands. Two are equal if they have the same variant and the same fields.
#[derive(Clone, Copy, PartialEq, Eq, Debug)]
pub enum Instruction {
    Nop,
    Halt,
    Sflag,
    Freq(Division),
    Push,
    Pop,
    Ret,
    Reti,
    Jump(Condition, Target),
    Call(Target),
    Calls(Target),
    // op1 is the byte in memory, op2 and the destination are the register
    AluMemory {
        operation: Operation,
        register: Register,
        source: MemoryAddress,
    },
    // op1 is the data, op2 and the destination are the register
    AluImmediate {
        operation: Operation,
        register: Register,
        value: u8,
    },
    AluOneSource {
        operation: Operation,
        result: Register,
        source: Register,
    },
    // CMP and CMPA have a result field too, and write nothing to it
    AluTwoSources {
        operation: Operation,
        result: Register,
        op1: Register,
        op2: Register,
    },
    Store {
        target: MemoryAddress,
        source: Register,
    },
    // to a byte of page 0
    StoreImmediate {
        target: u8,
        value: u8,
    },
}
