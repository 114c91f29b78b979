// What each row of the table of words says of a word that it has. `name:n` is a field of n bits, and `n_` marks one that is
// held inverted.
ghost use Rattle.std.specs.Prelude.{◌≡◌};
ghost use Rattle.std.specs.Option.{ok_or};
ghost use Rattle.words.specs.Bits.{bits, inverted};
ghost use Rattle.words.specs.Codes.{register};
ghost use Rattle.words.specs.Decoding.{operation_in, stepped, store_immediate, store, store_direct, store_offset, store_stepped, store_r3, alu_memory, alu_direct, alu_r3, alu_stepped, alu_offset, alu_immediate, alu_registers, freq, jump_ip, jump_target, jump};
ghost use Rattle.words.specs.declared.errors.DecodeError.TheVariants.{Reserved};

use crate::addresses::MemoryAddress;
use crate::conditions::Condition;
use crate::divisions::Division;
use crate::errors::DecodeError;
use crate::instructions::{Instruction, Target};
use crate::operations::{Form, Operation};
use crate::registers::{IndexRegister, Register};

// The operation of that code, if the form has it.
fn operation_in(form: Form, code: u32) -> Result<Operation, DecodeError>
    ensures { result ≡ ok_or (operation_in form code) Reserved }
{
    let operation = Operation::try_from(code)?;
    if operation.has_form(form) {
        Ok(operation)
    } else {
        Err(DecodeError::Reserved)
    }
}

// reg:4 in bits 11 to 8
fn register_field(word: u32) -> Register
    ensures { result ≡ register (bits word 8 4) }
{
    Register::of_code(word / 0x100 % 16)
}

// n_:8 in bits 7 to 0
fn inverted_byte(word: u32) -> u8
    ensures { result ≡ inverted word 8 }
{
    (0xFF - word % 0x100) as u8
}

// Bit 7 tells a step to add after the access from one to subtract before it, which is held as 128 less the step.
fn stepped_address(word: u32, index: IndexRegister) -> MemoryAddress
    ensures { result ≡ stepped word index }
{
    let step = (word % 0x80) as u8;
    if word / 0x80 % 2 == 0 {
        MemoryAddress::PostIncrement(index, step)
    } else {
        MemoryAddress::PreDecrement(index, 0x80 - step)
    }
}

// 000000 n_data:8 n_addr:8
pub(crate) fn store_immediate(word: u32) -> Instruction
    ensures { result ≡ store_immediate word }
{
    Instruction::StoreImmediate {
        target: inverted_byte(word),
        value: inverted_byte(word / 0x100),
    }
}

// reg:4 in bits 11 to 8, whatever the address
fn store(word: u32, target: MemoryAddress) -> Instruction
    ensures { result ≡ store word target }
{
    let source = register_field(word);
    Instruction::Store { target, source }
}

// 000001 1011 reg:4 n_addr:8
pub(crate) fn store_direct(word: u32) -> Instruction
    ensures { result ≡ store_direct word }
{
    store(word, MemoryAddress::Direct(inverted_byte(word)))
}

// 00001011 ix:2 reg:4 offset:8
pub(crate) fn store_offset(word: u32) -> Instruction
    ensures { result ≡ store_offset word }
{
    let index = IndexRegister::of_code(word / 0x1000 % 4);
    store(word, MemoryAddress::Offset(index, (word % 0x100) as u8))
}

// 00001101 ix:2 reg:4 m step:7
pub(crate) fn store_stepped(word: u32) -> Instruction
    ensures { result ≡ store_stepped word }
{
    let index = IndexRegister::of_code(word / 0x1000 % 4);
    store(word, stepped_address(word, index))
}

// 00001110 ix:2 reg:4 and ones
pub(crate) fn store_r3(word: u32) -> Instruction
    ensures { result ≡ store_r3 word }
{
    let index = IndexRegister::of_code(word / 0x1000 % 4);
    store(word, MemoryAddress::OffsetR3(index))
}

// op:5 in bits 16 to 12 and reg:4 in bits 11 to 8, whatever the address
fn alu_memory(word: u32, source: MemoryAddress) -> Result<Instruction, DecodeError>
    ensures { result ≡ ok_or (alu_memory word source) Reserved }
{
    let operation = operation_in(Form::Memory, word / 0x1000 % 32)?;
    let register = register_field(word);
    Ok(Instruction::AluMemory {
        operation,
        register,
        source,
    })
}

// 00010 op:5 reg:4 n_addr:8
pub(crate) fn alu_direct(word: u32) -> Result<Instruction, DecodeError>
    ensures { result ≡ ok_or (alu_direct word) Reserved }
{
    alu_memory(word, MemoryAddress::Direct(inverted_byte(word)))
}

// 00011 op:5 reg:4 111111 ix:2
pub(crate) fn alu_r3(word: u32) -> Result<Instruction, DecodeError>
    ensures { result ≡ ok_or (alu_r3 word) Reserved }
{
    let index = IndexRegister::of_code(word % 4);
    alu_memory(word, MemoryAddress::OffsetR3(index))
}

// 010 ix:2 op:5 reg:4 m step:7
pub(crate) fn alu_stepped(word: u32) -> Result<Instruction, DecodeError>
    ensures { result ≡ ok_or (alu_stepped word) Reserved }
{
    let index = IndexRegister::of_code(word / 0x2_0000 % 4);
    alu_memory(word, stepped_address(word, index))
}

// 011 ix:2 op:5 reg:4 offset:8
pub(crate) fn alu_offset(word: u32) -> Result<Instruction, DecodeError>
    ensures { result ≡ ok_or (alu_offset word) Reserved }
{
    let index = IndexRegister::of_code(word / 0x2_0000 % 4);
    alu_memory(word, MemoryAddress::Offset(index, (word % 0x100) as u8))
}

// 001110 op:4 reg:4 n_data:8
pub(crate) fn alu_immediate(word: u32) -> Result<Instruction, DecodeError>
    ensures { result ≡ ok_or (alu_immediate word) Reserved }
{
    let operation = operation_in(Form::Immediate, word / 0x1000 % 16)?;
    Ok(Instruction::AluImmediate {
        operation,
        register: register_field(word),
        value: inverted_byte(word),
    })
}

// 00110 op:5 op2:4 op1:4 res:4, where one source leaves op2 unread
pub(crate) fn alu_registers(word: u32) -> Result<Instruction, DecodeError>
    ensures { result ≡ ok_or (alu_registers word) Reserved }
{
    let operation = Operation::try_from(word / 0x1000 % 32)?;
    let result = Register::of_code(word % 16);
    let op1 = Register::of_code(word / 0x10 % 16);
    if operation.has_form(Form::OneSource) {
        Ok(Instruction::AluOneSource {
            operation,
            result,
            source: op1,
        })
    } else if operation.has_form(Form::TwoSources) {
        Ok(Instruction::AluTwoSources {
            operation,
            result,
            op1,
            op2: register_field(word),
        })
    } else {
        Err(DecodeError::Reserved)
    }
}

// 001011 1011 and eight ones, divn:4
pub(crate) fn frequency(word: u32) -> Result<Instruction, DecodeError>
    ensures { result ≡ ok_or (freq word) Reserved }
{
    Ok(Instruction::Freq(Division::try_from(word % 16)?))
}

// 100 cc:3 and ones
pub(crate) fn jump_ip(word: u32) -> Instruction
    ensures { result ≡ jump_ip word }
{
    Instruction::Jump(Condition::of_code(word / 0x1_0000 % 8), Target::Ip)
}

// n_addr:16
pub(crate) fn jump_target(word: u32) -> Target
    ensures { result ≡ jump_target word }
{
    Target::Address((0xFFFF - word % 0x1_0000) as u16)
}

// 110 cc:3 n_addr:16
pub(crate) fn jump_to(word: u32) -> Instruction
    ensures { result ≡ jump word }
{
    Instruction::Jump(Condition::of_code(word / 0x1_0000 % 8), jump_target(word))
}
