// From an instruction to its word.
ghost use Rattle.std.specs.Prelude.{◌≡◌, ◌^◌, ◌<◌, true};
ghost use Rattle.words.specs.Encoding.{formed, address_fits, fields_fit, target_word, alu_fields, alu_memory_word, store_word, word_of, encoded};
ghost use Rattle.words.specs.Laws.{Writes};

use crate::addresses::MemoryAddress;
use crate::errors::EncodeError;
use crate::instructions::{Instruction, Target};
use crate::operations::{Form, Operation};
use crate::registers::Register;

fn has_its_form(instruction: Instruction) -> bool
    ensures { result ≡ formed instruction }
{
    match instruction {
        Instruction::AluMemory { operation, .. } => operation.has_form(Form::Memory),
        Instruction::AluImmediate { operation, .. } => operation.has_form(Form::Immediate),
        Instruction::AluOneSource { operation, .. } => operation.has_form(Form::OneSource),
        Instruction::AluTwoSources { operation, .. } => operation.has_form(Form::TwoSources),
        _ => true,
    }
}

// A byte fits any field of eight bits, so only steps can be out of range.
fn address_fits(address: MemoryAddress) -> bool
    ensures { result ≡ address_fits address }
{
    match address {
        MemoryAddress::PostIncrement(_, step) => step <= 127,
        MemoryAddress::PreDecrement(_, step) => (1..=128).contains(&step),
        _ => true,
    }
}

fn fields_fit(instruction: Instruction) -> bool
    ensures { result ≡ fields_fit instruction }
{
    match instruction {
        Instruction::AluMemory { source, .. } => address_fits(source),
        Instruction::Store { target, .. } => address_fits(target),
        _ => true,
    }
}

pub fn encode(instruction: Instruction) -> Result<u32, EncodeError>
    ensures value { result ≡ encoded instruction }
    ensures writes { Writes instruction result }
{
    if !has_its_form(instruction) {
        return Err(EncodeError::NoSuchForm);
    }
    if !fields_fit(instruction) {
        return Err(EncodeError::FieldRange);
    }
    Ok(word_of(instruction))
}

fn target_word(direct: u32, indirect: u32, target: Target) -> u32
    requires direct_bound { direct < 2 ^ 6 }
    requires indirect_bound { indirect < 2 ^ 6 }
    ensures { result ≡ target_word direct indirect target }
{
    match target {
        Target::Address(address) => direct * 0x1_0000 + (0xFFFF - u32::from(address)),
        Target::Ip => indirect * 0x1_0000 + 0xFFFF,
    }
}

fn alu_fields(operation: Operation, register: Register) -> u32
    ensures value { result ≡ alu_fields operation register }
    ensures upper_bound { result < 2 ^ 17 }
{
    u32::from(operation) * 0x1000 + u32::from(register) * 0x100
}

fn alu_memory_word(operation: Operation, register: Register, source: MemoryAddress) -> u32
    requires { address_fits source ≡ true }
    ensures { result ≡ alu_memory_word operation register source }
{
    let fields = alu_fields(operation, register);
    match source {
        MemoryAddress::Direct(address) => 0x04_0000 + fields + (0xFF - u32::from(address)),
        MemoryAddress::Offset(index, offset) => 0x18_0000
            + u32::from(index) * 0x2_0000
            + fields
            + u32::from(offset),
        MemoryAddress::OffsetR3(index) => 0x06_0000 + fields + 0xFC + u32::from(index),
        MemoryAddress::PostIncrement(index, step) => 0x10_0000
            + u32::from(index) * 0x2_0000
            + fields
            + u32::from(step),
        MemoryAddress::PreDecrement(index, step) => {
            0x10_0000 + u32::from(index) * 0x2_0000 + fields + 0x80 + (0x80 - u32::from(step))
        }
    }
}

fn store_word(target: MemoryAddress, source: Register) -> u32
    requires { address_fits target ≡ true }
    ensures { result ≡ store_word target source }
{
    let register = u32::from(source) * 0x100;
    match target {
        MemoryAddress::Direct(address) => 0x01_B000 + register + (0xFF - u32::from(address)),
        MemoryAddress::Offset(index, offset) => 0x02_C000
            + u32::from(index) * 0x1000
            + register
            + u32::from(offset),
        MemoryAddress::OffsetR3(index) => 0x03_8000 + u32::from(index) * 0x1000 + register + 0xFF,
        MemoryAddress::PostIncrement(index, step) => 0x03_4000
            + u32::from(index) * 0x1000
            + register
            + u32::from(step),
        MemoryAddress::PreDecrement(index, step) => {
            0x03_4000 + u32::from(index) * 0x1000 + register + 0x80 + (0x80 - u32::from(step))
        }
    }
}

fn word_of(instruction: Instruction) -> u32
    requires { fields_fit instruction ≡ true }
    ensures { result ≡ word_of instruction }
{
    match instruction {
        Instruction::Nop => 0x3F_FFFF,
        Instruction::Halt => 0x0B_DFFF,
        Instruction::Sflag => 0x0B_7FFF,
        Instruction::Freq(division) => 0x0B_BFF0 + u32::from(division),
        Instruction::Push => 0x2D_FFFF,
        Instruction::Pop => 0x3E_BFFF,
        Instruction::Ret => 0x3F_3FFF,
        Instruction::Reti => 0x3F_1FFF,
        Instruction::Jump(condition, target) => {
            target_word(
                0b110_000 + u32::from(condition),
                0b100_000 + u32::from(condition),
                target,
            )
        }
        Instruction::Call(target) => target_word(0b111_001, 0b101_001, target),
        Instruction::Calls(target) => target_word(0b111_010, 0b101_010, target),
        Instruction::AluMemory {
            operation,
            register,
            source,
        } => alu_memory_word(operation, register, source),
        Instruction::AluImmediate {
            operation,
            register,
            value,
        } => 0x0E_0000 + alu_fields(operation, register) + (0xFF - u32::from(value)),
        Instruction::AluOneSource {
            operation,
            result,
            source,
        } => 0x0C_0000
            + u32::from(operation) * 0x1000
            + 0xF00
            + u32::from(source) * 0x10
            + u32::from(result),
        Instruction::AluTwoSources {
            operation,
            result,
            op1,
            op2,
        } => {
            0x0C_0000
                + u32::from(operation) * 0x1000
                + u32::from(op2) * 0x100
                + u32::from(op1) * 0x10
                + u32::from(result)
        }
        Instruction::Store { target, source } => store_word(target, source),
        Instruction::StoreImmediate { target, value } => {
            (0xFF - u32::from(value)) * 0x100 + (0xFF - u32::from(target))
        }
    }
}
