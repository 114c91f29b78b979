// Examples of words, of refusals and of their order.
use crate::addresses::*;
use crate::conditions::*;
use crate::decoder::*;
use crate::divisions::*;
use crate::encoder::*;
use crate::errors::*;
use crate::examples::*;
use crate::instructions::*;
use crate::operations::*;
use crate::registers::*;

fn moved_from(source: MemoryAddress) -> Instruction {
    Instruction::AluMemory {
        operation: Operation::Move,
        register: Register::R0,
        source,
    }
}

#[test]
fn worked_examples_go_both_ways(rt: HostRuntime) {
    for (instruction, word) in worked_examples() {
        assert_eq!(rt; encode(instruction), Ok(word));
        assert_eq!(rt; decode(word), Ok(instruction));
    }
}

#[test]
fn unread_bits_are_ignored_and_written_as_ones(rt: HostRuntime) {
    let shift = Instruction::AluOneSource {
        operation: Operation::Shl,
        result: Register::A,
        source: Register::Ipl,
    };
    assert_eq!(rt; decode(0x0D_A08F), Ok(shift));
    assert_eq!(rt; decode(0x0D_AF8F), Ok(shift));
    assert_eq!(rt; encode(shift), Ok(0x0D_AF8F));
}

#[test]
fn a_comparison_keeps_its_third_register(rt: HostRuntime) {
    let compare = Instruction::AluTwoSources {
        operation: Operation::Cmp,
        result: Register::R2,
        op1: Register::R1,
        op2: Register::R0,
    };
    assert_eq!(rt; encode(compare), Ok(0x0C_1EDC));
    assert_eq!(rt; decode(0x0C_1EDC), Ok(compare));
}

#[test]
fn steps_have_their_range(rt: HostRuntime) {
    let i0 = IndexRegister::I0;
    assert_eq!(rt;
        encode(moved_from(MemoryAddress::PreDecrement(i0, 128))),
        Ok(0x10_AE80)
    );
    assert_eq!(rt;
        encode(moved_from(MemoryAddress::PreDecrement(i0, 1))),
        Ok(0x10_AEFF)
    );
    assert_eq!(rt;
        decode(0x10_AE80),
        Ok(moved_from(MemoryAddress::PreDecrement(i0, 128)))
    );
    assert_eq!(rt;
        encode(moved_from(MemoryAddress::PostIncrement(i0, 127))),
        Ok(0x10_AE7F)
    );
    let range = Err(EncodeError::FieldRange);
    assert_eq!(rt;
        encode(moved_from(MemoryAddress::PreDecrement(i0, 0))),
        range
    );
    assert_eq!(rt;
        encode(moved_from(MemoryAddress::PreDecrement(i0, 129))),
        range
    );
    assert_eq!(rt;
        encode(moved_from(MemoryAddress::PostIncrement(i0, 128))),
        range
    );
}

#[test]
fn a_form_that_is_lacking_comes_before_a_field(rt: HostRuntime) {
    let test_memory = Instruction::AluMemory {
        operation: Operation::Tstb,
        register: Register::R0,
        source: MemoryAddress::PostIncrement(IndexRegister::I1, 200),
    };
    assert_eq!(rt; encode(test_memory), Err(EncodeError::NoSuchForm));
    assert_eq!(rt; EncodeError::NoSuchForm.number(), 31);
    assert_eq!(rt; EncodeError::FieldRange.number(), 32);
}

#[test]
fn what_is_no_instruction_is_refused(rt: HostRuntime) {
    // PMD, a division code that names nothing, a fixed bit that is zero, an operation code that names nothing
    for word in [0x0B_EFFF, 0x0B_BFF1, 0x20_FFFE, 0x0C_9000] {
        assert_eq!(rt; decode(word), Err(DecodeError::Reserved));
    }
    assert_eq!(rt; decode(0x3F_FFFF), Ok(Instruction::Nop));
    assert_eq!(rt; decode(0x40_0000), Err(DecodeError::TooWide));
    assert_eq!(rt; DecodeError::Reserved.number(), 25);
    assert_eq!(rt; DecodeError::TooWide.number(), 30);
}

#[test]
fn codes_go_both_ways_unless_they_name_nothing(rt: HostRuntime) {
    assert_eq!(rt; u32::from(Register::R3), 11);
    assert_eq!(rt; u32::from(IndexRegister::I2), 2);
    assert_eq!(rt; u32::from(Condition::Event), 7);
    assert_eq!(rt; u32::from(Division::By4), 12);
    assert_eq!(rt; Division::try_from(12), Ok(Division::By4));
    assert_eq!(rt; Division::try_from(1), Err(DecodeError::Reserved));
    assert_eq!(rt; u32::from(Operation::Shra), 16);
    assert_eq!(rt; Operation::try_from(16), Ok(Operation::Shra));
    assert_eq!(rt; Operation::try_from(9), Err(DecodeError::Reserved));
}
