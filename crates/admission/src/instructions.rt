// What the rules ask of an instruction.
ghost use Rattle.std.specs.Prelude.{◌≡◌};
ghost use Rattle.admission.specs.Instructions.{flow, permitted, goes_on, jump_target, call_target, direct, result_in, destination};
ghost use Rattle.admission.specs.Tests.{stack_sound, moves, may_call, stat_sound};

use crate::kinds::Kind;
use words::{Condition, Instruction, Operation, Register, Target};

// No CALLS, and no jump or call through ip: where these lead, the word does not say.
pub(crate) fn is_permitted(instruction: Instruction) -> bool
    ensures { result ≡ permitted (flow instruction) }
{
    match instruction {
        Instruction::Calls(_) => false,
        Instruction::Call(Target::Ip) => false,
        Instruction::Jump(_, Target::Ip) => false,
        _ => true,
    }
}

// Whether POP and returns fit the kind of routine and the height.
pub(crate) fn stack_is_sound(instruction: Instruction, kind: Option<Kind>, height: u16) -> bool
    ensures { result ≡ stack_sound (flow instruction) kind height }
{
    match instruction {
        Instruction::Pop => height >= 1,
        Instruction::Ret => matches!(kind, Some(Kind::Quiet | Kind::Open)) && height == 0,
        Instruction::Reti => matches!(kind, Some(Kind::Interrupt)) && height == 0,
        _ => true,
    }
}

// Whether the next word may be run after this one.
pub(crate) fn goes_on(instruction: Instruction) -> bool
    ensures { result ≡ goes_on (flow instruction) }
{
    match instruction {
        Instruction::Jump(Condition::Always, _) => false,
        Instruction::Ret | Instruction::Reti => false,
        _ => true,
    }
}

fn direct_address(target: Target) -> Option<u16>
    ensures { result ≡ direct target }
{
    match target {
        Target::Address(address) => Some(address),
        Target::Ip => None,
    }
}

// Where a jump goes, on any condition.
pub(crate) fn jump_target(instruction: Instruction) -> Option<u16>
    ensures { result ≡ jump_target (flow instruction) }
{
    match instruction {
        Instruction::Jump(_, target) => direct_address(target),
        _ => None,
    }
}

// Where a CALL goes.
pub(crate) fn call_target(instruction: Instruction) -> Option<u16>
    ensures { result ≡ call_target (flow instruction) }
{
    match instruction {
        Instruction::Call(target) => direct_address(target),
        _ => None,
    }
}

// Whether the instruction turns one height into the other.
pub(crate) fn moves_height(instruction: Instruction, before: u16, after: u16) -> bool
    ensures { result ≡ moves (flow instruction) before after }
{
    match instruction {
        Instruction::Push => u32::from(after) == u32::from(before) + 1,
        Instruction::Pop => u32::from(after) + 1 == u32::from(before),
        _ => after == before,
    }
}

// Kinds 2 and 4 can be called, by kinds 2 and 3 only kind 2.
pub(crate) fn may_call(caller: Option<Kind>, callee: Option<Kind>) -> bool
    ensures { result ≡ may_call caller callee }
{
    match callee {
        Some(Kind::Quiet) => true,
        Some(Kind::Open) => !matches!(caller, Some(Kind::Quiet | Kind::Interrupt)),
        _ => false,
    }
}

// The register that the result of an operation goes to; comparisons and the test of a bit have none.
fn result_register(operation: Operation, register: Register) -> Option<Register>
    ensures { result ≡ result_in operation register }
{
    match operation {
        Operation::Cmp | Operation::Cmpa | Operation::Tstb => None,
        _ => Some(register),
    }
}

// The destination register, which the conditional moves have too.
fn destination_register(instruction: Instruction) -> Option<Register>
    ensures { result ≡ destination instruction }
{
    match instruction {
        Instruction::AluMemory {
            operation,
            register,
            ..
        }
        | Instruction::AluImmediate {
            operation,
            register,
            ..
        }
        | Instruction::AluOneSource {
            operation,
            result: register,
            ..
        }
        | Instruction::AluTwoSources {
            operation,
            result: register,
            ..
        } => result_register(operation, register),
        _ => None,
    }
}

// stat is a destination in kinds 1 and 4 alone.
pub(crate) fn stat_is_sound(instruction: Instruction, kind: Option<Kind>) -> bool
    ensures { result ≡ stat_sound instruction kind }
{
    match destination_register(instruction) {
        Some(Register::Stat) => matches!(kind, Some(Kind::Background | Kind::Open)),
        _ => true,
    }
}
