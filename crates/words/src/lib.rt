// The words of the CoolRISC 816: instructions as types, and the way from a word to its instruction and back.
#![tactic(auto)]

pub mod addresses;
pub mod conditions;
pub mod decoder;
pub mod divisions;
pub mod encoder;
pub mod errors;
pub mod examples;
pub mod instructions;
mod notation;
pub mod operations;
pub mod registers;
mod rows;
#[cfg(test)]
mod tests;

pub use addresses::MemoryAddress;
pub use conditions::Condition;
pub use decoder::decode;
pub use divisions::Division;
pub use encoder::encode;
pub use errors::{DecodeError, EncodeError};
pub use examples::worked_examples;
pub use instructions::{Instruction, Target};
pub use operations::{Form, Operation};
pub use registers::{IndexRegister, Register};
