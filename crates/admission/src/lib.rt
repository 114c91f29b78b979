// Judges a program by its depth table, before a core runs it.
#![tactic(auto)]

mod candidate;
mod chain;
mod entries;
pub mod faults;
mod gate;
mod instructions;
mod kinds;
mod lines;
mod placed;
mod records;
mod roles;
pub mod rules;
mod table;

pub use faults::{Breach, Fault};
pub use gate::admit;
pub use rules::{LineRule, RecordRule, Rule};
