// A job: a program with its core description and depth table, as bytes, and what is said of it.
#![tactic(auto)]

pub mod examples;
mod jobs;
mod judging;
mod numbers;
pub mod verdicts;

pub use examples::{Example, nine_words};
pub use jobs::LONGEST;
pub use judging::judge;
pub use verdicts::{Refusal, Verdict, verdict_line};
