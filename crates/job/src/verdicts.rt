// What is said of a job, and the one line that says it.
ghost use Rattle.std.specs.Prelude.{◌≡◌, Some, IfOk, string_bytes};
ghost use Rattle.job.specs.Refusals.{refusal_number, refusal_place};
ghost use Rattle.job.specs.Verdicts.{refusal_text, verdict_line};
ghost use Rattle.job.specs.declared.verdicts.Refusal.TheVariants.{Store, Rule};

use admission::Fault;
use platform::StoreError;
use std::alloc::{AllocError, Global};
use std::fmt;

#[derive(Clone, Copy, PartialEq, Eq, Debug)]
pub enum Refusal {
    // the bytes are not as many as a job has
    Length,
    // the words are no program store
    Store(StoreError),
    // the program breaks a rule
    Rule(Fault),
}

impl From<StoreError> for Refusal {
    ghost from_gives = { λ error refusal. refusal ≡ Store error };

    fn from(error: StoreError) -> Self {
        Self::Store(error)
    }
}

impl From<Fault> for Refusal {
    ghost from_gives = { λ fault refusal. refusal ≡ Rule fault };

    fn from(fault: Fault) -> Self {
        Self::Rule(fault)
    }
}

impl Refusal {
    // The number under which it is logged.
    pub fn number(self) -> u16
        ensures { result ≡ refusal_number self }
    {
        match self {
            Refusal::Length => 33,
            Refusal::Store(error) => error.number(),
            Refusal::Rule(fault) => fault.breach.number(),
        }
    }

    // The place under which it is logged.
    pub fn place(self) -> u16
        ensures { result ≡ refusal_place self }
    {
        match self {
            Refusal::Length => 0,
            Refusal::Store(error) => error.place(),
            Refusal::Rule(fault) => fault.place,
        }
    }
}

impl fmt::Display for Refusal {
    ghost output = { λ refusal. Some (refusal_text refusal) };

    fn fmt<W: fmt::Write>(&self, f: &mut fmt::Formatter<W>) -> fmt::Result {
        write!(f, "refused {} at {}", self.number(), self.place())
    }
}

// How many words deep the stack of an admitted program gets, or why it is refused.
pub type Verdict = Result<u16, Refusal>;

// The line that says it, with its end.
pub fn verdict_line(verdict: Verdict, heap: Global) -> Result<String, AllocError>
    ensures { IfOk result (λ text. string_bytes text ≡ verdict_line verdict) }
{
    match verdict {
        Ok(depth) => format!(in heap; "admitted {depth}\n"),
        Err(refusal) => format!(in heap; "{refusal}\n"),
    }
}
