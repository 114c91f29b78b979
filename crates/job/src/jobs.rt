// A job taken apart.
ghost use Rattle.std.specs.Prelude.{◌≡◌, ◌/◌, ◌≤◌, length, is_ok, IfOk, IfErr};
ghost use Rattle.job.specs.Jobs.{well_sized, description_in, word_bytes, table_bytes, line_bytes};
ghost use Rattle.job.specs.declared.jobs.TheConstants.{MOST_NUMBERS, MOST_LINES};

use crate::numbers::number_at;
use crate::verdicts::Refusal;
use platform::CoreDescription;

// The most bytes that a job has.
pub const LONGEST: usize = 43_014;

// The bytes of the six numbers that it begins with.
const HEADER: usize = 12;

// What is left after them is at most so many numbers of a table, or so many words with their lines.
pub(crate) const MOST_NUMBERS: usize = (LONGEST - HEADER) / 2;

pub(crate) const MOST_LINES: usize = (LONGEST - HEADER) / 5;

#[derive(Clone, Copy)]
pub(crate) struct Job<'a> {
    pub(crate) description: CoreDescription,
    pub(crate) words: &'a [u8],
    pub(crate) table: &'a [u8],
    pub(crate) lines: &'a [u8],
    ghost table_fits: { length table.now / 2 ≤ MOST_NUMBERS },
    ghost lines_fit: { length lines.now / 2 ≤ MOST_LINES },
}

fn description_in(job: &[u8]) -> CoreDescription
    requires { HEADER ≤ length job.now }
    ensures { result ≡ description_in job.now }
{
    CoreDescription {
        depth: number_at(job, 2),
        vectors: [number_at(job, 4), number_at(job, 6), number_at(job, 8)],
    }
}

impl<'a> Job<'a> {
    // The parts of a job that is as long as its counts say, and no longer than 8,192 words and 255 records take.
    pub(crate) fn read(job: &'a [u8]) -> Result<Job<'a>, Refusal>
        ensures variant { is_ok result ≡ well_sized job.now }
        ensures error { IfErr result (λ refusal. refusal ≡ Refusal.Length) }
        ensures description { IfOk result (λ parts. parts.description ≡ description_in job.now) }
        ensures words { IfOk result (λ parts. parts.words.now ≡ word_bytes job.now) }
        ensures table { IfOk result (λ parts. parts.table.now ≡ table_bytes job.now) }
        ensures lines { IfOk result (λ parts. parts.lines.now ≡ line_bytes job.now) }
    {
        if job.len() < HEADER || job.len() > LONGEST {
            return Err(Refusal::Length);
        }
        let words = usize::from(number_at(job, 0));
        let numbers = usize::from(number_at(job, 10));
        let table = HEADER + 3 * words;
        let lines = table + 2 * numbers;
        if job.len() != lines + 2 * words {
            return Err(Refusal::Length);
        }
        Ok(Job {
            description: description_in(job),
            words: &job[HEADER..table],
            table: &job[table..lines],
            lines: &job[lines..],
        })
    }
}
