// What is said of a job.
ghost use Rattle.std.specs.Prelude.{◌≡◌, ◌/◌, true, length, is_ok};
ghost use Rattle.platform.specs.Stores.{formed, bytes_tested};
ghost use Rattle.admission.specs.Admission.{admission};
ghost use Rattle.admission.specs.Program.{program};
ghost use Rattle.job.specs.Jobs.{numbers, verdict_of};
ghost use Rattle.job.specs.Laws.{Says};

use crate::jobs::{Job, MOST_LINES, MOST_NUMBERS};
use crate::numbers::numbers_of;
use crate::verdicts::Verdict;
use admission::{Fault, admit};
use platform::ByteStore;

impl Job<'_> {
    // What the rules say of a job whose words are a store.
    fn check_rules(&self) -> Result<u16, Fault>
        requires { is_ok (bytes_tested self.now.words.now) ≡ true }
        ensures { let words = self.now.words.now in
            let table = numbers self.now.table.now in
            let lines = numbers self.now.lines.now in
            result ≡ admission (program self.now.description (length words / 3) (formed words) table lines) }
    {
        let store = ByteStore::new(self.words);
        let table = numbers_of::<MOST_NUMBERS>(self.table);
        let lines = numbers_of::<MOST_LINES>(self.lines);
        admit(self.description, &store, table.as_slice(), lines.as_slice())
    }
}

// Whether the length is a job's, then whether the words are a store, and then the rules.
pub fn judge(job: &[u8]) -> Verdict
    ensures value { result ≡ verdict_of job.now }
    ensures says { Says job.now result }
{
    let parts = Job::read(job)?;
    ByteStore::test(parts.words)?;
    Ok(parts.check_rules()?)
}
