// The rules of records, at each record that the chain reaches.
ghost use Rattle.std.specs.Prelude.{◌≡◌, ℕ, ◌+◌, not, [], ◌∷◌, length, Ok};
ghost use Rattle.platform.specs.Lowest.{lowest};
ghost use Rattle.admission.specs.Admission.{checked};
ghost use Rattle.admission.specs.Tables.{records};
ghost use Rattle.admission.specs.Tests.{record_test, record_sound};
ghost use Rattle.admission.specs.Views.{table_in, lines_in, program_in};
ghost use Rattle.admission.specs.declared.rules.Rule.TheVariants.{Record};

use crate::candidate::Candidate;
use crate::faults::{Breach, Fault};
use crate::rules::{RecordRule, Rule};

impl Candidate<'_, '_> {
    fn keeps(&self, rule: RecordRule, index: u16) -> bool
        ensures { result ≡ record_test rule (length (lines_in self.now)) (table_in self.now.chain) (lines_in self.now) index }
    {
        let table = self.chain.table;
        match rule {
            RecordRule::Kinds => table.kind(index).is_some() && table.need(index) <= 16,
            RecordRule::EntryLines => {
                let entry = table.entry(index);
                entry < self.word_count() && u32::from(self.line(entry)) == 32 * u32::from(index)
            }
        }
    }

    // The lowest chained record that breaks the rule.
    fn first_breaking(&self, rule: RecordRule) -> Option<u16>
        ensures { result ≡ lowest (λ k. not (record_sound rule (length (lines_in self.now)) (table_in self.now.chain) (lines_in self.now) k)) (records (table_in self.now.chain) + 1) }
    {
        self.chain.indices().find(|&index| self.chain.reaches(index) && !self.keeps(rule, index))
    }

    pub(crate) fn check_records(&self, rule: RecordRule) -> Result<(), Fault>
        ensures { (word : ℕ → ℕ) → result ≡ checked (Record rule ∷ []) (program_in self.now word) (Ok tt) }
    {
        match self.first_breaking(rule) {
            Some(place) => Err(Fault {
                breach: Breach::Broken(Rule::Record(rule)),
                place,
            }),
            None => Ok(()),
        }
    }
}
