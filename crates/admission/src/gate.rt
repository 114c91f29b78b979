// The gate in front of a core: all rules in their order.
ghost use Rattle.std.specs.Prelude.{◌≡◌, length, Ok};
ghost use Rattle.admission.specs.Admission.{roles, depth_of, checked, admission};
ghost use Rattle.admission.specs.Laws.{Judges};
ghost use Rattle.admission.specs.Program.{program};
ghost use Rattle.admission.specs.Refusals.{later_rules};
ghost use Rattle.admission.specs.Tests.{sized};
ghost use Rattle.admission.specs.Views.{table_in, program_in};
ghost use Rattle.admission.specs.declared.faults.Breach.TheVariants.{Broken};

use crate::candidate::Candidate;
use crate::chain::Chain;
use crate::faults::{Breach, Fault};
use crate::rules::{RecordRule, Rule};
use crate::table::Table;
use platform::{CoreDescription, Store};

// The fault of a rule that has no places.
fn fault_of(rule: Rule) -> Fault
    ensures { result ≡ record { breach = Broken rule; place = 0 } }
{
    Fault {
        breach: Breach::Broken(rule),
        place: 0,
    }
}

// A table of 4R + 1 numbers with R from 1 to 255, and a line for each word.
fn has_sizes(count: u16, table: &[u16], lines: &[u16]) -> bool
    ensures { result ≡ sized count table.now lines.now }
{
    table.len() % 4 == 1
        && (1..=255).contains(&(table.len() / 4))
        && lines.len() == usize::from(count)
}

impl Candidate<'_, '_> {
    // The rules that come after the chain.
    fn judge<S: Store>(&self, store: &S) -> Result<u16, Fault>
        requires { length self.now.lines.now ≡ S.Store.count store.now }
        ensures { result ≡ checked later_rules (program_in self.now (S.Store.word store.now)) (Ok (depth_of (table_in self.now.chain) (roles (program_in self.now (S.Store.word store.now))))) }
    {
        self.check_records(RecordRule::Kinds)?;
        let roles = self
            .chain
            .roles(self.description.vectors)
            .ok_or(fault_of(Rule::Entries))?;
        self.check_records(RecordRule::EntryLines)?;
        self.check_all_lines(store)?;
        let deepest = self.chain.deepest(roles);
        if deepest > u32::from(self.description.depth) {
            return Err(fault_of(Rule::Depth));
        }
        Ok(deepest as u16)
    }
}

// The first rule that the program breaks, at its lowest place; or, if it breaks none, how many words the stack gets deep.
pub fn admit<S: Store>(
    description: CoreDescription,
    store: &S,
    table: &[u16],
    lines: &[u16],
) -> Result<u16, Fault>
    ensures value { result ≡ admission (program description (S.Store.count store.now) (S.Store.word store.now) table.now lines.now) }
    ensures judges { Judges (program description (S.Store.count store.now) (S.Store.word store.now) table.now lines.now) result }
{
    if !description.is_in_limits() {
        return Err(fault_of(Rule::Description));
    }
    if !has_sizes(store.word_count(), table, lines) {
        return Err(fault_of(Rule::Sizes));
    }
    let chain = Chain::walk(Table { numbers: table })?;
    let candidate = Candidate {
        description,
        chain,
        lines,
    };
    candidate.judge(store)
}
