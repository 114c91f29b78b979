// The chain of records, walked once.
ghost use Rattle.std.specs.Prelude.{◌≡◌, ◌+◌, Some, None, MatchResult};
ghost use Rattle.admission.specs.Chain.{chained, Marks, broken_link};
ghost use Rattle.admission.specs.Tables.{records};
ghost use Rattle.admission.specs.declared.faults.Breach.TheVariants.{Broken};
ghost use Rattle.admission.specs.declared.rules.Rule.TheVariants.{Chain as ChainRule};

use crate::faults::{Breach, Fault};
use crate::rules::Rule;
use crate::table::Table;
use std::ops::Range;

// The table, with the records marked that the chain reaches.
#[derive(Drop)]
pub(crate) struct Chain<'a> {
    pub(crate) table: Table<'a>,
    // one for each index from 0 to 255
    marks: [bool; 256],
    ghost marked: { Marks table.numbers.now marks },
}

impl<'a> Chain<'a> {
    // Marks what the chain reaches, or says where it breaks.
    pub(crate) fn walk(table: Table<'a>) -> Result<Chain<'a>, Fault>
        ensures { MatchResult result (λ chain. (chain.table.numbers.now ≡ table.entry.numbers.now) × (broken_link table.entry.numbers.now ≡ None)) (λ f. (f.breach ≡ Broken ChainRule) × (broken_link table.entry.numbers.now ≡ Some f.place)) }
    {
        let mut marks = [false; 256];
        let mut index = 0;
        loop {
            let next = table.next(index);
            if next == 0 && index != 0 {
                return Ok(Chain { table, marks });
            }
            if next <= index || next > table.records() {
                return Err(Fault {
                    breach: Breach::Broken(Rule::Chain),
                    place: index,
                });
            }
            marks[usize::from(next)] = true;
            index = next;
        }
    }

    pub(crate) fn reaches(&self, index: u16) -> bool
        ensures { result ≡ chained self.now.table.numbers.now index }
    {
        index < 256 && self.marks[usize::from(index)]
    }

    // From 0, where the chain begins, up to the last record.
    pub(crate) fn indices(&self) -> Range<u16>
        ensures { result ≡ record { start = 0; end = records self.now.table.numbers.now + 1 } }
    {
        0..self.table.records() + 1
    }
}
