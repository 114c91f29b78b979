// The rules of lines, one after the other over all lines.
ghost use Rattle.std.specs.Prelude.{◌≡◌, ◌<◌, [], ◌∷◌, length, Ok};
ghost use Rattle.words.specs.Decoding.{decoded};
ghost use Rattle.admission.specs.Admission.{checked};
ghost use Rattle.admission.specs.Instructions.{flow};
ghost use Rattle.admission.specs.Refusals.{line_rules};
ghost use Rattle.admission.specs.Tests.{owner_sound, leads, next_sound, target_sound, callee_sound, call_sound, instruction_sound, unless, word_checked, owned_checked, line_checked};
ghost use Rattle.admission.specs.Views.{table_in, lines_in, program_in};
ghost use Rattle.admission.specs.declared.rules.Rule.TheVariants.{Line};

use crate::candidate::Candidate;
use crate::faults::{Breach, Fault};
use crate::instructions::{
    call_target, goes_on, is_permitted, jump_target, may_call, moves_height, stack_is_sound,
    stat_is_sound,
};
use crate::placed::Placed;
use crate::rules::{LineRule, Rule};
use platform::Store;
use words::decode;

// The word at an address. Nothing else here fetches, so no word is asked for that the store does not have.
fn word_at<S: Store>(store: &S, address: u16) -> u32
    requires { address < S.Store.count store.now }
    ensures { result ≡ S.Store.word store.now address }
{
    store.fetch(address)
}

fn break_unless(sound: bool, rule: LineRule) -> Result<(), Breach>
    ensures { result ≡ unless sound rule }
{
    if sound {
        Ok(())
    } else {
        Err(Breach::Broken(Rule::Line(rule)))
    }
}

// The word is an instruction, and one that says where it leads.
fn check_word(word: u32) -> Result<(), Breach>
    ensures { result ≡ word_checked (decoded word) }
{
    let instruction = decode(word)?;
    break_unless(is_permitted(instruction), LineRule::Word)
}

impl Candidate<'_, '_> {
    fn owner_is_sound(&self, address: u16) -> bool
        ensures { result ≡ owner_sound (table_in self.now.chain) (lines_in self.now) address }
    {
        let owner = self.owner(address);
        self.chain.reaches(owner) && self.height(address) <= self.chain.table.need(owner)
    }

    // To a word that has the same owner, and the height that is left.
    fn leads(&self, from: Placed, to: u16) -> bool
        ensures { result ≡ leads (length (lines_in self.now)) (lines_in self.now) (flow from.instruction) from.address to }
    {
        to < self.word_count()
            && self.owner(to) == self.owner(from.address)
            && moves_height(from.instruction, self.height(from.address), self.height(to))
    }

    // The next word, if it may be run after this one.
    fn next_is_sound(&self, placed: Placed) -> bool
        ensures { result ≡ next_sound (length (lines_in self.now)) (lines_in self.now) (flow placed.instruction) placed.address }
    {
        !goes_on(placed.instruction)
            || (placed.address < self.word_count() && self.leads(placed, placed.address + 1))
    }

    // The word that a jump goes to.
    fn target_is_sound(&self, placed: Placed) -> bool
        ensures { result ≡ target_sound (length (lines_in self.now)) (lines_in self.now) (flow placed.instruction) placed.address }
    {
        match jump_target(placed.instruction) {
            Some(target) => self.leads(placed, target),
            None => true,
        }
    }

    // What a CALL goes to.
    fn call_is_sound(&self, placed: Placed) -> bool
        ensures { result ≡ call_sound (table_in self.now.chain) (lines_in self.now) (flow placed.instruction) placed.address }
    {
        match call_target(placed.instruction) {
            Some(target) => self.callee_is_sound(placed.address, target),
            None => true,
        }
    }

    // What is entered at the target may be called from here, and there are words enough for it.
    fn callee_is_sound(&self, address: u16, target: u16) -> bool
        ensures { result ≡ callee_sound (table_in self.now.chain) (lines_in self.now) address target }
    {
        let table = self.chain.table;
        let caller = self.owner(address);
        let callee = self.owner(target);
        let words = u32::from(self.height(address)) + 1 + u32::from(table.need(callee));
        self.chain.reaches(callee)
            && table.entry(callee) == target
            && may_call(table.kind(caller), table.kind(callee))
            && words <= u32::from(table.need(caller))
    }

    fn instruction_is_sound(&self, rule: LineRule, placed: Placed) -> bool
        ensures { result ≡ instruction_sound rule (length (lines_in self.now)) (table_in self.now.chain) (lines_in self.now) placed.instruction placed.address }
    {
        let kind = self.chain.table.kind(self.owner(placed.address));
        match rule {
            LineRule::Owner | LineRule::Word => true,
            LineRule::StackUse => {
                stack_is_sound(placed.instruction, kind, self.height(placed.address))
            }
            LineRule::Successors => self.next_is_sound(placed) && self.target_is_sound(placed),
            LineRule::Callee => self.call_is_sound(placed),
            LineRule::StatWrite => stat_is_sound(placed.instruction, kind),
        }
    }

    // What is wrong with the word at an address by one rule, if anything is. Only the rule on words has something to say of a
    // word that is no instruction.
    fn check_line(&self, rule: LineRule, address: u16, word: u32) -> Result<(), Breach>
        ensures { result ≡ line_checked rule (length (lines_in self.now)) (table_in self.now.chain) (lines_in self.now) word address }
    {
        if self.line(address) == 0 {
            return Ok(());
        }
        match rule {
            LineRule::Owner => break_unless(self.owner_is_sound(address), rule),
            LineRule::Word => check_word(word),
            _ => match decode(word) {
                Ok(instruction) => {
                    let placed = Placed {
                        instruction,
                        address,
                    };
                    break_unless(self.instruction_is_sound(rule, placed), rule)
                }
                Err(_) => Ok(()),
            },
        }
    }

    // A rule of lines, at each line.
    fn check_lines<S: Store>(&self, rule: LineRule, store: &S) -> Result<(), Fault>
        requires { length self.now.lines.now ≡ S.Store.count store.now }
        ensures { result ≡ checked (Line rule ∷ []) (program_in self.now (S.Store.word store.now)) (Ok tt) }
    {
        for index in 0..self.lines.len() {
            let address = index as u16;
            self.check_line(rule, address, word_at(store, address))
                .map_err(|breach| Fault {
                    breach,
                    place: address,
                })?;
        }
        Ok(())
    }

    pub(crate) fn check_all_lines<S: Store>(&self, store: &S) -> Result<(), Fault>
        requires { length self.now.lines.now ≡ S.Store.count store.now }
        ensures { result ≡ checked line_rules (program_in self.now (S.Store.word store.now)) (Ok tt) }
    {
        self.check_lines(LineRule::Owner, store)?;
        self.check_lines(LineRule::Word, store)?;
        self.check_lines(LineRule::StackUse, store)?;
        self.check_lines(LineRule::Successors, store)?;
        self.check_lines(LineRule::Callee, store)?;
        self.check_lines(LineRule::StatWrite, store)
    }
}
