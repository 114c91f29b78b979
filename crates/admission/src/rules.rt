// The thirteen rules that an admitted program keeps.
ghost use Rattle.std.specs.Prelude.{◌≡◌};
ghost use Rattle.admission.specs.Refusals.{rule_number};

// Rules that each chained record keeps.
#[derive(Clone, Copy, PartialEq, Eq, Debug)]
pub enum RecordRule {
    // the kind is one of the four, and the need at most 16
    Kinds,
    // the entry is in the program, and its line is the first of the record's own
    EntryLines,
}

// Rules that each line keeps, but for those of words that are never run.
#[derive(Clone, Copy, PartialEq, Eq, Debug)]
pub enum LineRule {
    // a chained record owns it, at a height up to its need
    Owner,
    // the word is an instruction, and says where it leads
    Word,
    // POP and returns fit the height and the kind
    StackUse,
    // the words that may be run next have the same owner, and the height that is left
    Successors,
    // a CALL goes to a routine that may be called, and for which there are words enough
    Callee,
    // stat is written only where that is allowed
    StatWrite,
}

#[derive(Clone, Copy, PartialEq, Eq, Debug)]
pub enum Rule {
    // the core description is in its limits
    Description,
    // the table has 4R + 1 numbers, R from 1 to 255, and there is a line for each word
    Sizes,
    // the chain goes up through the records
    Chain,
    Record(RecordRule),
    // one background that is entered at 0, and three interrupt routines at the vectors
    Entries,
    Line(LineRule),
    // the stack holds the background's words, a return address, and any interrupt routine's words
    Depth,
}

impl Rule {
    // The number under which a break is logged.
    pub fn number(self) -> u16
        ensures { result ≡ rule_number self }
    {
        match self {
            Rule::Description => 1,
            Rule::Sizes => 2,
            Rule::Chain => 3,
            Rule::Record(RecordRule::Kinds) => 4,
            Rule::Entries => 5,
            Rule::Record(RecordRule::EntryLines) => 6,
            Rule::Line(LineRule::Owner) => 7,
            Rule::Line(LineRule::Word) => 8,
            Rule::Line(LineRule::StackUse) => 9,
            Rule::Line(LineRule::Successors) => 10,
            Rule::Line(LineRule::Callee) => 11,
            Rule::Line(LineRule::StatWrite) => 12,
            Rule::Depth => 13,
        }
    }
}
