// The depth table, number by number.
ghost use Rattle.std.specs.Prelude.{◌≡◌, ◌-◌, ◌*◌, ◌≤◌, slice_index};
ghost use Rattle.admission.specs.Tables.{records, entry, kind, need, next};

use crate::kinds::Kind;

#[derive(Clone, Copy)]
pub(crate) struct Table<'a> {
    pub(crate) numbers: &'a [u16],
    ghost few: { records numbers.now ≤ 255 },
}

// What stands there, and 0 past the end.
pub(crate) fn number_at(numbers: &[u16], index: usize) -> u16
    ensures { result ≡ slice_index numbers.now index }
{
    numbers.get(index).copied().unwrap_or(0)
}

impl Table<'_> {
    pub(crate) fn records(&self) -> u16
        ensures { result ≡ records self.now.numbers.now }
    {
        (self.numbers.len() / 4) as u16
    }

    // The number that stands so many places before the end of a record.
    fn number(&self, index: u16, back: usize) -> u16
        ensures { result ≡ slice_index self.now.numbers.now (4 * index - back) }
    {
        number_at(self.numbers, (4 * usize::from(index)).saturating_sub(back))
    }

    // Where the routine begins.
    pub(crate) fn entry(&self, index: u16) -> u16
        ensures { result ≡ entry self.now.numbers.now index }
    {
        self.number(index, 3)
    }

    pub(crate) fn kind(&self, index: u16) -> Option<Kind>
        ensures { result ≡ kind self.now.numbers.now index }
    {
        Kind::try_from(self.number(index, 2)).ok()
    }

    // The most stack words that the routine and its calls use.
    pub(crate) fn need(&self, index: u16) -> u16
        ensures { result ≡ need self.now.numbers.now index }
    {
        self.number(index, 1)
    }

    // The index of the next record; what the table begins with counts as the next of 0.
    pub(crate) fn next(&self, index: u16) -> u16
        ensures { result ≡ next self.now.numbers.now index }
    {
        self.number(index, 0)
    }
}
