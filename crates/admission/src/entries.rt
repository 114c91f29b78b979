// One background that is entered at 0, and three interrupt routines that are entered at the vectors.
ghost use Rattle.std.specs.Prelude.{◌≡◌};
ghost use Rattle.admission.specs.Roles.{in_role, found, stray, strays, roles_of, deepest};
ghost use Rattle.admission.specs.Views.{table_in};

use crate::chain::Chain;
use crate::kinds::Kind;
use crate::roles::Roles;

impl Chain<'_> {
    // Whether a chained record has that kind and that entry.
    fn is_in_role(&self, kind: Kind, entry: u16, index: u16) -> bool
        ensures { result ≡ in_role (table_in self.now) kind entry index }
    {
        self.reaches(index)
            && self.table.kind(index) == Some(kind)
            && self.table.entry(index) == entry
    }

    // Whether a chained record is another background or interrupt routine than these.
    fn is_stray(&self, roles: Roles, index: u16) -> bool
        ensures { result ≡ stray (table_in self.now) roles index }
    {
        self.reaches(index)
            && match self.table.kind(index) {
                Some(Kind::Background) => index != roles.background,
                Some(Kind::Interrupt) => !roles.levels.contains(&index),
                _ => false,
            }
    }

    fn find(&self, kind: Kind, entry: u16) -> Option<u16>
        ensures { result ≡ found (table_in self.now) kind entry }
    {
        self.indices()
            .find(|&index| self.is_in_role(kind, entry, index))
    }

    fn has_stray(&self, roles: Roles) -> bool
        ensures { result ≡ strays (table_in self.now) roles }
    {
        self.indices().any(|index| self.is_stray(roles, index))
    }

    pub(crate) fn roles(&self, vectors: [u16; 3]) -> Option<Roles>
        ensures { result ≡ roles_of vectors (table_in self.now) }
    {
        let [vector0, vector1, vector2] = vectors;
        let background = self.find(Kind::Background, 0)?;
        let level0 = self.find(Kind::Interrupt, vector0)?;
        let level1 = self.find(Kind::Interrupt, vector1)?;
        let level2 = self.find(Kind::Interrupt, vector2)?;
        let roles = Roles {
            background,
            levels: [level0, level1, level2],
        };
        (!self.has_stray(roles)).then_some(roles)
    }

    // The background's need, the word that an entry pushes, and the largest need of an interrupt routine.
    pub(crate) fn deepest(&self, roles: Roles) -> u32
        ensures { result ≡ deepest (table_in self.now) roles }
    {
        let [level0, level1, level2] = roles.levels;
        let others = self.table.need(level1).max(self.table.need(level2));
        let largest = self.table.need(level0).max(others);
        u32::from(self.table.need(roles.background)) + 1 + u32::from(largest)
    }
}
