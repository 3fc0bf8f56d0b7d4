//! The members of a set, one by one.
ghost use Rattle.std.specs.Prelude.{◌≡◌};
ghost use Rattle.std.specs.Iterator.{item_count};
ghost use Rattle.table.specs.Sets.{members, members_left, WalkStep};

use crate::numbers::Number;
use crate::sets::NumberSet;
use std::marker::Model;

/// The members of a set from one number on, lowest first, seen as a walk over the set's row. In the invariant of a loop `for item in set.iter()` the walk is
/// `l.item-iterator` (named for the loop's variable): its `words` stay the set's row, and the members below its `from` were given.
#[derive(Drop)]
pub struct Members<'a, N> {
    set: &'a NumberSet<N>,
    from: u16,
}

impl<'a, N> Model for Members<'a, N> {
    ghost use Rattle.table.specs.Sets.{Walk};

    ghost Value = { Walk };

    ghost view = { λ it. record { words = it.set.now.words; from = it.from } };
}

impl<'a, N: Number> Iterator for Members<'a, N> {
    type Item = N;

    ghost next_gives = { WalkStep N.Number.value };

    ghost remaining = { item_count members_left };

    fn next(&mut self) -> Option<N> {
        let n = self.set.next_member(self.from)?;
        self.from = n.index() as u16 + 1;
        Some(n)
    }
}

impl<N: Number> NumberSet<N> {
    /// The members, lowest first.
    pub fn iter(&self) -> Members<'_, N>
        ensures all { members_left result ≡ members self.now.words }
        ensures walk { result ≡ record { words = self.now.words; from = 0 } }
    {
        Members { set: self, from: 0 }
    }
}

impl<'a, N: Number> IntoIterator for &'a NumberSet<N> {
    type Item = N;

    type IntoIter = Members<'a, N>;

    ghost into_iter_gives = { λ s r. (members_left r ≡ members s.now.words) × (r ≡ record { words = s.now.words; from = 0 }) };

    fn into_iter(self) -> Members<'a, N> {
        self.iter()
    }
}
