//! Entries in 4,096 places, numbered by their places.
ghost use Rattle.std.specs.Prelude.{◌≡◌, ℕ, ◌≤◌, [], ◌∷◌, length};
ghost use Rattle.table.specs.Found.{FoundOrAdded};
ghost use Rattle.table.specs.Lists.{Exact};
ghost use Rattle.policy.specs.Places.{Fixed, Placed, Placeable, EntryAt};

use table::entries::{Table, find};
use table::numbers::ClassNo;

/// The first `len` of the rows are the entries.
// Rows and a count: nothing is allocated, so a policy holds its table itself, at its full size.
#[derive(Drop)]
pub struct Places<E> {
    rows: [E; 4096],
    len: usize,
    ghost fixed: { Fixed rows len },
}

impl<E: Copy> Places<E> {
    ghost use Rattle.policy.specs.Entries.{entries};

    /// One entry, number 0.
    pub fn new(first: E) -> Places<E>
        ensures { entries result ≡ first ∷ [] }
    {
        Places {
            rows: [first; 4096],
            len: 1,
        }
    }

    /// Leaves one entry, number 0.
    pub fn clear(&mut self, first: E)
        ensures { entries self.new ≡ first ∷ [] }
    {
        self.rows[0] = first;
        self.len = 1;
    }

    /// The entry of this number.
    pub fn get(&self, class: ClassNo) -> Option<E>
        ensures { EntryAt (entries self.now) class.0 result }
    {
        self.rows[..self.len].get(class.0 as usize).copied()
    }
}

// That equality is exact is asked where entries are compared: the bound does not say it.
impl<E: PartialEq + Copy> Places<E> {
    ghost use Rattle.policy.specs.Entries.{entries};

    /// The number that `place` would give.
    pub fn look(&self, e: E) -> Option<ClassNo>
        requires exact { Exact (λ x' y' r'. r' ≡ E.PartialEq.eq x' y') }
        ensures { Placeable (entries self.now) e result }
    {
        if let Some(i) = find(&self.rows[..self.len], &e) {
            return Some(ClassNo(i as u16));
        }
        if self.len < 4096 {
            Some(ClassNo(self.len as u16))
        } else {
            None
        }
    }

    /// The number of the entry that equals `e`, or of `e` added at the end; none where it is not there and no place is free.
    pub fn place(&mut self, e: E) -> Option<ClassNo>
        requires exact { Exact (λ x' y' r'. r' ≡ E.PartialEq.eq x' y') }
        ensures { Placed (entries self.old) e result (entries self.new) }
    {
        let i = find_or_add(&mut self.rows, &mut self.len, e)?;
        Some(ClassNo(i as u16))
    }
}

/// Find-or-add in the table of the first `len` rows.
// A function over the slice: where an array of a type parameter is itself lent to the table, the proof does not see what the loan leaves in it.
fn find_or_add<E: PartialEq + Copy>(rows: &mut [E], len: &mut usize, e: E) -> Option<usize>
    requires exact { Exact (λ x' y' r'. r' ≡ E.PartialEq.eq x' y') }
    requires fit { len.old ≤ length rows.old }
    ensures { FoundOrAdded rows.old len.old e result rows.new len.new }
{
    let mut table = Table::new(rows, *len);
    let found = table.find_or_add(e);
    *len = table.len();
    found
}
