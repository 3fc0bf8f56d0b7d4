//! The find-or-add table: one number for equal entries, for every kind of entry.
ghost use Rattle.std.specs.Prelude.{◌≡◌, ℕ, ◌≤◌, length, take};
ghost use Rattle.table.specs.Lists.{Exact, Distinct};
ghost use Rattle.table.specs.Found.{Looked, FoundOrAdded};

/// The first `len` of the lent rows are the entries of the table, numbered by their places.
// Rows and a count: the rows are the caller's, and nothing is allocated.
#[derive(Drop)]
pub struct Table<'a, E> {
    rows: &'a mut [E],
    len: usize,
    ghost held: { len ≤ length rows.now },
}

/// The number of the row that equals `e`, if there is one.
// That equality is exact is asked of each caller: the bound is equality alone.
pub fn find<E: PartialEq>(rows: &[E], e: &E) -> Option<usize>
    requires { Exact (λ x' y' r'. r' ≡ E.PartialEq.eq x' y') }
    ensures { Looked rows.now e.now result }
{
    rows.iter().position(|row| *row == *e)
}

impl<'a, E: PartialEq + Copy> Table<'a, E> {
    /// The table whose entries are the first `len` rows.
    pub fn new(rows: &'a mut [E], len: usize) -> Table<'a, E>
        requires { len ≤ length rows.old }
        ensures len { result.len ≡ len }
        ensures rows { result.rows.now ≡ rows.old }
        ensures lent { result.rows.ghost_name ≡ rows.entry.ghost_name }
    {
        Table { rows, len }
    }

    /// How many entries there are.
    pub fn len(&self) -> usize
        ensures { result ≡ self.now.len }
    {
        self.len
    }

    /// The number of the entry that equals `e`, or of `e` added at the end; none where it is not there and every row is in use.
    pub fn find_or_add(&mut self, e: E) -> Option<usize>
        requires exact { Exact (λ x' y' r'. r' ≡ E.PartialEq.eq x' y') }
        ensures lent { self.new.rows.ghost_name ≡ self.old.rows.ghost_name }
        ensures found { FoundOrAdded self.old.rows.now self.old.len e result self.new.rows.now self.new.len }
        ensures distinct { Distinct (take self.old.len self.old.rows.now) → Distinct (take self.new.len self.new.rows.now) }
    {
        let len = self.len;
        let rows = &mut *self.rows;
        if let Some(i) = find(&rows[0..len], &e) {
            return Some(i);
        }
        if len == rows.len() {
            return None;
        }
        rows[len] = e;
        self.len = len + 1;
        Some(len)
    }
}
