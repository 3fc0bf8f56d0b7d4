//! The table of jumps: the first jumps in their order, in whatever order they are found.
ghost use Rattle.std.specs.Prelude.{◌≡◌, ℕ, ◌+◌, ◌<◌, ◌≤◌, min, List, [], ◌∷◌, length, take, MatchResult};
ghost use Rattle.std.specs.List.{insert};
ghost use Rattle.table.specs.Lists.{StandsAt};
ghost use Rattle.flattening.specs.declared.jump.Jump.{Jump as JumpOf};

use crate::fault::JumpFault;
use crate::jump::Jump;

/// At most so many jumps are kept, however long the table is.
const MOST: usize = 16384;

/// The first `len` of the lent rows are the first jumps found, in order; `beyond` is the next one, which has no row.
// Each call says that the rows are still the caller's (`lent`): only by this does the caller learn what was written there.
// What the table keeps is no ghost field: which jumps were found is no part of the table, so each call names them.
// The limit stands beside the rows, and does not cut them: each clause `limit` would then speak of their length. Rows and a count: nothing is allocated.
#[derive(Drop)]
pub struct JumpTable<'a> {
    rows: &'a mut [Jump],
    limit: usize,
    len: usize,
    beyond: Option<Jump>,
    ghost limited: { limit ≤ length rows.now },
    ghost few: { len ≤ limit },
}

/// Shifts the rows from `at` on up by one, over the row `last`, and writes the jump where they began.
fn shift_in(rows: &mut [Jump], at: usize, last: usize, jump: Jump)
    requires { (at ≤ last) × (last < length rows.old) }
    ensures { take (last + 1) rows.new ≡ insert (take last rows.old) at jump }
{
    rows.copy_within(at..last, at + 1);
    rows[at] = jump;
}

impl<'a> JumpTable<'a> {
    ghost use Rattle.flattening.specs.Keeping.{Keeps, PastRows, New, Counted};

    /// The table over these rows, without a jump.
    pub fn new(rows: &'a mut [Jump]) -> JumpTable<'a>
        ensures limit { result.limit ≡ min (length rows.old) 16384 }
        ensures lent { result.rows.ghost_name ≡ rows.entry.ghost_name }
        ensures keeps { Keeps [] result }
    {
        let limit = rows.len().min(MOST);
        JumpTable {
            rows,
            limit,
            len: 0,
            beyond: None,
        }
    }

    /// The row that holds the jump, or the place where it belongs.
    fn find(&self, jump: Jump) -> Result<usize, usize>
        requires { (found : List JumpOf) × Keeps found self.now }
        ensures { MatchResult result (λ i. StandsAt (take self.now.len self.now.rows.now) i jump) (λ i. New self.now jump i) }
    {
        self.rows[..self.len].binary_search(&jump)
    }

    /// Remembers a jump that comes after all rows, if none that is remembered comes before it.
    fn pass(&mut self, jump: Jump)
        ensures lent { self.new.rows.ghost_name ≡ self.old.rows.ghost_name }
        ensures limit { self.new.limit ≡ self.old.limit }
        ensures keeps { (found : List JumpOf) → Keeps found self.old → PastRows self.old jump → Keeps (jump ∷ found) self.new }
    {
        self.beyond = Some(match self.beyond {
            Some(first) => first.min(jump),
            None => jump,
        });
    }

    /// Puts a jump in at its place; where every row is in use, the last one gives way.
    fn insert(&mut self, at: usize, jump: Jump)
        requires { (at ≤ self.old.len) × (at < self.old.limit) }
        ensures lent { self.new.rows.ghost_name ≡ self.old.rows.ghost_name }
        ensures limit { self.new.limit ≡ self.old.limit }
        ensures keeps { (found : List JumpOf) → Keeps found self.old → New self.old jump at → Keeps (jump ∷ found) self.new }
    {
        let len = self.len;
        if len < self.limit {
            shift_in(self.rows, at, len, jump);
            self.len = len + 1;
            return;
        }
        let next = self.rows[len - 1];
        shift_in(self.rows, at, len - 1, jump);
        self.beyond = Some(next);
    }

    /// Puts a jump that was found, unless it is there.
    pub fn put(&mut self, jump: Jump)
        requires { (found : List JumpOf) × Keeps found self.old }
        ensures lent { self.new.rows.ghost_name ≡ self.old.rows.ghost_name }
        ensures limit { self.new.limit ≡ self.old.limit }
        ensures keeps { (found : List JumpOf) → Keeps found self.old → Keeps (jump ∷ found) self.new }
    {
        match self.find(jump) {
            Ok(_) => {}
            Err(at) if at == self.limit => self.pass(jump),
            Err(at) => self.insert(at, jump),
        }
    }

    /// How many jumps there are, or the fault where there are more than have rows.
    pub fn count(&self) -> Result<usize, JumpFault>
        ensures { Counted self.now result }
    {
        match self.beyond {
            Some(jump) => Err(JumpFault { from: jump.from }),
            None => Ok(self.len),
        }
    }
}
