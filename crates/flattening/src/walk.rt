//! The jumps that completed rules stand for, found by walking over right sides.
ghost use Rattle.std.specs.Prelude.{◌≡◌, ℕ, ◌<◌, ◌≤◌, List, [], ◌∷◌};
ghost use Rattle.flattening.specs.declared.jump.Jump.{Jump as JumpOf};
ghost use Rattle.flattening.specs.Keeping.{Keeps};
ghost use Rattle.flattening.specs.Walks.{plain, arrows, Spells, Ends, Opened, AllOpened, Gives, Given, PutMore};

use crate::jump::Jump;
use crate::kept::JumpTable;
use crate::lookup::find_move;
use crate::unfolded::Unfolded;
use finding::lookup::Rising;
use finding::moves::Move;
use machine::items::NO_SYMBOL;
use table::numbers::{NodeNo, Number};

impl<'a> Unfolded<'a> {
    /// The right side of the rule whose first item is `first`.
    fn side(&self, first: usize) -> &[u16]
        requires { (xs : List ℕ) × Spells self.now.items.now.after first xs }
        ensures { Spells self.now.items.now.after first result.now }
    {
        // The sentinel itself: a right side is lent as the slice in which it was copied, up to where no symbol follows.
        let after = &self.items.after[..];
        let rest = &after[first..];
        let end = rest
            .iter()
            .position(|symbol| *symbol == NO_SYMBOL)
            .unwrap_or(rest.len());
        &rest[..end]
    }

    /// The node that `from` leads to over the right side of the rule whose first item is `first`.
    fn walk(&self, from: NodeNo, first: usize) -> NodeNo
        requires { (p : ℕ) × Ends self.now.items.now.after (arrows self.now.moves.now) from.0 first p }
        ensures ends { Ends self.now.items.now.after (arrows self.now.moves.now) from.0 first result.0 }
        ensures one { (p : ℕ) → Ends self.now.items.now.after (arrows self.now.moves.now) from.0 first p → p ≡ result.0 }
    {
        let rising = Rising { moves: self.moves };
        let mut at = from;
        for symbol in self.side(first) {
            // There is a move, since the way over the whole right side is known to end.
            at = find_move(&rising, at, *symbol).unwrap();
        }
        at
    }

    /// Puts the jumps that the rules of a name give, for a move over the name.
    fn put_over(&self, over: Move<NodeNo>, table: &mut JumpTable)
        requires named { self.now.items.now.words ≤ over.symbol }
        requires opened { Opened self.now.items.now (arrows self.now.moves.now) (plain over) }
        requires keeps { (found : List JumpOf) × Keeps found table.old }
        ensures lent { table.new.rows.ghost_name ≡ table.old.rows.ghost_name }
        ensures limit { table.new.limit ≡ table.old.limit }
        ensures more { (found : List JumpOf) (o : Opened self.now.items.now (arrows self.now.moves.now) (plain over)) → Keeps found table.old
            → PutMore found (Gives self.now.items.now.after (arrows self.now.moves.now) (plain over) o.numbers) table.new }
    {
        let name = over.symbol as usize - self.items.words;
        for first in self.items.rules_of(name) {
            let from = self.walk(over.from, first.index());
            table.put(Jump { from, to: over.to });
        }
    }

    /// Puts all jumps into a table without a jump: those that the rules of each name give, for each move over it.
    pub fn put_all(&self, table: &mut JumpTable)
        requires opened { AllOpened self.now.items.now (arrows self.now.moves.now) }
        requires none { Keeps [] table.old }
        ensures lent { table.new.rows.ghost_name ≡ table.old.rows.ghost_name }
        ensures limit { table.new.limit ≡ table.old.limit }
        ensures all { PutMore [] (Given self.now.items.now (arrows self.now.moves.now) (arrows self.now.moves.now)) table.new }
    {
        for over in self.moves {
            if over.symbol as usize >= self.items.words {
                self.put_over(*over, table);
            }
        }
    }
}
