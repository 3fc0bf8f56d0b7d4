//! Moves that rise by the entry left, then by the symbol, and where those of an entry begin.
ghost use Rattle.std.specs.Prelude.{map};
ghost use Rattle.table.specs.Lists.{InOrder};
ghost use Rattle.finding.specs.Finding.{arrow};
ghost use Rattle.finding.specs.Laws.{Rises};
ghost use Rattle.finding.specs.Lookup.{Parted};
ghost use Rattle.finding.specs.Rising.{rising_one};

use crate::moves::Move;
use table::numbers::Number;

/// Moves that rise by the entry left, then by the symbol.
#[derive(Drop)]
pub struct Rising<'a, N: Number> {
    pub moves: &'a [Move<N>],
    pub ghost rising: { InOrder Rises (map (arrow N.Number.value) moves.now) } by { rising_one (map (arrow N.Number.value) moves.now) },
}

impl<'a, N: Number> Rising<'a, N> {
    /// How many of the moves come before the moves of `entry` on `symbol` or more.
    pub fn seek(&self, entry: N, symbol: u16) -> usize
        ensures { Parted (map (arrow N.Number.value) self.now.moves.now) (N.Number.value entry) symbol result }
    {
        let entry = entry.index();
        self.moves
            .partition_point(|m| (m.from.index(), m.symbol) < (entry, symbol))
    }
}
