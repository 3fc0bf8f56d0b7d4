//! Where an entry moves on a symbol, found in moves that rise by the entry left, then by the symbol.
ghost use Rattle.std.specs.Prelude.{map};
ghost use Rattle.table.specs.Numbers.{value_in};
ghost use Rattle.finding.specs.Finding.{arrow};
ghost use Rattle.flattening.specs.Places.{MoveOn};

use finding::lookup::Rising;
use table::numbers::Number;

/// The entry that the entry `from` moves to on the symbol, if it moves on it.
pub fn find_move<N: Number>(rising: &Rising<N>, from: N, symbol: u16) -> Option<N>
    ensures { MoveOn (map (arrow N.Number.value) rising.now.moves.now) (N.Number.value from) symbol (value_in N.Number.value result) }
{
    let found = rising.moves.get(rising.seek(from, symbol))?;
    if (found.from.index(), found.symbol) == (from.index(), symbol) {
        Some(found.to)
    } else {
        None
    }
}
