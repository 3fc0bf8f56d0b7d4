//! Where the moves of a state stand in a list that rises.
ghost use Rattle.std.specs.Prelude.{◌≡◌, ℕ};
ghost use Rattle.std.proofs.Math.Option.{some};
ghost use Rattle.theory.specs.Unfolding.{along};
ghost use Rattle.unfolding.specs.Moves.{state_arrows, LeastSymbol};

use finding::lookup::Rising;
use table::numbers::StateNo;

/// The least symbol that is `from` or more on which `state` moves.
pub fn least_symbol(rising: &Rising<StateNo>, state: StateNo, from: u16) -> Option<u16>
    ensures { LeastSymbol (state_arrows rising.now.moves.now) state.0 from result }
{
    let first = rising.moves.get(rising.seek(state, from))?;
    if first.from == state {
        Some(first.symbol)
    } else {
        None
    }
}

/// Where `state` moves on `symbol`.
pub fn target(rising: &Rising<StateNo>, state: StateNo, symbol: u16) -> StateNo
    requires { (t : ℕ) × (along (state_arrows rising.now.moves.now) state.0 symbol ≡ some t) }
    ensures { along (state_arrows rising.now.moves.now) state.0 symbol ≡ some result.0 }
{
    rising.moves[rising.seek(state, symbol)].to
}
