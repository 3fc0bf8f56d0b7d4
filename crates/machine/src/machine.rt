//! The call for the characteristic machine.
ghost use Rattle.std.specs.Prelude.{◌≡◌, ◌≤◌, List, map, length, Some, None};
ghost use Rattle.table.specs.Sets.{members};
ghost use Rattle.machine.specs.Machines.{Found, FoundFinal};

use super::fault::MachineFault;
use super::items::Items;
use super::space::ItemSpace;
use book::check;
use finding::moves::{Count, Limits, Move, Stop};
use finding::order::number;
use table::numbers::{ItemNo, StateNo};
use table::sets::ItemSet;

/// How many states and moves a machine has, and its final state.
#[derive(Clone, Copy, PartialEq, Eq, Debug)]
pub struct MachineSummary {
    pub states: usize,
    pub moves: usize,
    pub final_state: StateNo,
}

/// At most so many states and moves, however long the tables are.
const LIMITS: Limits = Limits {
    entries: 1024,
    moves: 16384,
};

/// The state that holds the added rule with its dot at the end.
fn find_final(states: &[ItemSet]) -> Option<StateNo>
    requires { length states.now ≤ 1024 }
    ensures { FoundFinal states.now result }
{
    let i = states.iter().position(|state| state.has(ItemNo(1)))?;
    Some(StateNo(i as u16))
}

/// Writes the characteristic machine of the grammar that a table holds into the lent tables.
pub fn characteristic(
    table: &[u16],
    states: &mut [ItemSet],
    moves: &mut [Move<StateNo>],
) -> Result<MachineSummary, MachineFault>
    ensures { Found table.now (length states.old) (length moves.old) result states.new moves.new }
{
    let book = check(table)?;
    let items = Items::of(table, book);
    let start = items.initial_set();
    let mut space = ItemSpace { table, items };
    let found = number(&mut space, start, states, moves, LIMITS)?;
    let count = found.entries;
    let Some(final_state) = find_final(&states[0..count]) else {
        unreachable()
    };
    Ok(MachineSummary {
        states: count,
        moves: found.moves,
        final_state,
    })
}
