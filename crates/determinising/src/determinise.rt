//! The call that determinises an acceptor file.
ghost use Rattle.std.specs.Prelude.{length};
ghost use Rattle.determinising.specs.Determinising.{DeterminisedOr};

use crate::fault::{DeterminiseFault, SubsetCounts};
use crate::space::NodeSets;
use acceptor::flat::Flat;
use fields::format::MOST_ROWS;
use finding::moves::{Count, Limits, Move};
use finding::order::number;
use pga::check::check_file;
use pgd::format::MOST_STATES;
use pgd::writer::{Parts, write};
use table::numbers::{NodeNo, StateNo};
use table::sets::NodeSet;

/// At most so many sets and arcs, however long the tables are.
const LIMITS: Limits = Limits {
    entries: MOST_STATES,
    moves: MOST_ROWS,
};

/// Writes the file of the determinised acceptor of an acceptor file; sets and arcs are worked out in the lent tables.
pub fn determinise(
    file: &[u8],
    rows: &mut [NodeSet],
    arcs: &mut [Move<StateNo>],
    out: &mut [u8],
) -> Result<SubsetCounts, DeterminiseFault>
    ensures { DeterminisedOr file.now
        (record { rows = length rows.old; arcs = length arcs.old; out = length out.old })
        out.old result out.new }
{
    let header = check_file(file)?;
    let flat = Flat::read(file);
    let start = flat.first_set();
    let Count { entries, moves } = number(&mut NodeSets { flat }, start, rows, arcs, LIMITS)?;
    let parts = Parts {
        words: header.words as u16,
        rows: &rows[..entries],
        final_node: NodeNo(header.final_node as u16),
        arcs: &arcs[..moves],
    };
    write(parts, out)?;
    Ok(SubsetCounts {
        states: entries,
        arcs: moves,
    })
}
