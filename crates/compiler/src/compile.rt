//! The call compile.
ghost use Rattle.std.specs.Prelude.{◌≡◌, ℕ, List, length};
ghost use Rattle.compiler.specs.Compiling.{CompiledOr};

use super::fault::CompileFault;
use book::check;
use finding::moves::Move;
use flattening::jump::Jump;
use flattening::unfolded::Unfolded;
use machine::items::Items;
use machine::machine::characteristic;
use pga::listing::Counts;
use pga::writer::{Parts, write};
use policy::stacks::Policy;
use table::numbers::{NodeNo, StateNo};
use table::sets::ItemSet;
use unfolding::node::Node;
use unfolding::unfold::unfold;

/// The working tables, which the caller lends. A table shorter than its ceiling is the limit instead.
#[derive(Drop)]
pub struct Workspace<'a> {
    pub states: &'a mut [ItemSet],
    pub moves: &'a mut [Move<StateNo>],
    pub nodes: &'a mut [Node],
    pub unfolded: &'a mut [Move<NodeNo>],
    pub jumps: &'a mut [Jump],
}

/// Writes the file of the acceptor of the book's grammar under the policy; how large its parts are.
pub fn compile_book<P: Policy>(
    book: &[u16],
    policy: &mut P,
    work: Workspace,
    out: &mut [u8],
) -> Result<Counts, CompileFault>
    ensures { CompiledOr book.now (P.Policy.meaning (P.Policy.kind policy.old)) (P.Policy.room (P.Policy.kind policy.old))
        (record {
          states = length work.entry.states.now;
          moves = length work.entry.moves.now;
          nodes = length work.entry.nodes.now;
          unfolded = length work.entry.unfolded.now;
          jumps = length work.entry.jumps.now;
          out = length out.old;
        })
        out.old result out.new }
{
    // Taken apart: no rule of proof covers a write to one field's table while a `&` into another field's is in use.
    let Workspace {
        states,
        moves,
        nodes,
        unfolded,
        jumps: rows,
    } = work;
    let summary = check(book)?;
    let machine = characteristic(book, states, moves)?;
    let symbols = (summary.words + summary.names) as u16;
    let found = unfold(policy, &moves[0..machine.moves], symbols, nodes, unfolded)?;
    let arrows = &unfolded[0..found.moves];
    let items = Items::of(book, summary);
    let unfolded_machine = Unfolded {
        items: &items,
        moves: arrows,
    };
    let flat = unfolded_machine.flatten(rows)?;
    let parts = Parts {
        words: summary.words as u16,
        nodes: found.entries as u16,
        final_node: flat.final_node,
        moves: arrows,
        jumps: &rows[0..flat.jumps],
    };
    write(parts, out)?;
    Ok(Counts {
        states: machine.states,
        moves: machine.moves,
        nodes: found.entries,
        unfolded: found.moves,
        arcs: flat.arcs,
        jumps: flat.jumps,
    })
}
