//! Working tables of fixed lengths, and the loan of them.
ghost use Rattle.std.specs.Prelude.{◌≡◌, ℕ, length, replicate, All};
ghost use Rattle.table.specs.Sets.{In};

use super::compile::Workspace;
use finding::moves::Move;
use flattening::jump::Jump;
use table::numbers::{NodeNo, StateNo};
use table::sets::ItemSet;
use unfolding::node::Node;

/// Rows for so many states, moves (of the machine, and unfolded), nodes and jumps.
#[derive(Drop)]
pub struct Tables<const STATES: usize, const MOVES: usize, const NODES: usize, const JUMPS: usize> {
    pub states: [ItemSet; STATES],
    pub moves: [Move<StateNo>; MOVES],
    pub nodes: [Node; NODES],
    pub unfolded: [Move<NodeNo>; MOVES],
    pub jumps: [Jump; JUMPS],
}

impl<const STATES: usize, const MOVES: usize, const NODES: usize, const JUMPS: usize> Tables<
    STATES,
    MOVES,
    NODES,
    JUMPS,
> {
    /// Rows of empty sets and of zeros.
    pub fn new() -> Self
        ensures states { All (λ s. (k : ℕ) → In s.words k → ⊥) result.states }
        ensures moves { result.moves ≡ replicate MOVES (record { from = record { 0 = 0 }; symbol = 0; to = record { 0 = 0 } }) }
        ensures nodes { result.nodes ≡ replicate NODES (record { state = record { 0 = 0 }; class = record { 0 = 0 } }) }
        ensures unfolded { result.unfolded ≡ replicate MOVES (record { from = record { 0 = 0 }; symbol = 0; to = record { 0 = 0 } }) }
        ensures jumps { result.jumps ≡ replicate JUMPS (record { from = record { 0 = 0 }; to = record { 0 = 0 } }) }
    {
        Tables {
            states: [ItemSet::empty(); STATES],
            moves: [Move::default(); MOVES],
            nodes: [Node::default(); NODES],
            unfolded: [Move::default(); MOVES],
            jumps: [Jump::default(); JUMPS],
        }
    }

    /// Lends every row, as it stands.
    pub fn lend(&mut self) -> Workspace<'_>
        ensures states { (result.states.now ≡ self.old.states) × (length result.states.now ≡ STATES) }
        ensures moves { (result.moves.now ≡ self.old.moves) × (length result.moves.now ≡ MOVES) }
        ensures nodes { (result.nodes.now ≡ self.old.nodes) × (length result.nodes.now ≡ NODES) }
        ensures unfolded { (result.unfolded.now ≡ self.old.unfolded) × (length result.unfolded.now ≡ MOVES) }
        ensures jumps { (result.jumps.now ≡ self.old.jumps) × (length result.jumps.now ≡ JUMPS) }
    {
        Workspace {
            states: &mut self.states,
            moves: &mut self.moves,
            nodes: &mut self.nodes,
            unfolded: &mut self.unfolded,
            jumps: &mut self.jumps,
        }
    }
}
