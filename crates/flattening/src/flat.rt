//! The jumps, the final node and the arcs of an unfolded machine.
ghost use Rattle.std.specs.Prelude.{◌≡◌, min, length};
ghost use Rattle.theory.specs.Flattening.{word_moves};
ghost use Rattle.theory.specs.Unfolding.{FinalNode};
ghost use Rattle.flattening.specs.Walks.{arrows};
ghost use Rattle.flattening.specs.Flat.{Unfolding, JumpsFound, FlatFound};

use crate::fault::JumpFault;
use crate::jump::Jump;
use crate::kept::JumpTable;
use crate::lookup::find_move;
use crate::unfolded::Unfolded;
use finding::lookup::Rising;
use finding::moves::Move;
use table::numbers::NodeNo;

/// The final node of an acceptor, and how many arcs and jumps it has.
#[derive(Clone, Copy, PartialEq, Eq, Debug)]
pub struct FlatSummary {
    pub final_node: NodeNo,
    pub arcs: usize,
    pub jumps: usize,
}

/// How many arcs there are: the moves on words.
pub fn count_arcs(moves: &[Move<NodeNo>], words: usize) -> usize
    ensures { result ≡ length (word_moves words (arrows moves.now)) }
{
    moves.iter().filter(|m| (m.symbol as usize) < words).count()
}

impl<'a> Unfolded<'a> {
    /// The node of the final state: where node 0 moves on the start name, which follows the dot of item 0.
    pub fn final_node(&self) -> NodeNo
        requires { Unfolding self.now.items.now (arrows self.now.moves.now) }
        ensures { (u : Unfolding self.now.items.now (arrows self.now.moves.now)) → FinalNode u.states u.nodes result.0 }
    {
        // There is a move: node 0 always moves on the start name.
        let rising = Rising { moves: self.moves };
        find_move(&rising, NodeNo(0), self.items.after[0]).unwrap()
    }

    /// Writes the jumps into the rows, in their order; how many there are, or the fault where there are more than may be.
    pub fn jumps(&self, rows: &mut [Jump]) -> Result<usize, JumpFault>
        requires { Unfolding self.now.items.now (arrows self.now.moves.now) }
        ensures { (u : Unfolding self.now.items.now (arrows self.now.moves.now))
            → JumpsFound u.grammar u.states u.nodes (arrows self.now.moves.now) (min (length rows.old) 16384) result rows.new }
    {
        let mut table = JumpTable::new(rows);
        self.put_all(&mut table);
        table.count()
    }

    /// Flattens an unfolded machine: its jumps into the rows, its final node, and how many arcs and jumps there are.
    pub fn flatten(&self, rows: &mut [Jump]) -> Result<FlatSummary, JumpFault>
        requires { Unfolding self.now.items.now (arrows self.now.moves.now) }
        ensures { (u : Unfolding self.now.items.now (arrows self.now.moves.now))
            → FlatFound u.grammar u.states u.nodes (arrows self.now.moves.now) (min (length rows.old) 16384) result rows.new }
    {
        let jumps = self.jumps(rows)?;
        let final_node = self.final_node();
        let arcs = count_arcs(self.moves, self.items.words);
        Ok(FlatSummary {
            final_node,
            arcs,
            jumps,
        })
    }
}
