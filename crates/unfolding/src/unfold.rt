//! The call for the unfolded machine.
ghost use Rattle.std.specs.Prelude.{◌≡◌, ℕ, length, OnOk};
ghost use Rattle.unfolding.specs.Moves.{state_arrows, Ordered};
ghost use Rattle.unfolding.specs.Unfoldings.{Unfolds};

use crate::fault::UnfoldingFault;
use crate::node::Node;
use crate::space::Nodes;
use finding::moves::{Count, Limits, Move, Stop};
use finding::order::number;
use policy::stacks::Policy;
use table::numbers::{ClassNo, NodeNo, StateNo};

/// At most so many nodes and moves, however long the tables are.
const LIMITS: Limits = Limits {
    entries: 4096,
    moves: 16384,
};

/// State 0 with the empty stack's class.
const FIRST: Node = Node {
    state: StateNo(0),
    class: ClassNo(0),
};

/// Clears the policy, and writes the unfolded machine into the lent tables. A class is taken only for an unfolded move, in finding order.
pub fn unfold<P: Policy>(
    policy: &mut P,
    moves: &[Move<StateNo>],
    symbols: u16,
    nodes: &mut [Node],
    unfolded: &mut [Move<NodeNo>],
) -> Result<Count, UnfoldingFault>
    requires { Ordered (state_arrows moves.now) symbols }
    ensures kind { P.Policy.kind policy.new ≡ P.Policy.kind policy.old }
    ensures ready { OnOk result (P.Policy.ready policy.new) }
    ensures unfolds { Unfolds (P.Policy.meaning (P.Policy.kind policy.old)) (P.Policy.room (P.Policy.kind policy.old))
        (state_arrows moves.now) symbols (length nodes.old) (length unfolded.old) result
        (P.Policy.held policy.new) nodes.new unfolded.new }
{
    policy.clear();
    let mut space = Nodes {
        moves,
        symbols,
        policy,
    };
    let count = number(&mut space, FIRST, nodes, unfolded, LIMITS)?;
    Ok(count)
}
