//! The nodes as a space to search: a node moves where its state moves, to the policy's next class.
ghost use Rattle.std.specs.Prelude.{ℕ, List};
ghost use Rattle.std.proofs.Common.{rules};
ghost use Rattle.finding.specs.Numbered.{Arrow};
ghost use Rattle.theory.specs.Unfolding.{Node as MeantNode};
ghost use Rattle.policy.specs.Classes.{Tracks};
ghost use Rattle.unfolding.specs.Moves.{state_arrows, Ordered};
ghost use Rattle.unfolding.specs.Nodes.{class_number, node_of, node_search};

use crate::moves::{least_symbol, target};
use crate::node::Node;
use finding::lookup::Rising;
use finding::moves::Move;
use finding::space::Space;
use policy::stacks::{Policy, Push};
use table::numbers::StateNo;

/// The machine's moves, on symbols below a number, and the policy.
#[derive(Drop)]
pub struct Nodes<'m, 'p, P: Policy> {
    pub moves: &'m [Move<StateNo>],
    pub symbols: u16,
    pub policy: &'p mut P,
}

impl<'m, 'p, P: Policy> Space for Nodes<'m, 'p, P> {
    type Entry = Node;

    // the moves, the number of symbols, and of the policy its kind and which one it is
    ghost Source = { List Arrow × ℕ × P.Policy.Kind × ℕ };

    ghost Thing = { MeantNode };

    ghost source = { λ s. (state_arrows s.moves.now, s.symbols, P.Policy.kind s.policy.now, s.policy.ghost_name) };

    ghost sought = { λ k. node_search (P.Policy.meaning k.2) (P.Policy.room k.2) k.0 k.1 };

    ghost thing = { λ s e. node_of (P.Policy.held s.policy.now) e };

    ghost ready = { λ s es. P.Policy.ready s.policy.now × Tracks class_number (P.Policy.held s.policy.now) es × Ordered (state_arrows s.moves.now) s.symbols };

    fn next_symbol(&self, e: Node, from: u16) -> Option<u16> {
        let rising = Rising { moves: self.moves };
        least_symbol(&rising, e.state, from)
    }

    fn reach(&mut self, e: Node, x: u16) -> Option<Node> {
        let rising = Rising { moves: self.moves };
        let state = target(&rising, e.state, x);
        let push = Push {
            left: e.state,
            symbol: x,
            reached: state,
        };
        let class = self.policy.next(e.class, push)?;
        Some(Node { state, class })
    }

    ghost exact = { λ s es r. Prim.search rules };
}
