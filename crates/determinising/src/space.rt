//! Sets of nodes as a space: each leads on a word where all arcs on it, and then all jumps, lead.
ghost use Rattle.std.specs.Prelude.{ℕ, List};
ghost use Rattle.table.specs.Sets.{members};
ghost use Rattle.table.proofs.Same.{set_exact};
ghost use Rattle.theory.specs.Flattening.{Acceptor};
ghost use Rattle.pga.specs.Files.{Fit};
ghost use Rattle.acceptor.specs.Flats.{acceptor_of};
ghost use Rattle.determinising.specs.Determinising.{subset_search};

use acceptor::flat::Flat;
use finding::space::Space;
use table::numbers::NodeNo;
use table::sets::NodeSet;

/// The sets of nodes of an opened acceptor.
#[derive(Drop)]
pub struct NodeSets<'a> {
    pub flat: Flat<'a>,
}

impl Space for NodeSets<'_> {
    type Entry = NodeSet;

    ghost Source = { Acceptor };

    ghost Thing = { List ℕ };

    ghost source = { λ s. acceptor_of s.flat };

    ghost sought = { subset_search };

    ghost thing = { λ _ e. members e.words };

    ghost ready = { λ s es. Fit (acceptor_of s.flat) };

    fn next_symbol(&self, e: NodeSet, from: u16) -> Option<u16> {
        self.flat.next_word(&e, from)
    }

    fn reach(&mut self, e: NodeSet, x: u16) -> Option<NodeSet> {
        Some(self.flat.word_set(&e, x))
    }

    ghost exact = { λ s es r. set_exact };
}
