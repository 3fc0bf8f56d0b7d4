//! Sets of nodes: the first set, and where a set leads over a word.
//!
//! The set after a word has all that the word's arcs reach from the set, and all that jumps reach from there.
ghost use Rattle.std.specs.Prelude.{◌≡◌, ℕ, ◌<◌, ◌⊎◌, ◌↔◌};
ghost use mathlib.Core.List.{Memᴰ};
ghost use Rattle.table.specs.Lists.{InOrder};
ghost use Rattle.table.specs.Sets.{In, members};
ghost use Rattle.theory.specs.Flattening.{JumpLess};
ghost use Rattle.theory.specs.Subsets.{first_set, word_set};
ghost use Rattle.pga.specs.Files.{Fit};
ghost use Rattle.acceptor.specs.Rows.{arcs_of, jumps_of};
ghost use Rattle.acceptor.specs.Flats.{acceptor_of};
ghost use Rattle.acceptor.specs.Steps.{Grown, Wave, JumpedFrom, OverWord, NextWord};

use crate::flat::Flat;
use table::numbers::NodeNo;
use table::sets::NodeSet;

/// The nodes reached so far, and those among them whose jumps are still to be taken.
#[derive(Drop)]
pub struct Reached {
    pub set: NodeSet,
    pub fresh: NodeSet,
}

impl Reached {
    /// A node is reached.
    fn add(&mut self, node: NodeNo)
        ensures grown { Grown (λ k. k ≡ node.0) self.old.set.words self.old.fresh.words self.new.set.words self.new.fresh.words }
        ensures reached { node.0 < 4096 → In self.new.set.words node.0 }
    {
        if !self.set.has(node) {
            self.set.insert(node);
            self.fresh.insert(node);
        }
    }
}

impl<'a> Flat<'a> {
    /// Takes the jumps of a node.
    fn take_jumps(&self, node: NodeNo, reached: &mut Reached)
        ensures grown { Grown (λ k. Memᴰ (node.0, k) (jumps_of self.now.jumps.bytes.now)) reached.old.set.words reached.old.fresh.words
            reached.new.set.words reached.new.fresh.words }
        ensures reached { InOrder JumpLess (jumps_of self.now.jumps.bytes.now) → (k : ℕ) → Memᴰ (node.0, k) (jumps_of self.now.jumps.bytes.now)
            → k < 4096 → In reached.new.set.words k }
    {
        // By number, as `seek` gives that of the node's first row: of a chunk it would have to be shown which row it is.
        for row in self.jumps.seek(node.0, 0)..self.jumps.count() {
            let (from, to) = self.jumps.key(row);
            if from != node.0 {
                return;
            }
            reached.add(NodeNo(to));
        }
    }

    /// Takes the jumps of all fresh nodes; what is new to the set is then fresh.
    fn take_wave(&self, reached: &mut Reached)
        ensures { Wave (jumps_of self.now.jumps.bytes.now) reached.old.set.words reached.old.fresh.words
            reached.new.set.words reached.new.fresh.words }
    {
        let fresh = reached.fresh;
        reached.fresh = NodeSet::empty();
        for node in fresh.iter() {
            self.take_jumps(node, reached);
        }
    }

    /// The set with all that jumps reach from it: each node's jumps are taken once.
    fn spread(&self, set: NodeSet) -> NodeSet
        ensures { Fit (acceptor_of self.now) → (k : ℕ) → In result.words k ↔ JumpedFrom (acceptor_of self.now) set.words k }
    {
        let mut reached = Reached { set, fresh: set };
        // No iterator: each wave makes the nodes of the next.
        while reached.fresh.size() > 0 {
            self.take_wave(&mut reached);
        }
        reached.set
    }

    /// Where the arc of a node on a word leads is a target.
    fn take_arc(&self, node: NodeNo, word: u16, targets: &mut NodeSet)
        ensures { Fit (acceptor_of self.now) → (k : ℕ) → In targets.new.words k
            ↔ (In targets.old.words k ⊎ Memᴰ (node.0, word, k) (arcs_of self.now.arcs.bytes.now)) }
    {
        if let Some(to) = self.arcs.target(node.0, word) {
            targets.insert(NodeNo(to));
        }
    }

    /// Where the arcs on a word lead from a set.
    fn over_word(&self, set: &NodeSet, word: u16) -> NodeSet
        ensures { Fit (acceptor_of self.now) → (k : ℕ) → In result.words k ↔ OverWord (arcs_of self.now.arcs.bytes.now) set.now.words word k }
    {
        let mut targets = NodeSet::empty();
        for node in set.iter() {
            self.take_arc(node, word, &mut targets);
        }
        targets
    }

    /// Node 0 and all that jumps reach from it.
    pub fn first_set(&self) -> NodeSet
        ensures { Fit (acceptor_of self.now) → members result.words ≡ first_set (acceptor_of self.now) }
    {
        let mut set = NodeSet::empty();
        set.insert(NodeNo(0));
        self.spread(set)
    }

    /// All that the arcs on a word reach from the set, and all that jumps reach from there.
    pub fn word_set(&self, set: &NodeSet, word: u16) -> NodeSet
        ensures { Fit (acceptor_of self.now) → members result.words ≡ word_set (acceptor_of self.now) (members set.now.words) word }
    {
        self.spread(self.over_word(set, word))
    }

    /// The least word that is `from` or more over which the set leads anywhere.
    pub fn next_word(&self, set: &NodeSet, from: u16) -> Option<u16>
        ensures { Fit (acceptor_of self.now) → NextWord (acceptor_of self.now) (members set.now.words) from result }
    {
        set.iter()
            .filter_map(|node| self.arcs.next_word(node.0, from))
            .min()
    }
}
