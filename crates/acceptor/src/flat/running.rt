//! The opened acceptor file as what runs a sentence: a position is the set of nodes to which the words lead.
ghost use Rattle.std.specs.Prelude.{◌≡◌};
ghost use Rattle.table.specs.Sets.{members};
ghost use Rattle.theory.specs.Sentences.{Passes};
ghost use Rattle.theory.specs.Subsets.{first_set, word_set};
ghost use Rattle.pga.specs.Files.{Fit};
ghost use Rattle.acceptor.specs.Flats.{acceptor_of, RestsOf};

use crate::flat::Flat;
use crate::running::Acceptor;
use table::sets::NodeSet;

impl<'a> Acceptor for Flat<'a> {
    type Position = NodeSet;

    ghost words = { λ f. f.words };

    ghost sound = { λ f. Fit (acceptor_of f) };

    ghost sentences = { λ f s. Passes (acceptor_of f) s };

    ghost rests = { λ f p s. RestsOf (acceptor_of f) p.words s };

    ghost starts = { λ f p. members p.words ≡ first_set (acceptor_of f) };

    ghost goes = { λ f p x q. members q.words ≡ word_set (acceptor_of f) (members p.words) x };

    fn words(&self) -> u16 {
        self.words
    }

    fn first(&self) -> NodeSet {
        self.first_set()
    }

    fn step(&self, at: NodeSet, word: u16) -> NodeSet {
        self.word_set(&at, word)
    }

    fn end(&self, at: NodeSet) -> bool {
        at.has(self.final_node)
    }
}
