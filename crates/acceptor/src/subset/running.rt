//! The opened file of a determinised acceptor as what runs a sentence.
ghost use Rattle.std.specs.Prelude.{◌≡◌, Some};
ghost use Rattle.theory.specs.Subsets.{DeterminedPasses};
ghost use Rattle.pgd.specs.Files.{Fit};
ghost use Rattle.acceptor.specs.Subsets.{determined_of, number_of, Goes, RestsAt};

use crate::running::Acceptor;
use crate::subset::Subset;
use table::numbers::StateNo;

impl<'a> Acceptor for Subset<'a> {
    type Position = Option<StateNo>;

    ghost words = { λ d. d.words };

    ghost sound = { λ d. Fit (determined_of d) };

    ghost sentences = { λ d s. DeterminedPasses (determined_of d) s };

    ghost rests = { λ d p s. RestsAt (determined_of d) (number_of p) s };

    ghost starts = { λ d p. number_of p ≡ Some 0 };

    ghost goes = { λ d p x q. Goes (determined_of d) (number_of p) x (number_of q) };

    fn words(&self) -> u16 {
        self.words
    }

    fn first(&self) -> Option<StateNo> {
        Some(StateNo(0))
    }

    fn step(&self, at: Option<StateNo>, word: u16) -> Option<StateNo> {
        let state = at?;
        let to = self.arcs.target(state.0, word)?;
        Some(StateNo(to))
    }

    fn end(&self, at: Option<StateNo>) -> bool {
        match at {
            Some(state) => self.is_final(state),
            None => false,
        }
    }
}
