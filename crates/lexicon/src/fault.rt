//! Why a spelling gets no number.
ghost use Rattle.std.specs.Prelude.{◌≡◌};
ghost use Rattle.lexicon.specs.Refusals.{refusal as refusal_of};

use book::Refusal;

/// Why a spelling gets no number, with the place.
#[derive(Clone, Copy, PartialEq, Eq, Debug)]
pub enum LexiconFault {
    /// the byte at this place is the first that no spelling has there
    BadSpelling(usize),
    /// the spelling is new, and the lexicon is full with this many
    Full(usize),
}

/// The number, layer and place of the fault.
impl From<LexiconFault> for Refusal {
    ghost from_gives = { λ f r. r ≡ refusal_of f };

    fn from(fault: LexiconFault) -> Refusal {
        let (number, place) = match fault {
            LexiconFault::BadSpelling(i) => (22, i),
            LexiconFault::Full(n) => (23, n),
        };
        Refusal {
            number,
            layer: 7,
            place,
        }
    }
}
