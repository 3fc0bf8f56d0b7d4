//! The faults of turns.
ghost use Rattle.std.specs.Prelude.{◌≡◌};
ghost use Rattle.acceptor.specs.Refusals.{refusal as refusal_of};

use book::Refusal;

/// Why a turn refuses an event.
#[derive(Clone, Copy, PartialEq, Eq, Debug)]
pub enum TurnFault {
    /// the turn is unbegun
    Unbegun,
    /// the acceptor does not know the word
    UnknownWord(u16),
}

/// The number, layer and place of the fault.
impl From<TurnFault> for Refusal {
    ghost from_gives = { λ f r. r ≡ refusal_of f };

    fn from(fault: TurnFault) -> Refusal {
        match fault {
            TurnFault::Unbegun => Refusal {
                number: 20,
                layer: 6,
                place: 0,
            },
            TurnFault::UnknownWord(word) => Refusal {
                number: 21,
                layer: 6,
                place: word as usize,
            },
        }
    }
}
