//! Why there is no unfolded machine.
ghost use Rattle.std.specs.Prelude.{◌≡◌};
ghost use Rattle.unfolding.specs.Refusals.{refusal as refusal_of, fault_of};

use book::Refusal;
use finding::moves::Stop;

/// Why there is no unfolded machine, with the place.
#[derive(Clone, Copy, PartialEq, Eq, Debug)]
pub enum UnfoldingFault {
    /// a class that follows this node's has no place
    ClassUnfit(usize),
    /// the node of this number has no place
    NodeLimit(usize),
    /// the unfolded move of this number has no place
    MoveLimit(usize),
}

impl From<Stop> for UnfoldingFault {
    ghost from_gives = { λ s r. r ≡ fault_of s };

    fn from(stop: Stop) -> UnfoldingFault {
        match stop {
            Stop::Room(left) => UnfoldingFault::ClassUnfit(left),
            Stop::Entry(number) => UnfoldingFault::NodeLimit(number),
            Stop::Arrow(_, number) => UnfoldingFault::MoveLimit(number),
        }
    }
}

/// The number, layer and place of the fault.
impl From<UnfoldingFault> for Refusal {
    ghost from_gives = { λ f r. r ≡ refusal_of f };

    fn from(fault: UnfoldingFault) -> Refusal {
        let (number, place) = match fault {
            UnfoldingFault::ClassUnfit(left) => (12, left),
            UnfoldingFault::NodeLimit(number) => (13, number),
            UnfoldingFault::MoveLimit(number) => (14, number),
        };
        Refusal {
            number,
            layer: 3,
            place,
        }
    }
}
