//! What is wrong with an acceptor file, or with the output that it is to fill.
ghost use Rattle.std.specs.Prelude.{◌≡◌};
ghost use Rattle.fields.specs.Refusals.{refusal as refusal_of};

use book::Refusal;

/// The bytes are no acceptor's file: the first fault is at this place.
#[derive(Clone, Copy, PartialEq, Eq, Debug)]
pub struct AcceptorFault {
    pub place: usize,
}

/// The number, layer and place of the fault.
impl From<AcceptorFault> for Refusal {
    ghost from_gives = { λ f r. r ≡ refusal_of f };

    fn from(fault: AcceptorFault) -> Refusal {
        Refusal {
            number: 17,
            layer: 5,
            place: fault.place,
        }
    }
}

/// The output is too short: so many bytes are needed.
#[derive(Clone, Copy, PartialEq, Eq, Debug)]
pub struct OutputShort {
    pub needed: usize,
}
