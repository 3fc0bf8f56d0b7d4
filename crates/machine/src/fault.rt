//! Why there is no machine.
ghost use Rattle.std.specs.Prelude.{◌≡◌};
ghost use Rattle.machine.specs.declared.fault.MachineFault.TheVariants.{Book};
ghost use Rattle.machine.specs.Machines.{refusal as refusal_of, fault_of};

use book::{BookFault, Refusal};
use finding::moves::Stop;

/// Why there is no machine, with the place.
#[derive(Clone, Copy, PartialEq, Eq, Debug)]
pub enum MachineFault {
    /// the table holds no grammar
    Book(BookFault),
    /// the state of this number has no place
    StateLimit(usize),
    /// the move of this number has no place
    MoveLimit(usize),
}

impl From<BookFault> for MachineFault {
    ghost from_gives = { λ f r. r ≡ Book f };

    fn from(f: BookFault) -> MachineFault {
        MachineFault::Book(f)
    }
}

impl From<Stop> for MachineFault {
    ghost from_gives = { λ s r. r ≡ fault_of s };

    fn from(stop: Stop) -> MachineFault {
        match stop {
            Stop::Room(n) | Stop::Entry(n) => MachineFault::StateLimit(n),
            Stop::Arrow(_, n) => MachineFault::MoveLimit(n),
        }
    }
}

/// The number, layer and place of the fault.
impl From<MachineFault> for Refusal {
    ghost from_gives = { λ f r. r ≡ refusal_of f };

    fn from(fault: MachineFault) -> Refusal {
        match fault {
            MachineFault::Book(f) => f.into(),
            MachineFault::StateLimit(n) => Refusal {
                number: 10,
                layer: 2,
                place: n,
            },
            MachineFault::MoveLimit(n) => Refusal {
                number: 11,
                layer: 2,
                place: n,
            },
        }
    }
}
