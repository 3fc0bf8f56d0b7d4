//! What determinising counts, and why it is refused.
ghost use Rattle.std.specs.Prelude.{◌≡◌};
ghost use Rattle.determinising.specs.declared.fault.DeterminiseFault.TheVariants.{File, OutputShort as Short};
ghost use Rattle.determinising.specs.Refusals.{refusal as refusal_of, fault_of};

use book::Refusal;
use fields::fault::{AcceptorFault, OutputShort};
use finding::moves::Stop;

/// How many states and arcs a determinised acceptor has.
// Not a `Count` of `finding`, though of its shape: this is told outward, of states and arcs.
#[derive(Clone, Copy, PartialEq, Eq, Debug)]
pub struct SubsetCounts {
    pub states: usize,
    pub arcs: usize,
}

/// Why an acceptor is not determinised.
#[derive(Clone, Copy, PartialEq, Eq, Debug)]
pub enum DeterminiseFault {
    /// the bytes are no acceptor's file
    File(AcceptorFault),
    /// the set of this number has no place
    SetLimit(usize),
    /// an arc that leaves the state of this number has no place
    ArcLimit(usize),
    /// the output is too short for this many bytes
    OutputShort(usize),
}

impl From<AcceptorFault> for DeterminiseFault {
    ghost from_gives = { λ f r. r ≡ File f };

    fn from(fault: AcceptorFault) -> DeterminiseFault {
        DeterminiseFault::File(fault)
    }
}

impl From<Stop> for DeterminiseFault {
    ghost from_gives = { λ s r. r ≡ fault_of s };

    fn from(stop: Stop) -> DeterminiseFault {
        match stop {
            Stop::Room(n) | Stop::Entry(n) => DeterminiseFault::SetLimit(n),
            Stop::Arrow(left, _) => DeterminiseFault::ArcLimit(left),
        }
    }
}

// The case has the number alone, as each case of a limit has it: which layer tells of a short output depends on the call.

impl From<OutputShort> for DeterminiseFault {
    ghost from_gives = { λ f r. r ≡ Short f.needed };

    fn from(fault: OutputShort) -> DeterminiseFault {
        DeterminiseFault::OutputShort(fault.needed)
    }
}

/// The number, layer and place of the fault.
impl From<DeterminiseFault> for Refusal {
    ghost from_gives = { λ f r. r ≡ refusal_of f };

    fn from(fault: DeterminiseFault) -> Refusal {
        match fault {
            DeterminiseFault::File(fault) => fault.into(),
            DeterminiseFault::SetLimit(number) => Refusal {
                number: 18,
                layer: 5,
                place: number,
            },
            DeterminiseFault::ArcLimit(left) => Refusal {
                number: 19,
                layer: 5,
                place: left,
            },
            DeterminiseFault::OutputShort(needed) => Refusal {
                number: 16,
                layer: 5,
                place: needed,
            },
        }
    }
}
