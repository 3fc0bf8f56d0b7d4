//! Why a file is not listed.
ghost use Rattle.std.specs.Prelude.{◌≡◌};
ghost use Rattle.pga.specs.declared.fault.ListFault.TheVariants.{File};
ghost use Rattle.pga.specs.Refusals.{list_refusal};

use book::Refusal;
use fields::fault::AcceptorFault;

/// Why a file was not listed.
#[derive(Clone, Copy, PartialEq, Eq, Debug)]
pub enum ListFault {
    /// it is no acceptor's file
    File(AcceptorFault),
    /// the output is too short for this many bytes
    // The number alone: no call of `list` makes the struct.
    OutputShort(usize),
}

/// The number, layer and place of the fault.
impl From<ListFault> for Refusal {
    ghost from_gives = { λ f r. r ≡ list_refusal f };

    fn from(fault: ListFault) -> Refusal {
        match fault {
            ListFault::File(fault) => fault.into(),
            ListFault::OutputShort(needed) => Refusal {
                number: 16,
                layer: 5,
                place: needed,
            },
        }
    }
}

impl From<AcceptorFault> for ListFault {
    ghost from_gives = { λ f r. r ≡ File f };

    fn from(fault: AcceptorFault) -> ListFault {
        ListFault::File(fault)
    }
}
