//! Why an unfolded machine is not flattened.
ghost use Rattle.std.specs.Prelude.{◌≡◌};
ghost use Rattle.flattening.specs.Flat.{refusal as refusal_of};

use book::Refusal;
use table::numbers::NodeNo;

/// There are more jumps than there may be: the first too many, in their order, leaves this node.
#[derive(Clone, Copy, PartialEq, Eq, Debug)]
pub struct JumpFault {
    pub from: NodeNo,
}

/// The number, layer and place of the fault.
impl From<JumpFault> for Refusal {
    ghost from_gives = { λ f r. r ≡ refusal_of f };

    fn from(fault: JumpFault) -> Refusal {
        Refusal {
            number: 15,
            layer: 4,
            place: fault.from.0 as usize,
        }
    }
}
