//! The jumps of an acceptor, in their order.
use table::numbers::NodeNo;

/// A jump: the node left, and the node reached. Jumps are ordered by the node left, then by the node reached.
#[derive(Clone, Copy, PartialEq, Eq, PartialOrd, Ord, Default, Debug)]
pub struct Jump {
    pub from: NodeNo,
    pub to: NodeNo,
}
