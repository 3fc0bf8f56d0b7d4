//! The nodes of the unfolded machine.
use table::numbers::{ClassNo, StateNo};

/// A state, and the number of the class of the stacks that lead to the node.
#[derive(Clone, Copy, PartialEq, Eq, Default, Debug)]
pub struct Node {
    pub state: StateNo,
    pub class: ClassNo,
}
