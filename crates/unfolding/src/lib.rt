//! The unfolded machine: each state once for each class of the stacks that lead to it.
#![tactic(auto)]

pub mod fault;
pub mod moves;
pub mod node;
pub mod space;
pub mod unfold;
