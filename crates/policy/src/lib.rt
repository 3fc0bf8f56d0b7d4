//! Policies: which stacks of the machine share a class, and how many classes there is room for.
#![tactic(auto)]

pub mod one_class;
pub mod path;
pub mod places;
pub mod stacks;
