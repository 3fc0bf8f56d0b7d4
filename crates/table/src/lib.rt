//! What the layers above share: numbers of their own kind, the find-or-add table, and sets of numbers.
#![tactic(auto)]

pub mod entries;
pub mod numbers;
pub mod sets;
