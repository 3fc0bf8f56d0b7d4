//! The finding order: one numbering for states, nodes and subset states.
//!
//! The start is number 0. Entries are taken by number and symbols upward; a target that was not found before gets the next number.
#![tactic(auto)]

pub mod lookup;
pub mod moves;
pub mod order;
pub mod space;
