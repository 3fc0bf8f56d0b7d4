//! Flattening: the arcs, the jumps and the final node of an acceptor, from the moves of an unfolded machine.
#![tactic(auto)]

pub mod fault;
pub mod flat;
pub mod jump;
pub mod kept;
pub mod lookup;
pub mod unfolded;
mod walk;
