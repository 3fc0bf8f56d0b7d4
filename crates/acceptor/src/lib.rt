//! Opened acceptors and turns: what runs a sentence word by word, and what is told of it.
#![tactic(auto)]

pub mod fault;
pub mod flat;
pub mod rows;
pub mod running;
pub mod subset;
pub mod turn;
