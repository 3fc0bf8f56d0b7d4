//! More policies: the last states left, and two policies side by side.
#![tactic(auto)]

pub mod both;
pub mod comparing;
pub mod last;
