//! The subset construction: from an acceptor file to the file of its determinised acceptor.
#![tactic(auto)]

pub mod determinise;
pub mod fault;
pub mod space;
