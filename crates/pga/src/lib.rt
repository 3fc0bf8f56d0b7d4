//! The acceptor file: its bytes, the check of a file, and its text.
#![tactic(auto)]

pub mod check;
pub mod fault;
pub mod format;
pub mod listing;
pub mod writer;
