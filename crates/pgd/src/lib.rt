//! The file of a determinised acceptor: its bytes and the check of a file.
#![tactic(auto)]

pub mod check;
pub mod format;
pub mod writer;
