//! The fields of acceptor files, of both kinds: reading, judging and putting them.
#![tactic(auto)]

pub mod check;
pub mod fault;
pub mod format;
pub mod output;
