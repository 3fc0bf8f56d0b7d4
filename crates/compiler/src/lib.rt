//! Compile: from a book to the file of its acceptor under a policy.
#![tactic(auto)]

pub mod compile;
pub mod fault;
pub mod tables;
