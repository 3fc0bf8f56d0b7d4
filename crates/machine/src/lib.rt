//! The characteristic machine of a grammar: states are sets of items, found from the closure of the added rule.
#![tactic(auto)]

mod closure;
pub mod fault;
pub mod items;
pub mod machine;
mod names;
mod space;
