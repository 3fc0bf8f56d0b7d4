//! The phrase book: a context-free grammar in a table of 16-bit numbers, and its file.
#![tactic(auto)]

mod entries;
mod fault;
mod file;
mod linear;
mod reader;
mod rules;
mod writer;

pub use fault::{BookFault, Refusal};
pub use file::{load, save};
pub use linear::{Linearity, shape};
pub use reader::{Summary, check};
pub use rules::{Rules, TableRule};
pub use writer::{add, blank};
