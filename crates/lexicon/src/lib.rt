//! The lexicon: a number for each spelling, from 0 in order of first arrival.
#![tactic(auto)]

mod fault;
mod lexicon;
mod spelling;

pub use fault::LexiconFault;
pub use lexicon::Lexicon;
pub use spelling::Spelling;
