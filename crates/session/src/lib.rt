//! A session: a book, its two acceptor files and the turns on them, in lent tables, and the calls that work on them.
//!
//! After any list of calls from a blank book, each answer and all that is left are as the history of the calls says, and at each end the verdict holds: nothing
//! that the book derives is lost, linear books are exact, and a finer policy passes no more.
#![tactic(auto)]

mod buffer;
pub mod fault;
pub mod record;
pub mod session;
mod turns;
