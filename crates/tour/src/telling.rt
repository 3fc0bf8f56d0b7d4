//! How the tour prints what a call answered.
ghost use Rattle.std.specs.Prelude.{◌≡◌, if◌then◌else◌, codes};

use super::house::spelling;
use book::{BookFault, Refusal};
use std::io;

/// What was called, and the length that it used or its refusal.
pub fn tell(rt: &impl Print, call: &str, answer: Result<usize, BookFault>) -> io::Result<()> {
    match answer {
        Ok(used) => println!(rt; "{call}: {used} used"),
        Err(fault) => refuse(rt, call, fault),
    }
}

/// What was refused, with number, layer and place.
pub fn refuse(rt: &impl Print, name: &str, fault: impl Into<Refusal>) -> io::Result<()> {
    let refusal = fault.into();
    println!(rt; "{name}: {refusal}")
}

/// Yes or no.
pub fn yes_no(fact: bool) -> &'static str
    ensures { result.now ≡ (if fact then codes "yes" else codes "no") }
{
    if fact { "yes" } else { "no" }
}

/// A rule as it is written on paper.
pub fn print_rule(rt: &impl Print, left: u16, right: &[u16]) -> io::Result<()> {
    let name = spelling(left);
    print!(rt; "  {name} →")?;
    for symbol in right {
        let text = spelling(*symbol);
        print!(rt; " {text}")?;
    }
    println!(rt; "")
}
