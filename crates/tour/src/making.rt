//! Making the book, call by call.
use super::house::{NAMES, ORDER, RULES, WORDS};
use super::telling::{print_rule, tell};
use book::{add, blank};
use std::io;

/// Writes the house's book into the table and tells what each call answers.
pub fn chapter(rt: &impl Print, table: &mut [u16]) -> io::Result<()> {
    println!(rt; "A book is made")?;
    tell(rt, "blank", blank(table, WORDS, NAMES, ORDER))?;
    for rule in RULES {
        print_rule(rt, rule.left, rule.right)?;
        tell(rt, "add", add(table, rule.left, rule.right))?;
    }
    Ok(())
}
