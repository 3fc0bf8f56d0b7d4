//! Looking at the book: its summary and its shape.
use super::telling::{tell, yes_no};
use book::{check, shape};
use std::io;

/// Tells what the table holds.
pub fn chapter(rt: &impl Print, table: &[u16]) -> io::Result<()> {
    println!(rt; "")?;
    println!(rt; "What the book is")?;
    match check(table) {
        Ok(s) => println!(rt;
            "{} words, {} names, {} rules, {} entries, {} dotted rules",
            s.words, s.names, s.rules, s.used, s.items
        )?,
        Err(fault) => tell(rt, "check", Err(fault))?,
    }
    match shape(table) {
        Ok(s) => {
            let left = yes_no(s.left);
            let right = yes_no(s.right);
            println!(rt; "left-linear {left}, right-linear {right}")
        }
        Err(fault) => tell(rt, "shape", Err(fault)),
    }
}
