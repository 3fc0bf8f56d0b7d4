//! Books near the ceilings.
ghost use Rattle.std.specs.Prelude.{◌<◌};

use book::{BookFault, add, blank};

/// As many rules as a book may have, over 1,000 words: 4,096 dotted rules, most of them in state 0.
pub fn many_items(table: &mut [u16]) -> Result<usize, BookFault> {
    let mut used = blank(table, 1000, 1, 1000)?;
    for i in 0..2047u16 {
        used = add(table, 1000, &[i % 1000])?;
    }
    Ok(used)
}

/// Thirty names that lead to one another over sixteen words: near 1,024 states, seventeen moves for every other one.
pub fn many_states(table: &mut [u16]) -> Result<usize, BookFault> {
    chained(table, 30, 16)
}

/// A hundred names that lead to one another over three words: near 4,096 nodes under last-2.
pub fn many_nodes(table: &mut [u16]) -> Result<usize, BookFault> {
    chained(table, 100, 3)
}

/// The same make with four names and two words.
pub fn few_nodes(table: &mut [u16]) -> Result<usize, BookFault> {
    chained(table, 4, 2)
}

/// Names that lead to one another in turn, each with one rule for each word.
fn chained(table: &mut [u16], names: u16, words: u16) -> Result<usize, BookFault> {
    let mut used = blank(table, words, names, words)?;
    for name in 0..names {
        used = add_rules(table, name, names, words)?;
    }
    Ok(used)
}

/// The rules of one name, one for each word. All rules, name by name, lead to the names in turn.
fn add_rules(table: &mut [u16], name: u16, names: u16, words: u16) -> Result<usize, BookFault>
    requires { name < names }
{
    let left = words.wrapping_add(name);
    let mut used = 0;
    for word in 0..words {
        let next = name.wrapping_mul(words).wrapping_add(word) % names;
        used = add(table, left, &[word, words.wrapping_add(next)])?;
    }
    Ok(used)
}

/// One name that goes on after each of 127 words: 16,384 moves, and near as many jumps.
pub fn many_moves(table: &mut [u16]) -> Result<usize, BookFault> {
    chained(table, 1, 127)
}
