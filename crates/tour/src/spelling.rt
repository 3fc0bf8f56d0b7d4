//! The house's words by their spelling: a lexicon gives each its number.
use super::house::{SPELLING, WORDS};
use super::telling::refuse;
use lexicon::{Lexicon, Spelling};
use std::io;

/// As many places as the house has words.
const PLACES: usize = WORDS as usize;

/// What one may say to the house.
const ORDER: [&str; 9] = [
    "turn", "on", "the", "lamp", "and", "turn", "off", "the", "heater",
];

/// The numbers of these words on one line.
fn print_numbers(
    rt: &impl Print,
    name: &str,
    lexicon: &mut Lexicon,
    words: &[&str],
) -> io::Result<()> {
    print!(rt; "{name}:")?;
    for word in words {
        if let Ok(number) = lexicon.number(word.as_bytes()) {
            print!(rt; " {number}")?;
        }
    }
    println!(rt; "")
}

/// The number of a word that the house does not have, or why it gets none.
fn print_other(rt: &impl Print, lexicon: &mut Lexicon, word: &str) -> io::Result<()> {
    match lexicon.number(word.as_bytes()) {
        Ok(number) => println!(rt; "{word}: {number}"),
        Err(fault) => refuse(rt, word, fault),
    }
}

/// The words in their order, an order in these words, and two that get no number.
pub fn chapter(rt: &impl Print) -> io::Result<()> {
    println!(rt; "")?;
    println!(rt; "Words by their spelling")?;
    let mut rows = [Spelling::blank(); PLACES];
    let mut lexicon = Lexicon::over(&mut rows);
    print_numbers(rt, "the words", &mut lexicon, &SPELLING[..PLACES])?;
    print_numbers(rt, "an order", &mut lexicon, &ORDER)?;
    print_other(rt, &mut lexicon, "Lamp")?;
    print_other(rt, &mut lexicon, "cellar")
}
