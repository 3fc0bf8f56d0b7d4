//! Saving the book to a file, and loading it again.
use super::telling::{tell, yes_no};
use super::{BYTES, ENTRIES};
use book::{load, save};
use std::io;

/// The first bytes of a file in hexadecimal: mark, version and header.
fn print_front(rt: &impl Print, file: &[u8]) -> io::Result<()> {
    for byte in file.iter().take(13) {
        print!(rt; "{byte:02x} ")?;
    }
    println!(rt; "..")
}

/// Loads a file into a table of its own, saves it from there, and tells whether the bytes are the same.
fn there_and_back(rt: &impl Print, file: &[u8]) -> io::Result<()> {
    let mut table = [0; ENTRIES];
    tell(rt, "load", load(file, &mut table))?;
    let mut copy = [0; BYTES];
    tell(rt, "save", save(&table, &mut copy))?;
    let same = yes_no(copy.starts_with(file));
    println!(rt; "the same bytes: {same}")
}

/// Saves the table's book to the file, and reads it from there.
pub fn chapter(rt: &impl Print, table: &[u16; ENTRIES], file: &mut [u8; BYTES]) -> io::Result<()> {
    println!(rt; "")?;
    println!(rt; "The book goes to a file and back")?;
    let answer = save(table, file);
    tell(rt, "save", answer)?;
    match answer {
        Ok(bytes) if bytes <= BYTES => {
            print_front(rt, file)?;
            there_and_back(rt, &file[..bytes])
        }
        _ => Ok(()),
    }
}
