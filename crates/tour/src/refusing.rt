//! What is refused, with number, layer and place.
use super::house::{LAMP, NAMES, ORDER, THE, THING, WORDS};
use super::telling::{tell, yes_no};
use super::{BYTES, ENTRIES};
use book::{add, blank, load, save};
use std::io;

/// How many entries the house's book takes.
const USED: usize = 45;

/// How many bytes its file takes.
const SAVED: usize = 5 + 2 * USED;

/// A right side that is one symbol too long.
const SEVENTEEN: [u16; 17] = [LAMP; 17];

/// Headers and rules that no book may have.
fn bad_rules(rt: &impl Print, table: &mut [u16]) -> io::Result<()> {
    tell(rt, "no words", blank(table, 0, NAMES, ORDER))?;
    tell(rt, "start is a word", blank(table, WORDS, NAMES, LAMP))?;
    tell(rt, "left is a word", add(table, THE, &[LAMP]))?;
    tell(rt, "17 symbols", add(table, THING, &SEVENTEEN))?;
    tell(
        rt,
        "unknown symbol",
        add(table, THING, &[THE, WORDS + NAMES]),
    )
}

/// Tables and outputs that are too short.
fn too_short(
    rt: &impl Print,
    table: &mut [u16; ENTRIES],
    file: &mut [u8; BYTES],
) -> io::Result<()> {
    tell(
        rt,
        "no room for a rule",
        add(&mut table[..USED + 2], THING, &[LAMP]),
    )?;
    tell(
        rt,
        "no room for the book",
        load(&file[..SAVED], &mut table[..USED - 1]),
    )?;
    tell(
        rt,
        "no room for the file",
        save(table, &mut file[..SAVED - 1]),
    )
}

/// Files that are no book files.
fn bad_files(
    rt: &impl Print,
    table: &mut [u16; ENTRIES],
    file: &mut [u8; BYTES],
) -> io::Result<()> {
    tell(rt, "half an entry", load(&file[..SAVED - 1], table))?;
    tell(
        rt,
        "the last entry missing",
        load(&file[..SAVED - 2], table),
    )?;
    tell(rt, "an entry left over", load(&file[..SAVED + 2], table))?;
    file[3] = 2;
    tell(rt, "another version", load(&file[..SAVED], table))?;
    file[0] = b'Q';
    tell(rt, "another mark", load(&file[..SAVED], table))
}

/// Tries what is to be refused, and tells whether the book stands as it was.
pub fn chapter(
    rt: &impl Print,
    table: &mut [u16; ENTRIES],
    file: &mut [u8; BYTES],
) -> io::Result<()> {
    println!(rt; "")?;
    println!(rt; "What is refused")?;
    let before = *table;
    bad_rules(rt, table)?;
    too_short(rt, table, file)?;
    bad_files(rt, table, file)?;
    let same = yes_no(*table == before);
    println!(rt; "the book stands as it was: {same}")
}
