//! The largest books that pass, and those that are one too large.
use super::answers::{checked, refuses, uses};
use book::{add, blank};
use std::process::Abort;

/// The three numbers of a header, and the index of the one that is out of range.
const BAD_HEADERS: [(u16, u16, u16, usize); 8] = [
    (0, 1, 0, 0),
    (1025, 1, 1025, 0),
    (0, 0, 9, 0),
    (1, 0, 1, 1),
    (1, 1025, 1, 1),
    (2, 3, 1, 2),
    (2, 3, 5, 2),
    (1024, 1024, 2048, 2),
];

/// Blank refuses the number at `place`, and leaves the table.
fn refuses_header(rt: &impl Abort, words: u16, names: u16, start: u16, place: usize) {
    let mut table = [7; 6];
    refuses(rt, blank(&mut table, words, names, start), 2, place);
    assert_eq!(rt; table, [7; 6]);
}

#[test]
fn headers_out_of_range(rt: HostRuntime) {
    for (words, names, start, place) in BAD_HEADERS {
        refuses_header(&rt, words, names, start, place);
    }
}

#[test]
fn headers_in_range(rt: HostRuntime) {
    let mut table = [7; 6];
    uses(&rt, blank(&mut table, 1, 1, 1), 4);
    assert_eq!(rt; table, [1, 1, 1, 0, 7, 7]);
    uses(&rt, blank(&mut table[..4], 1024, 1024, 1024), 4);
    uses(&rt, blank(&mut table, 1024, 1024, 2047), 4);
    assert_eq!(rt; table, [1024, 1024, 2047, 0, 7, 7]);
}

#[test]
fn sixteen_symbols(rt: HostRuntime) {
    let mut table = [7; 24];
    uses(&rt, blank(&mut table, 1, 1, 1), 4);
    refuses(&rt, add(&mut table, 1, &[0; 17]), 4, 5);
    assert_eq!(rt; table[3], 0);
    uses(&rt, add(&mut table, 1, &[0; 16]), 22);
    assert_eq!(rt;
        (table[3], table[4], table[5], table[21], table[22]),
        (1, 1, 16, 0, 7)
    );
}

/// A book of so many rules S → ε, in a table of 4,104 entries.
fn empty_rules(rules: u16) -> [u16; 4104] {
    let mut table = [0; 4104];
    table[..4].copy_from_slice(&[1, 1, 1, rules]);
    for rule in table[4..].chunks_exact_mut(2) {
        rule[0] = 1;
    }
    table
}

#[test]
fn rules_2048(rt: HostRuntime) {
    let mut table = empty_rules(2047);
    uses(&rt, add(&mut table, 1, &[]), 4100);
    assert_eq!(rt; table[3], 2048);
    uses(&rt, checked(&table), 4100);
    refuses(&rt, add(&mut table, 1, &[]), 7, 4100);
    assert_eq!(rt; table[3], 2048);
    refuses(&rt, checked(&empty_rules(2049)), 2, 3)
}

/// A book of so many rules S → a..a of sixteen symbols, in a table of 4,400 entries.
fn long_rules(rules: u16) -> [u16; 4400] {
    let mut table = [0; 4400];
    table[..4].copy_from_slice(&[1, 1, 1, rules]);
    for rule in table[4..].chunks_exact_mut(18) {
        rule[0] = 1;
        rule[1] = 16;
    }
    table
}

#[test]
fn items_4096(rt: HostRuntime) {
    let mut table = long_rules(240);
    refuses(&rt, add(&mut table, 1, &[0; 14]), 6, 4324);
    assert_eq!(rt; table[3], 240);
    uses(&rt, add(&mut table, 1, &[0; 13]), 4339);
    uses(&rt, checked(&table), 4339);
    refuses(&rt, add(&mut table, 1, &[]), 6, 4339);
    refuses(&rt, checked(&long_rules(241)), 6, 4324)
}
