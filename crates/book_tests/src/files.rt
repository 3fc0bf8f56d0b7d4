//! Book files: whole, cut, spoilt, and without room.
use super::answers::{refuses, uses};
use super::example::{FILE, TABLE};
use book::{load, save};
use std::process::Abort;

#[test]
fn there_and_back(rt: HostRuntime) {
    let mut table = [7; 13];
    uses(&rt, load(&FILE, &mut table), 11);
    assert_eq!(rt; table, [2, 1, 2, 2, 2, 3, 0, 2, 1, 2, 0, 7, 7]);
    let mut file = [9; 29];
    uses(&rt, save(&table, &mut file), 27);
    assert!(rt; file.starts_with(&FILE));
    assert_eq!(rt; (file[27], file[28]), (9, 9));
}

/// Load refuses the file, and leaves the table.
fn refuses_file(rt: &impl Abort, file: &[u8], number: u8, place: usize) {
    let mut table = [7; 11];
    refuses(rt, load(file, &mut table), number, place);
    assert_eq!(rt; table, [7; 11]);
}

#[test]
fn cut_at_every_byte(rt: HostRuntime) {
    for length in 0..FILE.len() {
        if length < 5 || length % 2 == 0 {
            refuses_file(&rt, &FILE[..length], 9, length);
        } else {
            refuses_file(&rt, &FILE[..length], 1, (length - 5) / 2);
        }
    }
}

#[test]
fn left_over(rt: HostRuntime) {
    let mut file = [0; 31];
    file[..27].copy_from_slice(&FILE);
    refuses_file(&rt, &file[..28], 9, 28);
    refuses_file(&rt, &file[..29], 9, 29);
    refuses_file(&rt, &file, 9, 31)
}

#[test]
fn other_mark_or_version(rt: HostRuntime) {
    for i in 0..5 {
        let mut file = FILE;
        file[i] ^= 2;
        refuses_file(&rt, &file, 8, if i < 3 { 0 } else { 3 });
    }
}

#[test]
fn one_too_short(rt: HostRuntime) {
    let mut file = [9; 27];
    refuses(&rt, save(&TABLE, &mut file[..26]), 16, 27);
    assert_eq!(rt; file, [9; 27]);
    uses(&rt, save(&TABLE, &mut file), 27);
    let mut table = [7; 11];
    refuses(&rt, load(&file, &mut table[..10]), 7, 11);
    assert_eq!(rt; table, [7; 11]);
    uses(&rt, load(&file, &mut table), 11);
    assert_eq!(rt; table, TABLE);
}
