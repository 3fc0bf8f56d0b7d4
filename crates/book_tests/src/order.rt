//! Which of two faults is told, and what a refusal leaves.
use super::answers::{checked, refuses, uses};
use super::example::{FILE, TABLE};
use book::{Linearity, add, blank, load, save, shape};
use std::process::Abort;

#[test]
fn entries_as_they_stand(rt: HostRuntime) {
    refuses(&rt, checked(&[]), 1, 0);
    refuses(&rt, checked(&[2, 1, 9]), 2, 2);
    refuses(&rt, checked(&[2, 1, 2]), 1, 3);
    refuses(&rt, checked(&[2, 1, 2, 1]), 1, 4);
    refuses(&rt, checked(&[2, 1, 2, 1, 1]), 3, 4);
    refuses(&rt, checked(&[2, 1, 2, 1, 3]), 3, 4);
    refuses(&rt, checked(&[2, 1, 2, 1, 2, 17]), 4, 5);
    refuses(&rt, checked(&[2, 1, 2, 1, 2, 2, 3]), 5, 6);
    refuses(&rt, checked(&[2, 1, 2, 1, 2, 2, 0]), 1, 7);
    uses(&rt, checked(&[2, 1, 2, 1, 2, 2, 0, 1, 9, 9]), 8)
}

#[test]
fn blank_then_room(rt: HostRuntime) {
    let mut table = [7; 4];
    refuses(&rt, blank(&mut table[..3], 0, 1, 1), 2, 0);
    refuses(&rt, blank(&mut table[..3], 1, 1, 1), 7, 4);
    refuses(&rt, blank(&mut table[..0], 1, 1, 1), 7, 4);
    assert_eq!(rt; table, [7; 4]);
    uses(&rt, blank(&mut table, 1, 1, 1), 4)
}

/// Add refuses the rule, and leaves the table.
fn refuses_rule<const N: usize>(
    rt: &impl Abort,
    before: [u16; N],
    left: u16,
    right: &[u16],
    number: u8,
    place: usize,
) {
    let mut table = before;
    refuses(rt, add(&mut table, left, right), number, place);
    assert_eq!(rt; table, before);
}

#[test]
fn add_book_then_rule_then_room(rt: HostRuntime) {
    refuses_rule(&rt, [2, 1, 2, 1, 2, 1], 9, &[9], 1, 6);
    refuses_rule(&rt, [2, 1, 2, 1, 2, 1, 0], 1, &[9], 3, 7);
    refuses_rule(&rt, [2, 1, 2, 1, 2, 1, 0], 2, &[0; 17], 4, 8);
    refuses_rule(&rt, [2, 1, 2, 1, 2, 1, 0], 2, &[0, 3], 5, 10);
    refuses_rule(&rt, [2, 1, 2, 1, 2, 1, 0, 7, 7], 2, &[0], 7, 7);
    let mut table = [2, 1, 2, 1, 2, 1, 0, 7, 7, 7];
    uses(&rt, add(&mut table, 2, &[0]), 10);
    assert_eq!(rt; table, [2, 1, 2, 2, 2, 1, 0, 2, 1, 0]);
}

#[test]
fn load_in_order(rt: HostRuntime) {
    let mut table = [7; 10];
    refuses(&rt, load(b"QQQQ", &mut table), 9, 4);
    refuses(&rt, load(b"QQQ\x01\x00\x01", &mut table), 8, 0);
    refuses(&rt, load(b"PGB\x01\x01\x01", &mut table), 8, 3);
    refuses(&rt, load(b"PGB\x01\x00\x01", &mut table), 9, 6);
    refuses(&rt, load(b"PGB\x01\x00", &mut table), 1, 0);
    refuses(&rt, load(b"PGB\x01\x00\x00\x00", &mut table), 2, 0);
    refuses(
        &rt,
        load(
            b"PGB\x01\x00\x01\x00\x01\x00\x01\x00\x00\x00\x07\x00",
            &mut table[..3],
        ),
        9,
        15,
    );
    refuses(&rt, load(&FILE, &mut table), 7, 11);
    assert_eq!(rt; table, [7; 10]);
}

#[test]
fn save_book_then_room(rt: HostRuntime) {
    let mut file = [9; 4];
    refuses(&rt, save(&TABLE[..10], &mut file), 1, 10);
    refuses(&rt, save(&TABLE, &mut file), 16, 27);
    assert_eq!(rt; file, [9; 4]);
}

/// Whether a table's book is left-linear, and whether it is right-linear.
fn shapes(rt: &impl Abort, table: &[u16], left: bool, right: bool) {
    assert_eq!(rt; shape(table), Ok(Linearity { left, right }));
}

#[test]
fn shapes_of_books(rt: HostRuntime) {
    shapes(&rt, &[2, 2, 2, 0], true, true);
    shapes(&rt, &TABLE, false, false);
    shapes(&rt, &[2, 2, 2, 1, 2, 1, 3], true, true);
    shapes(
        &rt,
        &[2, 2, 2, 3, 2, 2, 3, 1, 3, 2, 3, 0, 3, 0],
        true,
        false,
    );
    shapes(&rt, &[2, 2, 2, 2, 2, 2, 1, 3, 3, 0], false, true);
    shapes(&rt, &[2, 2, 2, 2, 2, 2, 1, 3, 3, 2, 3, 1], false, false)
}
