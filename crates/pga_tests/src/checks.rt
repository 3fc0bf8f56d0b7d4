//! Files that are whole, cut, spoilt in one field, or one byte too long.
use super::answers::refuses;
use super::example::{FILE, HEADER};
use pga::check::{Header, check_file};

/// A place of the example's file, the number put there, and the place of the first fault.
const SPOILT: [(usize, u16, usize); 24] = [
    (0, 0x4742, 0),
    (1, 0x4247, 0),
    (3, 0, 3),
    (3, 2, 3),
    (3, 257, 3),
    (5, 0, 5),
    (5, 1025, 5),
    (5, 1, 29),
    (7, 0, 7),
    (7, 4097, 7),
    (7, 4, 31),
    (9, 5, 9),
    (11, 16385, 11),
    (11, 2, 35),
    (13, 16385, 13),
    (13, 3, 45),
    (13, 5, 49),
    (15, 5, 15),
    (17, 2, 17),
    (19, 5, 19),
    (21, 0, 21),
    (33, 5, 33),
    (35, 5, 35),
    (47, 2, 45),
];

// Here and in `answers`: a crate that the tests of both kinds of file share would be longer than these lines.

/// The example's file with a number put at `at`.
fn spoilt(at: usize, number: u16) -> [u8; 49] {
    let mut file = FILE;
    if at < 48 {
        file[at..at + 2].copy_from_slice(&number.to_le_bytes());
    }
    file
}

#[test]
fn one_field_wrong(rt: HostRuntime) {
    for (at, number, place) in SPOILT {
        refuses(&rt, &spoilt(at, number), place);
    }
}

#[test]
fn cut_at_every_byte(rt: HostRuntime) {
    assert_eq!(rt; check_file(&FILE), Ok(HEADER));
    for length in 0..FILE.len() {
        refuses(&rt, &FILE[..length], length);
    }
}

#[test]
fn one_byte_too_many(rt: HostRuntime) {
    let mut file = [0; 51];
    file[..49].copy_from_slice(&FILE);
    refuses(&rt, &file[..50], 49);
    refuses(&rt, &file, 49);
}

#[test]
fn numbers_at_their_bounds(rt: HostRuntime) {
    let least = [0x50, 0x47, 0x41, 1, 0, 1, 0, 1, 0, 0, 0, 0, 0, 0, 0];
    let header = Header {
        words: 1,
        nodes: 1,
        final_node: 0,
        arcs: 0,
        jumps: 0,
    };
    assert_eq!(rt; check_file(&least), Ok(header));
    let most = [0x50, 0x47, 0x41, 1, 0, 0, 4, 0, 16, 255, 15, 0, 0, 0, 0];
    let header = Header {
        words: 1024,
        nodes: 4096,
        final_node: 4095,
        arcs: 0,
        jumps: 0,
    };
    assert_eq!(rt; check_file(&most), Ok(header));
}
