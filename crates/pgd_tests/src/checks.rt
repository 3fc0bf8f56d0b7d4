//! Files that are whole, cut, spoilt in one field, or one byte too long.
use super::answers::{accepts, refuses};
use super::example::FILE;

/// A place of the example's file, the number put there, and the place of the first fault.
const SPOILT: [(usize, u16, usize); 27] = [
    (0, 0x4742, 0),
    (1, 0x4147, 0),
    (3, 0, 3),
    (3, 2, 3),
    (3, 257, 3),
    (5, 0, 5),
    (5, 1025, 5),
    (5, 1, 28),
    (7, 0, 7),
    (7, 1025, 7),
    (7, 2, 17),
    (9, 16385, 9),
    (9, 3, 32),
    (9, 5, 38),
    (11, 0x0002, 11),
    (12, 0x01ff, 12),
    (12, 0x0200, 13),
    (14, 3, 14),
    (16, 2, 16),
    (18, 3, 18),
    (20, 0, 20),
    (26, 0, 26),
    (28, 0, 26),
    (32, 0, 32),
    (32, 3, 32),
    (34, 2, 34),
    (36, 3, 36),
];

// Here and in `answers`: a crate that the tests of both kinds of file share would be longer than these lines.

/// The example's file with a number put at `at`.
fn spoilt(at: usize, number: u16) -> [u8; 38] {
    let mut file = FILE;
    if at < 37 {
        file[at..at + 2].copy_from_slice(&number.to_le_bytes());
    }
    file
}

#[test]
fn one_field_wrong(rt: HostRuntime) {
    for (at, number, place) in SPOILT {
        refuses(&rt, &spoilt(at, number), place);
    }
}

#[test]
fn cut_at_every_byte(rt: HostRuntime) {
    accepts(&rt, &FILE, 2, 3, 4);
    for length in 0..FILE.len() {
        refuses(&rt, &FILE[..length], length);
    }
}

#[test]
fn one_byte_too_many(rt: HostRuntime) {
    let mut file = [0; 40];
    file[..38].copy_from_slice(&FILE);
    refuses(&rt, &file[..39], 38);
    refuses(&rt, &file, 38);
}

#[test]
fn one_state_and_no_arc(rt: HostRuntime) {
    accepts(&rt, &[0x50, 0x47, 0x44, 1, 0, 1, 0, 1, 0, 0, 0, 0], 1, 1, 0);
    accepts(&rt, &[0x50, 0x47, 0x44, 1, 0, 1, 0, 1, 0, 0, 0, 1], 1, 1, 0);
    refuses(&rt, &[0x50, 0x47, 0x44, 1, 0, 1, 0, 1, 0, 0, 0, 2], 11);
}

#[test]
fn most_words_and_states(rt: HostRuntime) {
    let mut file = [0; 1036];
    file[..11].copy_from_slice(&[0x50, 0x47, 0x44, 1, 0, 0, 4, 0, 4, 0, 0]);
    accepts(&rt, &file[..1035], 1024, 1024, 0);
    refuses(&rt, &file[..1034], 1034);
    refuses(&rt, &file, 1035);
}
