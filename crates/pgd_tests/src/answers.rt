//! What the tests expect of an answer.
use book::Refusal;
use pgd::check::{Header, check_file};
use std::process::Abort;

/// The bytes are a determinised acceptor's file with so many words, states and arcs.
pub fn accepts(rt: &impl Abort, file: &[u8], words: usize, states: usize, arcs: usize) {
    let header = Header {
        words,
        states,
        arcs,
    };
    assert_eq!(rt; check_file(file), Ok(header));
}

/// The bytes are no determinised acceptor's file, with the first fault at this place.
pub fn refuses(rt: &impl Abort, file: &[u8], place: usize) {
    let refusal = Refusal {
        number: 17,
        layer: 5,
        place,
    };
    assert_eq!(rt; check_file(file).err().map(Refusal::from), Some(refusal));
}
