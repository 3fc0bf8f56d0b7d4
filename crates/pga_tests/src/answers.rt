//! What the tests expect of an answer.
use book::Refusal;
use pga::check::check_file;
use pga::fault::ListFault;
use std::process::Abort;

/// The bytes are no acceptor's file, with the first fault at this place.
pub fn refuses(rt: &impl Abort, file: &[u8], place: usize) {
    let refusal = Refusal {
        number: 17,
        layer: 5,
        place,
    };
    assert_eq!(rt; check_file(file).err().map(Refusal::from), Some(refusal));
}

/// The list was refused with this number and place.
pub fn refuses_list(rt: &impl Abort, answer: Result<usize, ListFault>, number: u8, place: usize) {
    let refusal = Refusal {
        number,
        layer: 5,
        place,
    };
    assert_eq!(rt; answer.map_err(Refusal::from), Err(refusal));
}
