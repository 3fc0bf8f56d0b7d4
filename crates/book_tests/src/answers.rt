//! What the tests expect of an answer.
use book::{BookFault, Refusal};
use std::process::Abort;

/// The call was done, and used this length.
pub fn uses(rt: &impl Abort, answer: Result<usize, BookFault>, length: usize) {
    assert_eq!(rt; answer, Ok(length));
}

/// The call was refused with this number and place, in the book's layer.
pub fn refuses(rt: &impl Abort, answer: Result<usize, BookFault>, number: u8, place: usize) {
    let refusal = Refusal {
        number,
        layer: 1,
        place,
    };
    assert_eq!(rt; answer.map_err(Refusal::from), Err(refusal));
}

/// The length used, or the fault, of the grammar that a table holds.
pub fn checked(table: &[u16]) -> Result<usize, BookFault> {
    Ok(book::check(table)?.used)
}
