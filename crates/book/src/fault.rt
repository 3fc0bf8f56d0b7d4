//! The faults of a book, and what every refusal tells.
ghost use Rattle.std.specs.Prelude.{◌≡◌, Some};
ghost use Rattle.book.specs.Refusals.{refusal as refusal_of, refusal_line};

use std::fmt;

/// What a refusal tells: the number of its cause, its layer, and its place.
// Numbers, and no enum: this is what is told outward and printed; the causes are the cases of the faults.
#[derive(Clone, Copy, PartialEq, Eq, Debug)]
pub struct Refusal {
    pub number: u8,
    pub layer: u8,
    pub place: usize,
}

/// As `refused 3 layer 1 place 4`.
impl fmt::Display for Refusal {
    ghost output = { λ r. Some (refusal_line r) };

    fn fmt<W: fmt::Write>(&self, f: &mut fmt::Formatter<W>) -> fmt::Result {
        let Refusal {
            number,
            layer,
            place,
        } = *self;
        write!(f, "refused {number} layer {layer} place {place}")
    }
}

/// Why a call on a book was refused, with the place.
#[derive(Clone, Copy, PartialEq, Eq, Debug)]
pub enum BookFault {
    /// the entry of this index is missing
    EntryMissing(usize),
    /// the header's entry of this index is out of its range
    HeaderRange(usize),
    /// the left side at this index is no name
    LeftNotName(usize),
    /// the length at this index is over 16
    SideTooLong(usize),
    /// the symbol at this index is neither a word nor a name
    SymbolUnknown(usize),
    /// with the rule at this index there are more than 4,096 dotted rules
    TooManyItems(usize),
    /// the book is full: where the rule would begin, or how many entries are needed
    NoRoom(usize),
    /// the mark (at 0) or the version (at 3) is another
    WrongMark(usize),
    /// a file of this length is too short, has half an entry, or has entries left over
    WrongLength(usize),
    /// the output is too short for this many bytes
    OutputShort(usize),
}

/// The number, layer and place of the fault.
impl From<BookFault> for Refusal {
    ghost from_gives = { λ f r. r ≡ refusal_of f };

    fn from(fault: BookFault) -> Refusal {
        let (number, place) = match fault {
            BookFault::EntryMissing(i) => (1, i),
            BookFault::HeaderRange(i) => (2, i),
            BookFault::LeftNotName(i) => (3, i),
            BookFault::SideTooLong(i) => (4, i),
            BookFault::SymbolUnknown(i) => (5, i),
            BookFault::TooManyItems(i) => (6, i),
            BookFault::NoRoom(n) => (7, n),
            BookFault::WrongMark(i) => (8, i),
            BookFault::WrongLength(n) => (9, n),
            BookFault::OutputShort(n) => (16, n),
        };
        Refusal {
            number,
            layer: 1,
            place,
        }
    }
}
