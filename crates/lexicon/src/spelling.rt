//! A spelling: 1 to 16 bytes, each a small letter or a digit.
ghost use Rattle.std.specs.Prelude.{◌≡◌, [], Decides, MatchOption};
ghost use Rattle.lexicon.specs.Spellings.{IsLetter, IsSpelling, BadAt, Read};

use crate::fault::LexiconFault;
use std::marker::Model;

/// The most bytes of a spelling.
const MOST: usize = 16;

/// A spelling, or no byte, seen as the list of its bytes: the first `len` of the array, which zeros follow.
// An array and a length: nothing is allocated, and a row has a fixed size.
#[derive(Clone, Copy, PartialEq, Eq, Debug)]
pub struct Spelling {
    bytes: [u8; MOST],
    len: usize,
}

impl Model for Spelling {
    ghost use Rattle.std.specs.Prelude.{ℕ, List, take};

    ghost Value = { List ℕ };

    ghost use Rattle.lexicon.specs.Padding.{Padded, padded, padded_back};

    ghost view = { λ s. take s.len s.bytes };

    ghost invariant = { λ s. Padded s };

    ghost inverse = { padded };

    ghost inverse_ok = { padded_back };
}

/// Whether a spelling may have this byte.
fn is_letter(byte: u8) -> bool
    ensures { Decides result (IsLetter byte) }
{
    matches!(byte, b'a'..=b'z' | b'0'..=b'9')
}

/// The first place at which these bytes are no spelling, if they are none.
fn bad_at(bytes: &[u8]) -> Option<usize>
    ensures { MatchOption result (IsSpelling bytes.now) (BadAt bytes.now) }
{
    let front = &bytes[..bytes.len().min(MOST)];
    if let Some(i) = front.iter().position(|byte| !is_letter(*byte)) {
        return Some(i);
    }
    if (1..=MOST).contains(&bytes.len()) {
        None
    } else {
        Some(front.len())
    }
}

impl Spelling {
    /// No byte: what a row may hold before a spelling stands in it.
    pub fn blank() -> Spelling
        ensures { result ≡ [] }
    {
        Spelling {
            bytes: [0; MOST],
            len: 0,
        }
    }

    /// The spelling that these bytes are, or the first place at which they are none.
    pub fn read(bytes: &[u8]) -> Result<Spelling, LexiconFault>
        ensures { Read bytes.now result }
    {
        if let Some(i) = bad_at(bytes) {
            return Err(LexiconFault::BadSpelling(i));
        }
        let mut padded = [0; MOST];
        padded[..bytes.len()].copy_from_slice(bytes);
        Ok(Spelling {
            bytes: padded,
            len: bytes.len(),
        })
    }
}
