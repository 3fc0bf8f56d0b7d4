//! Tests of the lexicon at its bounds.
#![tactic(auto)]

use book::Refusal;
use lexicon::{Lexicon, LexiconFault, Spelling};

/// Bytes that are no spelling, and the first bad place.
const BAD: [(&[u8], usize); 9] = [
    (b"", 0),
    (b"Lamp", 0),
    (b" lamp", 0),
    (b"lamp ", 4),
    (b"lamp-on", 4),
    (b"abcdefghijklmnopq", 16),
    (b"abc_efghijklmnopq", 3),
    (b"abcdefghijklmno{", 15),
    (b"abcdefghijklmnop!", 16),
];

#[cfg(test)]
mod tests {
    use super::*;
    use std::process::Abort;

    // The lexicon refuses the bytes with this number and place.
    fn refuses(rt: &impl Abort, answer: Result<u16, LexiconFault>, number: u8, place: usize) {
        let refusal = Refusal {
            number,
            layer: 7,
            place,
        };
        assert_eq!(rt; answer.map_err(Refusal::from), Err(refusal));
    }

    #[test]
    fn first_arrival_counts(rt: HostRuntime) {
        let mut rows = [Spelling::blank(); 4];
        let mut lexicon = Lexicon::over(&mut rows);
        assert_eq!(rt; lexicon.number(b"lamp"), Ok(0));
        assert_eq!(rt; lexicon.number(b"on"), Ok(1));
        assert_eq!(rt; lexicon.number(b"lamp"), Ok(0));
        assert_eq!(rt; lexicon.number(b"lamp2"), Ok(2));
        assert_eq!(rt; lexicon.number(b"0123456789abcdef"), Ok(3));
        assert_eq!(rt; lexicon.number(b"on"), Ok(1));
        assert_eq!(rt; lexicon.len(), 4);
    }

    #[test]
    fn no_spelling(rt: HostRuntime) {
        let mut rows = [Spelling::blank(); 1];
        let mut lexicon = Lexicon::over(&mut rows);
        for (bytes, place) in BAD {
            refuses(&rt, lexicon.number(bytes), 22, place);
        }
        assert_eq!(rt; lexicon.len(), 0);
    }

    #[test]
    fn full(rt: HostRuntime) {
        let mut rows = [Spelling::blank(); 2];
        let mut lexicon = Lexicon::over(&mut rows);
        assert_eq!(rt; lexicon.number(b"a"), Ok(0));
        assert_eq!(rt; lexicon.number(b"b"), Ok(1));
        refuses(&rt, lexicon.number(b"c"), 23, 2);
        refuses(&rt, lexicon.number(b"C"), 22, 0);
        assert_eq!(rt; lexicon.number(b"b"), Ok(1));
        let mut none = Lexicon::over(&mut []);
        refuses(&rt, none.number(b"a"), 23, 0);
    }

    #[test]
    fn most_spellings(rt: HostRuntime) {
        let mut rows = [Spelling::blank(); 1030];
        let mut lexicon = Lexicon::over(&mut rows);
        for n in 0..1024u16 {
            let [low, high] = n.to_le_bytes();
            let bytes = [b'a' + low % 16, b'a' + low / 16, b'a' + high % 16];
            assert_eq!(rt; lexicon.number(&bytes), Ok(n));
        }
        refuses(&rt, lexicon.number(b"lamp"), 23, 1024);
        assert_eq!(rt; lexicon.number(b"aaa"), Ok(0));
    }
}
