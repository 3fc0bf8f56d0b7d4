//! Arcs and jumps where they stand in the bytes of a file, found by halving.
ghost use Rattle.std.specs.Prelude.{◌≡◌, ◌+◌, ◌-◌, ◌^◌, ◌<◌, ◌≤◌, length, take, drop};
ghost use Rattle.table.specs.Lists.{StandsAt, InOrder};
ghost use Rattle.finding.specs.Laws.{Rises};
ghost use Rattle.flattening.specs.Places.{MoveOn};
ghost use Rattle.fields.specs.Reading.{number_at};
ghost use Rattle.pga.specs.Reading.{jump_in};
ghost use Rattle.acceptor.specs.Rising.{less, Less, Parted};
ghost use Rattle.acceptor.specs.Rows.{arcs_of, keys_of, LeastWord};

use fields::format::ARC_SIZE;
use pga::format::JUMP_SIZE;

/// Rows of `SIZE` bytes, one after the other; each begins with two numbers of two bytes, by which they are ordered. Bytes after the last whole row are not read.
// That they rise is no ghost field: a file is read without its check, so each call says what it promises of rows that do.
#[derive(Clone, Copy)]
pub struct Rows<'a, const SIZE: usize> {
    bytes: &'a [u8],
    ghost sized: { (4 ≤ SIZE) × (SIZE ≤ 6) },
}

/// Arcs: from, word and to, two bytes each.
pub type Arcs<'a> = Rows<'a, ARC_SIZE>;

/// Jumps: from and to, two bytes each.
pub type Jumps<'a> = Rows<'a, JUMP_SIZE>;

/// The number in the two bytes at `at`.
// Beside `number_at` of `fields`, which gives an index: the numbers of an opened acceptor keep the width of the file, and each is one call.
pub fn number(bytes: &[u8], at: usize) -> u16
    requires { at + 2 ≤ length bytes.now }
    ensures { result ≡ number_at bytes.now at }
{
    u16::from_le_bytes([bytes[at], bytes[at + 1]])
}

/// The number in the two bytes at `at`, or 0 where the bytes end before.
// A zero and no Option: `read` cannot fail, and of bytes that are no file any acceptor will do.
pub fn number_or_zero(bytes: &[u8], at: usize) -> u16
    requires { at < 2 ^ 32 }
    ensures { at + 2 ≤ length bytes.now → result ≡ number_at bytes.now at }
{
    bytes.get(at..at + 2).map_or(0, |two| number(two, 0))
}

/// The bytes from `start` to `end`, or none where there are not so many.
// Empty and no Option, for the same reason as in `number_or_zero`.
pub fn cut<'a>(bytes: &'a [u8], start: usize, end: usize) -> &'a [u8]
    ensures { start ≤ end → end ≤ length bytes.now → result.now ≡ take (end - start) (drop start bytes.now) }
{
    bytes.get(start..end).unwrap_or(&[])
}

/// The two numbers in the four bytes at `at`.
fn pair(bytes: &[u8], at: usize) -> (u16, u16)
    requires { at + 4 ≤ length bytes.now }
    ensures { result ≡ jump_in bytes.now at }
{
    (number(bytes, at), number(bytes, at + 2))
}

impl<'a, const SIZE: usize> Rows<'a, SIZE> {
    /// How many rows there are.
    pub fn count(&self) -> usize
        ensures { result ≡ length (keys_of SIZE self.now.bytes.now) }
    {
        self.bytes.len() / SIZE
    }

    /// The two numbers of a row.
    pub fn key(&self, row: usize) -> (u16, u16)
        requires { row < length (keys_of SIZE self.now.bytes.now) }
        ensures { StandsAt (keys_of SIZE self.now.bytes.now) row result }
    {
        pair(self.bytes, SIZE * row)
    }

    /// How many rows come before the key (`first`, `second`).
    pub fn seek(&self, first: u16, second: u16) -> usize
        ensures within { result ≤ length (keys_of SIZE self.now.bytes.now) }
        ensures parted { InOrder Less (keys_of SIZE self.now.bytes.now) → Parted (keys_of SIZE self.now.bytes.now) (first, second) result }
    {
        let (rows, _) = self.bytes.as_chunks();
        rows.partition_point(
            |row: &[u8; SIZE]| -> bool
                requires { 4 ≤ SIZE }
                ensures { result ≡ less (jump_in row.now 0) (first, second) }
            { pair(row, 0) < (first, second) },
        )
    }
}

impl<'a> Rows<'a, ARC_SIZE> {
    /// The arcs that stand in these bytes.
    pub fn over(bytes: &'a [u8]) -> Arcs<'a>
        ensures { result.bytes.now ≡ bytes.now }
    {
        Arcs { bytes }
    }

    /// Where the arc on `word` leads from `from`, if there is one.
    pub fn target(&self, from: u16, word: u16) -> Option<u16>
        ensures { InOrder Rises (arcs_of self.now.bytes.now) → MoveOn (arcs_of self.now.bytes.now) from word result }
    {
        let (rows, _) = self.bytes.as_chunks::<ARC_SIZE>();
        let row = rows.get(self.seek(from, word))?;
        if pair(row, 0) == (from, word) {
            Some(number(row, 4))
        } else {
            None
        }
    }

    /// The least word that is `least` or more on which an arc leaves `from`.
    pub fn next_word(&self, from: u16, least: u16) -> Option<u16>
        ensures { InOrder Rises (arcs_of self.now.bytes.now) → LeastWord (arcs_of self.now.bytes.now) from least result }
    {
        let (rows, _) = self.bytes.as_chunks::<ARC_SIZE>();
        let (left, word) = pair(rows.get(self.seek(from, least))?, 0);
        if left == from { Some(word) } else { None }
    }
}

impl<'a> Rows<'a, JUMP_SIZE> {
    // One `over` for each size: so neither has to ask its caller that the size is a lawful one.

    /// The jumps that stand in these bytes.
    pub fn over(bytes: &'a [u8]) -> Jumps<'a>
        ensures { result.bytes.now ≡ bytes.now }
    {
        Jumps { bytes }
    }
}
