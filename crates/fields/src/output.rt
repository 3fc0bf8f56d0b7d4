//! Putting bytes into an output, one after the other.
ghost use Rattle.std.specs.Prelude.{◌≡◌, ◌+◌, ◌*◌, ◌^◌, ◌<◌, [], ◌∷◌, length};
ghost use Rattle.std.specs.Fn.{FnReturnsAt};
ghost use Rattle.std.specs.List.{flat_map};
ghost use Rattle.book.specs.Files.{bytes_of};
ghost use Rattle.fields.specs.Putting.{Puts, PutsArcs};

use finding::moves::Move;
use table::numbers::Number;

/// An output, and the place of the next byte in it. Bytes for which there is no room are counted, and not written.
// Bytes and a place: what has no room is counted too, which a slice that shrinks would not tell. Each call asks that the count has room for what it puts: it goes on
// past the end, so no length bounds it.
#[derive(Drop)]
pub struct Output<'a> {
    bytes: &'a mut [u8],
    at: usize,
}

impl<'a> Output<'a> {
    /// These bytes, from the first on.
    pub fn new(bytes: &'a mut [u8]) -> Output<'a>
        ensures lent { result.bytes.ghost_name ≡ bytes.entry.ghost_name }
        ensures bytes { result.bytes.now ≡ bytes.old }
        ensures place { result.at ≡ 0 }
    {
        Output { bytes, at: 0 }
    }

    /// The place of the next byte: how many were put.
    pub fn place(&self) -> usize
        ensures { result ≡ self.now.at }
    {
        self.at
    }

    /// Puts a byte.
    pub fn byte(&mut self, byte: u8)
        requires { self.old.at < 2 ^ 63 }
        ensures { Puts self.old (byte ∷ []) self.new }
    {
        if self.at < self.bytes.len() {
            self.bytes[self.at] = byte;
        }
        self.at += 1;
    }

    /// Puts bytes, one after the other.
    pub fn text(&mut self, bytes: &[u8])
        requires { self.old.at + length bytes.now < 2 ^ 63 }
        ensures { Puts self.old bytes.now self.new }
    {
        for byte in bytes {
            self.byte(*byte);
        }
    }

    /// Puts a number as two bytes, the low one first.
    pub fn number(&mut self, number: u16)
        requires { self.old.at + 2 < 2 ^ 63 }
        ensures { Puts self.old (bytes_of number) self.new }
    {
        let [low, high] = number.to_le_bytes();
        self.byte(low);
        self.byte(high);
    }

    /// Puts numbers, one after the other.
    pub fn numbers(&mut self, numbers: &[u16])
        requires { self.old.at + 2 * length numbers.now < 2 ^ 63 }
        ensures { Puts self.old (flat_map bytes_of numbers.now) self.new }
    {
        for number in numbers {
            self.number(*number);
        }
    }

    /// Puts the wanted ones of these moves as arcs: from, symbol and to.
    pub fn arcs<N: Number, F: Fn(&Move<N>) -> bool>(&mut self, moves: &[Move<N>], wanted: F)
        requires callable { F.IsAlwaysCallable wanted }
        requires room { self.old.at + 6 * length moves.now < 2 ^ 63 }
        ensures { PutsArcs N.value (FnReturnsAt F.Fn wanted) moves.now self.old self.new }
    {
        for m in moves {
            if wanted(m) {
                self.numbers(&[m.from.index() as u16, m.symbol, m.to.index() as u16]);
            }
        }
    }
}
