//! What every kind of acceptor is: positions of its own, and how words lead from one to the next.
ghost use Rattle.std.specs.Prelude.{◌≡◌, ℕ, ◌↔◌, List, [], ◌∷◌, Decides};

/// What runs a sentence word by word.
pub trait Acceptor {
    type Position: Copy;

    /// how many words it knows
    ghost words: { Self → ℕ };

    /// its tables are in order, as those of an opened file are
    ghost sound: { Self → Type 0 };

    /// the sentences of the file
    ghost sentences: { Self → List ℕ → Type 0 };

    /// the sentences that lead from a position to yes
    ghost rests: { Self → Self.Position → List ℕ → Type 0 };

    /// the position is the first
    ghost starts: { Self → Self.Position → Type 0 };

    /// the word leads from the one position to the other
    ghost goes: { Self → Self.Position → ℕ → Self.Position → Type 0 };

    /// How many words it knows.
    fn words(&self) -> u16
        ensures { result ≡ words self.now };

    /// The first position: it has the file's sentences.
    fn first(&self) -> Self::Position
        ensures starts { sound self.now → starts self.now result }
        ensures begins { sound self.now → (s : List ℕ) → rests self.now result s ↔ sentences self.now s };

    /// The position to which the word leads: it keeps just the rests after that word.
    fn step(&self, at: Self::Position, word: u16) -> Self::Position
        ensures goes { sound self.now → goes self.now at word result }
        ensures steps { sound self.now → (s : List ℕ) → rests self.now result s ↔ rests self.now at (word ∷ s) };

    /// Whether the empty sentence leads from here to yes.
    fn end(&self, at: Self::Position) -> bool
        ensures { sound self.now → Decides result (rests self.now at []) };
}
