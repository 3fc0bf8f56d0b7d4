//! What a search writes and answers.

/// A move: the number of the entry left, the symbol, the number of the entry reached.
#[derive(Clone, Copy, PartialEq, Eq, Default, Debug)]
pub struct Move<N> {
    pub from: N,
    pub symbol: u16,
    pub to: N,
}

/// How many entries and moves were found.
#[derive(Clone, Copy, PartialEq, Eq, Debug)]
pub struct Count {
    pub entries: usize,
    pub moves: usize,
}

// Not a `Count`, though of its shape: a limit in place of a count does not build.

/// How many entries and moves there may be at most.
#[derive(Clone, Copy, PartialEq, Eq, Debug)]
pub struct Limits {
    pub entries: usize,
    pub moves: usize,
}

/// What stops a search.
#[derive(Clone, Copy, PartialEq, Eq, Debug)]
pub enum Stop {
    /// the space has no place for what this entry leads to
    Room(usize),
    /// the entry of this number has no place
    Entry(usize),
    /// of this entry left, the move of this number has no place
    Arrow(usize, usize),
}
