//! What the layouts of both kinds of acceptor file share.

/// The version, which follows the mark.
pub const VERSION: u16 = 1;

/// The most words that an acceptor may have.
pub const MOST_WORDS: usize = 1024;

/// The most arcs, and the most jumps.
pub const MOST_ROWS: usize = 16384;

/// How many bytes an arc takes: from, word, to.
pub const ARC_SIZE: usize = 6;
