//! The layout of the file of a determinised acceptor, beside what both kinds share.

/// The mark, which stands in front.
pub const MARK: [u8; 3] = *b"PGD";

/// The most states.
pub const MOST_STATES: usize = 1024;

/// Where the bytes of the states begin, one for each; the arcs follow them.
pub const FINALS_AT: usize = 11;
