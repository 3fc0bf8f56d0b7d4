//! The layout of an acceptor file, beside what both kinds share.

/// The mark, which stands in front.
pub const MARK: [u8; 3] = *b"PGA";

/// The most nodes.
pub const MOST_NODES: usize = 4096;

/// Where the arcs begin; the jumps follow them.
pub const ARCS_AT: usize = 15;

/// How many bytes a jump takes: from, to.
pub const JUMP_SIZE: usize = 4;
