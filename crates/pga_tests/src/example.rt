//! The example of the tests: the acceptor of S → a S b and S → ε, where a = 0, b = 1 and S = 2.
use finding::moves::Move;
use flattening::jump::Jump;
use pga::check::Header;
use pga::listing::Counts;
use table::numbers::NodeNo;

/// Its file.
pub const FILE: [u8; 49] = [
    0x50, 0x47, 0x41, 0x01, 0x00, 0x02, 0x00, 0x05, 0x00, 0x02, 0x00, 0x03, 0x00, 0x04, 0x00, 0x00,
    0x00, 0x00, 0x00, 0x01, 0x00, 0x01, 0x00, 0x00, 0x00, 0x01, 0x00, 0x03, 0x00, 0x01, 0x00, 0x04,
    0x00, 0x00, 0x00, 0x02, 0x00, 0x01, 0x00, 0x03, 0x00, 0x04, 0x00, 0x02, 0x00, 0x04, 0x00, 0x03,
    0x00,
];

/// What its file begins with.
pub const HEADER: Header = Header {
    words: 2,
    nodes: 5,
    final_node: 2,
    arcs: 3,
    jumps: 4,
};

/// Its unfolded moves, of which two are on S.
pub const MOVES: [(u16, u16, u16); 5] = [(0, 0, 1), (0, 2, 2), (1, 0, 1), (1, 2, 3), (3, 1, 4)];

/// Its jumps.
pub const JUMPS: [(u16, u16); 4] = [(0, 2), (1, 3), (4, 2), (4, 3)];

/// What its compile counts.
pub const COUNTS: Counts = Counts {
    states: 5,
    moves: 5,
    nodes: 5,
    unfolded: 5,
    arcs: 3,
    jumps: 4,
};

/// Its text.
pub const TEXT: [u8; 46] = *b"5 5 5 5 3 4\n0 0 1\n1 0 1\n3 1 4\n0 2\n1 3\n4 2\n4 3\n";

// Beside the other kind's tests, which number states: a crate for both would be longer.

/// The move of these numbers.
pub fn move_of((from, symbol, to): (u16, u16, u16)) -> Move<NodeNo> {
    Move {
        from: NodeNo(from),
        symbol,
        to: NodeNo(to),
    }
}

/// The jump of these numbers.
pub fn jump_of((from, to): (u16, u16)) -> Jump {
    Jump {
        from: NodeNo(from),
        to: NodeNo(to),
    }
}
