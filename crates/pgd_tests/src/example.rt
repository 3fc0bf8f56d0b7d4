//! The example of the tests: the determinised acceptor of S → a S b and S → ε, where a = 0 and b = 1.
use finding::moves::Move;
use table::numbers::{NodeNo, StateNo};
use table::sets::NodeSet;

/// Its file.
pub const FILE: [u8; 38] = [
    0x50, 0x47, 0x44, 0x01, 0x00, 0x02, 0x00, 0x03, 0x00, 0x04, 0x00, 0x01, 0x00, 0x01, 0x00, 0x00,
    0x00, 0x00, 0x01, 0x00, 0x01, 0x00, 0x00, 0x00, 0x01, 0x00, 0x01, 0x00, 0x01, 0x00, 0x02, 0x00,
    0x02, 0x00, 0x01, 0x00, 0x02, 0x00,
];

/// Its arcs.
pub const ARCS: [(u16, u16, u16); 4] = [(0, 0, 1), (1, 0, 1), (1, 1, 2), (2, 1, 2)];

/// The sets of nodes of its states; the final node is 2.
pub const SETS: [[u16; 3]; 3] = [[0, 2, 2], [1, 3, 3], [2, 3, 4]];

// Beside the other kind's tests, which number nodes: a crate for both would be longer.

/// The arc of these numbers.
pub fn arc_of((from, symbol, to): (u16, u16, u16)) -> Move<StateNo> {
    Move {
        from: StateNo(from),
        symbol,
        to: StateNo(to),
    }
}

/// The set of these nodes.
pub fn set_of(nodes: [u16; 3]) -> NodeSet {
    let mut set = NodeSet::empty();
    for node in nodes {
        set.insert(NodeNo(node));
    }
    set
}
