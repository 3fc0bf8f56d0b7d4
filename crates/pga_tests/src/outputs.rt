//! What write and list leave in an output that is long enough, and in one that is not.
use super::answers::refuses_list;
use super::example::{COUNTS, FILE, JUMPS, MOVES, TEXT, jump_of, move_of};
use fields::fault::OutputShort;
use pga::listing::list;
use pga::writer::{Parts, write};
use std::process::Abort;
use table::numbers::NodeNo;

#[test]
fn writes_the_example(rt: HostRuntime) {
    let moves = MOVES.map(move_of);
    let jumps = JUMPS.map(jump_of);
    let parts = Parts {
        words: 2,
        nodes: 5,
        final_node: NodeNo(2),
        moves: &moves,
        jumps: &jumps,
    };
    let mut out = [9; 51];
    assert_eq!(rt;
        write(parts, &mut out[..48]),
        Err(OutputShort { needed: 49 })
    );
    assert_eq!(rt; out, [9; 51]);
    assert_eq!(rt; write(parts, &mut out), Ok(49));
    assert!(rt; out.starts_with(&FILE));
    assert_eq!(rt; (out[49], out[50]), (9, 9));
}

/// List refuses the file in an output of so many bytes, and leaves them.
fn refuses_text(rt: &impl Abort, file: &[u8], room: usize, number: u8, place: usize) {
    let mut out = [9; 48];
    let room = room.min(48);
    refuses_list(rt, list(COUNTS, file, &mut out[..room]), number, place);
    assert_eq!(rt; out, [9; 48]);
}

#[test]
fn lists_nothing_else(rt: HostRuntime) {
    refuses_text(&rt, &FILE, 45, 16, 46);
    refuses_text(&rt, &FILE[..48], 48, 17, 48);
}

#[test]
fn lists_the_example(rt: HostRuntime) {
    let mut out = [9; 48];
    assert_eq!(rt; list(COUNTS, &FILE, &mut out), Ok(46));
    assert!(rt; out.starts_with(&TEXT));
    assert_eq!(rt; (out[46], out[47]), (9, 9));
}
