//! What write leaves in an output that is long enough, and in one that is not.
use super::example::{ARCS, FILE, SETS, arc_of, set_of};
use fields::fault::OutputShort;
use pgd::writer::{Parts, write};
use table::numbers::NodeNo;

#[test]
fn writes_the_example(rt: HostRuntime) {
    let rows = SETS.map(set_of);
    let arcs = ARCS.map(arc_of);
    let parts = Parts {
        words: 2,
        rows: &rows,
        final_node: NodeNo(2),
        arcs: &arcs,
    };
    let mut out = [9; 40];
    assert_eq!(rt;
        write(parts, &mut out[..37]),
        Err(OutputShort { needed: 38 })
    );
    assert_eq!(rt; out, [9; 40]);
    assert_eq!(rt; write(parts, &mut out), Ok(38));
    assert!(rt; out.starts_with(&FILE));
    assert_eq!(rt; (out[38], out[39]), (9, 9));
}

#[test]
fn writes_one_state(rt: HostRuntime) {
    let rows = [set_of(SETS[0])];
    let mut out = [9; 12];
    let parts = Parts {
        words: 1,
        rows: &rows,
        final_node: NodeNo(1),
        arcs: &[],
    };
    assert_eq!(rt; write(parts, &mut out), Ok(12));
    assert_eq!(rt; out, [0x50, 0x47, 0x44, 1, 0, 1, 0, 1, 0, 0, 0, 0]);
}
