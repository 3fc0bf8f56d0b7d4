//! Tests of compile on small grammars, and with tables at the bounds.
#![tactic(auto)]

use book::Refusal;
use compiler::compile::{Workspace, compile_book};
use compiler::tables::Tables;
use pga::listing::Counts;
use policy::stacks::Policy;

/// How many rows each lent table has.
#[derive(Clone, Copy)]
struct Rows {
    states: usize,
    moves: usize,
    nodes: usize,
    unfolded: usize,
    jumps: usize,
    out: usize,
}

/// Compiles a book under a policy in tables of these rows, at most sixteen each.
fn compile_in<P: Policy>(
    book: &[u16],
    policy: &mut P,
    rows: Rows,
    out: &mut [u8],
) -> Result<Counts, Refusal> {
    let mut tables = Tables::<16, 16, 16, 16>::new();
    let Workspace {
        states,
        moves,
        nodes,
        unfolded,
        jumps,
    } = tables.lend();
    let work = Workspace {
        states: &mut states[..rows.states.min(16)],
        moves: &mut moves[..rows.moves.min(16)],
        nodes: &mut nodes[..rows.nodes.min(16)],
        unfolded: &mut unfolded[..rows.unfolded.min(16)],
        jumps: &mut jumps[..rows.jumps.min(16)],
    };
    Ok(compile_book(book, policy, work, out)?)
}

/// Rows enough for every book here.
const ENOUGH: Rows = Rows {
    states: 16,
    moves: 16,
    nodes: 16,
    unfolded: 16,
    jumps: 16,
    out: 64,
};

/// The rows that the nested book needs, and no more.
const EXACT: Rows = Rows {
    states: 5,
    moves: 5,
    nodes: 5,
    unfolded: 5,
    jumps: 4,
    out: 49,
};

/// The nested book's counts.
const NESTED: Counts = Counts {
    states: 5,
    moves: 5,
    nodes: 5,
    unfolded: 5,
    arcs: 3,
    jumps: 4,
};

/// Tables too short by one or empty, and the refusal of each.
// Beside determinise's tests: each list has the tables of its own call, and one `refuses` for both would be given what it calls, for a dozen lines.
const SHORT: [(Rows, u8, u8, usize); 11] = [
    (Rows { states: 4, ..EXACT }, 10, 2, 4),
    (Rows { states: 0, ..EXACT }, 10, 2, 0),
    (Rows { moves: 4, ..EXACT }, 11, 2, 4),
    (Rows { moves: 0, ..EXACT }, 11, 2, 0),
    (Rows { nodes: 4, ..EXACT }, 13, 3, 4),
    (Rows { nodes: 0, ..EXACT }, 13, 3, 0),
    (
        Rows {
            unfolded: 4,
            ..EXACT
        },
        14,
        3,
        4,
    ),
    (Rows { jumps: 3, ..EXACT }, 15, 4, 4),
    (Rows { jumps: 0, ..EXACT }, 15, 4, 0),
    (Rows { out: 48, ..EXACT }, 16, 4, 49),
    (Rows { out: 0, ..EXACT }, 16, 4, 49),
];

#[cfg(test)]
mod tests {
    use super::*;
    use book::{add, blank};
    use policies::last::{Depth, Last};
    use policy::one_class::OneClass;
    use policy::path::Path;
    use samples::{left_linear, nested, two_sides};
    use std::process::Abort;
    use std::test::Fail;

    // The nested book in tables of these rows is refused, and the output stands as it was.
    fn refuses(rt: &impl Abort, rows: Rows, refusal: Refusal) -> Result<(), Fail> {
        let mut table = [0; 32];
        nested(&mut table)?;
        let mut out = [9; 64];
        let length = rows.out.min(64);
        assert_eq!(rt;
            compile_in(&table, &mut Path::new(), rows, &mut out[..length]),
            Err(refusal)
        );
        assert_eq!(rt; out, [9; 64]);
        Ok(())
    }

    #[test]
    fn one_row_too_few(rt: HostRuntime) -> Result<(), Fail> {
        for (rows, number, layer, place) in SHORT {
            refuses(
                &rt,
                rows,
                Refusal {
                    number,
                    layer,
                    place,
                },
            )?;
        }
        Ok(())
    }

    #[test]
    fn just_enough_rows(rt: HostRuntime) -> Result<(), Fail> {
        let mut table = [0; 32];
        nested(&mut table)?;
        let mut out = [9; 50];
        assert_eq!(rt;
            compile_in(&table, &mut Path::new(), EXACT, &mut out[..49]),
            Ok(NESTED)
        );
        assert_eq!(rt; (out[11], out[13], out[49]), (3, 4, 9));
        Ok(())
    }

    #[test]
    fn policies_differ(rt: HostRuntime) -> Result<(), Fail> {
        let mut table = [0; 32];
        two_sides(&mut table)?;
        let mut out = [9; 96];
        let coarse = Counts {
            states: 9,
            moves: 9,
            nodes: 9,
            unfolded: 9,
            arcs: 6,
            jumps: 4,
        };
        assert_eq!(rt;
            compile_in(&table, &mut OneClass, ENOUGH, &mut out),
            Ok(coarse)
        );
        let fine = Counts {
            nodes: 10,
            ..coarse
        };
        assert_eq!(rt;
            compile_in(&table, &mut Path::new(), ENOUGH, &mut out),
            Ok(fine)
        );
        assert_eq!(rt;
            compile_in(&table, &mut Last::new(Depth::One), ENOUGH, &mut out),
            Ok(fine)
        );
        Ok(())
    }

    #[test]
    fn left_linear_book(rt: HostRuntime) -> Result<(), Fail> {
        let mut table = [0; 32];
        left_linear(&mut table)?;
        let mut out = [9; 64];
        let counts = Counts {
            states: 5,
            moves: 4,
            nodes: 5,
            unfolded: 4,
            arcs: 2,
            jumps: 3,
        };
        assert_eq!(rt;
            compile_in(&table, &mut OneClass, ENOUGH, &mut out),
            Ok(counts)
        );
        Ok(())
    }

    #[test]
    fn no_book(rt: HostRuntime) {
        let mut out = [9; 64];
        let missing = Refusal {
            number: 1,
            layer: 1,
            place: 0,
        };
        assert_eq!(rt;
            compile_in(&[], &mut Path::new(), ENOUGH, &mut out),
            Err(missing)
        );
        assert_eq!(rt; out, [9; 64]);
    }

    #[test]
    fn no_rule(rt: HostRuntime) -> Result<(), Fail> {
        let mut table = [0; 32];
        blank(&mut table, 1, 1, 1)?;
        let mut out = [9; 16];
        let counts = Counts {
            states: 2,
            moves: 1,
            nodes: 2,
            unfolded: 1,
            arcs: 0,
            jumps: 0,
        };
        assert_eq!(rt;
            compile_in(&table, &mut Path::new(), ENOUGH, &mut out),
            Ok(counts)
        );
        assert_eq!(rt;
            out,
            [0x50, 0x47, 0x41, 1, 0, 1, 0, 2, 0, 1, 0, 0, 0, 0, 0, 9]
        );
        Ok(())
    }

    // The book of one word, one name and this one rule: its file, which has one jump, and one byte that stays as it was.
    fn one_rule(rt: &impl Abort, right: &[u16], file: [u8; 20]) -> Result<(), Fail> {
        let mut table = [0; 32];
        blank(&mut table, 1, 1, 1)?;
        add(&mut table, 1, right)?;
        let mut out = [9; 20];
        let counts = Counts {
            states: 2,
            moves: 1,
            nodes: 2,
            unfolded: 1,
            arcs: 0,
            jumps: 1,
        };
        assert_eq!(rt;
            compile_in(&table, &mut Path::new(), ENOUGH, &mut out),
            Ok(counts)
        );
        assert_eq!(rt; out, file);
        Ok(())
    }

    #[test]
    fn one_rule_to_itself(rt: HostRuntime) -> Result<(), Fail> {
        one_rule(
            &rt,
            &[1],
            [
                0x50, 0x47, 0x41, 1, 0, 1, 0, 2, 0, 1, 0, 0, 0, 1, 0, 1, 0, 1, 0, 9,
            ],
        )
    }

    #[test]
    fn only_the_empty_side(rt: HostRuntime) -> Result<(), Fail> {
        one_rule(
            &rt,
            &[],
            [
                0x50, 0x47, 0x41, 1, 0, 1, 0, 2, 0, 1, 0, 0, 0, 1, 0, 0, 0, 1, 0, 9,
            ],
        )
    }
}
