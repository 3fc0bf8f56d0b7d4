//! Tests of determinise on compiled files, and with tables and outputs at their bounds.
#![tactic(auto)]

use book::Refusal;
use compiler::compile::compile_book;
use compiler::tables::Tables;
use determinising::determinise::determinise;
use determinising::fault::SubsetCounts;
use fields::format::ARC_SIZE;
use finding::moves::Move;
use pga::format::{ARCS_AT, JUMP_SIZE};
use policy::path::Path;
use table::sets::NodeSet;

/// How many rows each lent table has, and how many bytes the output.
#[derive(Clone, Copy)]
struct Rows {
    states: usize,
    arcs: usize,
    out: usize,
}

/// Compiles a book under path; the length of the file.
fn compile_path(book: &[u16], file: &mut [u8]) -> Result<usize, Refusal> {
    let mut tables = Tables::<16, 16, 16, 16>::new();
    let counts = compile_book(book, &mut Path::new(), tables.lend(), file)?;
    let end = ARCS_AT + ARC_SIZE * counts.arcs.min(16) + JUMP_SIZE * counts.jumps.min(16);
    Ok(end.min(file.len()))
}

/// Determinises a file in tables of these rows, at most sixteen each.
fn determinise_in(file: &[u8], rows: Rows, out: &mut [u8]) -> Result<SubsetCounts, Refusal> {
    let mut sets = [NodeSet::empty(); 16];
    let mut arcs = [Move::default(); 16];
    Ok(determinise(
        file,
        &mut sets[..rows.states.min(16)],
        &mut arcs[..rows.arcs.min(16)],
        out,
    )?)
}

/// The rows and bytes that the nested book's acceptor needs, and no more.
const EXACT: Rows = Rows {
    states: 3,
    arcs: 4,
    out: 38,
};

/// The nested book's counts.
const NESTED: SubsetCounts = SubsetCounts { states: 3, arcs: 4 };

/// The file of the nested book's determinised acceptor, states 0 and 2 final, and one byte of the output that stays as it was.
const NESTED_OUT: [u8; 39] = [
    0x50, 0x47, 0x44, 1, 0, 2, 0, 3, 0, 4, 0, // PGD, version, words, states, arcs
    1, 0, 1, // final states
    0, 0, 0, 0, 1, 0, // a leads from 0 to 1
    1, 0, 0, 0, 1, 0, // a leads from 1 to 1
    1, 0, 1, 0, 2, 0, // b leads from 1 to 2
    2, 0, 1, 0, 2, 0, // b leads from 2 to 2
    9,
];

/// Tables and outputs too short by one or empty, and the refusal of each.
// Beside compile's tests: each list has the tables of its own call, and one `refuses` for both would be given what it calls, for a dozen lines.
const SHORT: [(Rows, u8, usize); 9] = [
    (Rows { states: 2, ..EXACT }, 18, 2),
    (Rows { states: 1, ..EXACT }, 18, 1),
    (Rows { states: 0, ..EXACT }, 18, 0),
    (Rows { arcs: 3, ..EXACT }, 19, 2),
    (Rows { arcs: 0, ..EXACT }, 19, 0),
    // at one move the set comes before the arc
    (
        Rows {
            states: 2,
            arcs: 2,
            ..EXACT
        },
        18,
        2,
    ),
    (
        Rows {
            states: 1,
            arcs: 0,
            ..EXACT
        },
        18,
        1,
    ),
    (Rows { out: 37, ..EXACT }, 16, 38),
    (Rows { out: 0, ..EXACT }, 16, 38),
];

#[cfg(test)]
mod tests {
    use super::*;
    use samples::{nested, two_sides};
    use std::process::Abort;
    use std::test::Fail;

    // Determinises the nested book's file in tables of these rows; refused, the output stands as it was.
    fn refuses(rt: &impl Abort, rows: Rows, refusal: Refusal) -> Result<(), Fail> {
        let mut table = [0; 32];
        nested(&mut table)?;
        let mut file = [0; 64];
        let length = compile_path(&table, &mut file)?;
        let mut out = [9; 64];
        let used = rows.out.min(64);
        assert_eq!(rt;
            determinise_in(&file[..length.min(64)], rows, &mut out[..used]),
            Err(refusal)
        );
        assert_eq!(rt; out, [9; 64]);
        Ok(())
    }

    #[test]
    fn one_row_too_few(rt: HostRuntime) -> Result<(), Fail> {
        for (rows, number, place) in SHORT {
            refuses(
                &rt,
                rows,
                Refusal {
                    number,
                    layer: 5,
                    place,
                },
            )?;
        }
        Ok(())
    }

    #[test]
    fn just_enough_rows(rt: HostRuntime) -> Result<(), Fail> {
        let mut table = [0; 32];
        nested(&mut table)?;
        let mut file = [0; 64];
        let length = compile_path(&table, &mut file)?;
        let mut out = [9; 39];
        assert_eq!(rt;
            determinise_in(&file[..length.min(64)], EXACT, &mut out[..38]),
            Ok(NESTED)
        );
        assert_eq!(rt; out, NESTED_OUT);
        Ok(())
    }

    #[test]
    fn two_sides_apart(rt: HostRuntime) -> Result<(), Fail> {
        let mut table = [0; 32];
        two_sides(&mut table)?;
        let mut file = [0; 96];
        let length = compile_path(&table, &mut file)?;
        let mut out = [9; 55];
        let rows = Rows {
            states: 7,
            arcs: 6,
            out: 55,
        };
        assert_eq!(rt;
            determinise_in(&file[..length.min(96)], rows, &mut out),
            Ok(SubsetCounts { states: 7, arcs: 6 })
        );
        // states 5 and 6 are final
        assert!(rt; out[11..].starts_with(&[0, 0, 0, 0, 0, 1, 1]));
        assert_eq!(rt; out[54], 9);
        Ok(())
    }

    #[test]
    fn no_file(rt: HostRuntime) {
        let mut out = [9; 64];
        let no_acceptor = Refusal {
            number: 17,
            layer: 5,
            place: 0,
        };
        assert_eq!(rt; determinise_in(&[], EXACT, &mut out), Err(no_acceptor));
        // the other kind of file
        assert_eq!(rt;
            determinise_in(&NESTED_OUT[..38], EXACT, &mut out),
            Err(no_acceptor)
        );
        assert_eq!(rt; out, [9; 64]);
    }
}
