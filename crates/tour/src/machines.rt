//! The characteristic machines of the house's book and of three small grammars.
use super::ENTRIES;
use super::telling::refuse;
use finding::moves::Move;
use machine::machine::characteristic;
use samples::{left_linear, nested, two_sides};
use std::io;
use table::numbers::StateNo;
use table::sets::ItemSet;

/// More states and moves than any grammar of the tour has.
const ROWS: usize = 32;

/// Builds the machine of a book in tables of so many state rows, and prints its size and its moves.
fn print_machine(rt: &impl Print, name: &str, table: &[u16], rows: usize) -> io::Result<()> {
    let mut states = [ItemSet::empty(); ROWS];
    let mut moves = [Move::default(); ROWS];
    match characteristic(table, &mut states[..rows.min(ROWS)], &mut moves) {
        Ok(m) => {
            let last = m.final_state.0;
            println!(rt;
                "{name}: {} states, {} moves, final state {last}",
                m.states, m.moves
            )?;
            print_moves(rt, &moves[..m.moves.min(ROWS)])
        }
        Err(fault) => refuse(rt, name, fault),
    }
}

/// The moves on one line: the state left, the symbol, the state reached.
fn print_moves(rt: &impl Print, moves: &[Move<StateNo>]) -> io::Result<()> {
    print!(rt; " ")?;
    for m in moves {
        let from = m.from.0;
        let symbol = m.symbol;
        let to = m.to.0;
        print!(rt; " {from}-{symbol}-{to}")?;
    }
    println!(rt; "")
}

/// The machines, and one that finds a row too few.
pub fn chapter(rt: &impl Print, house: &[u16]) -> io::Result<()> {
    println!(rt; "")?;
    println!(rt; "Characteristic machines")?;
    print_machine(rt, "the house", house, ROWS)?;
    let mut table = [0; ENTRIES];
    if two_sides(&mut table).is_ok() {
        print_machine(rt, "S → aXa | bXb, X → c", &table, 9)?;
        print_machine(rt, "the same with eight rows", &table, 8)?;
    }
    if left_linear(&mut table).is_ok() {
        print_machine(rt, "S → Ab, A → Aa | ε", &table, ROWS)?;
    }
    if nested(&mut table).is_ok() {
        print_machine(rt, "S → aSb | ε", &table, ROWS)?;
    }
    Ok(())
}
