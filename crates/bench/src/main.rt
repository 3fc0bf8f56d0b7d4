//! Times the calls on books near the ceilings. Each letter of the standard input asks for a book: i for items, s for states,
//! n for nodes, m for moves and jumps, q for a small one of the same make. What was found goes to the standard output, the times to the error stream.
#![tactic(auto)]

mod books;
mod compiles;

use book::{BookFault, Refusal};
use finding::moves::Move;
use machine::machine::characteristic;
use std::io::Read;
use std::time::Instant;
use table::sets::ItemSet;

/// Room for every book.
const ENTRIES: usize = 8192;

// Name, table and what the making answered go through two functions, and a struct of them would serve nothing else.

/// Builds the machine of a book, and tells its size and the time.
fn time_machine(
    rt: &HostRuntime,
    name: &str,
    table: &[u16],
    made: Result<usize, BookFault>,
) -> anyhow::Result<()> {
    if made.is_err() {
        println!(rt; "{name}: no book")?;
        return Ok(());
    }
    let mut states = [ItemSet::empty(); 1024];
    let mut moves = [Move::default(); 16384];
    let start = Instant::now(rt)?;
    let found = characteristic(table, &mut states, &mut moves);
    let taken = start.elapsed(rt)?.as_millis();
    match found {
        Ok(m) => println!(rt; "{name}: {} states, {} moves", m.states, m.moves)?,
        Err(fault) => {
            let refusal = Refusal::from(fault);
            println!(rt; "{name}: {refusal}")?;
        }
    }
    eprintln!(rt; "{name}: machine in {taken} ms")?;
    Ok(())
}

/// Times the machine of a book, then its compile under each policy.
fn time_book(
    rt: &HostRuntime,
    name: &str,
    table: &[u16],
    made: Result<usize, BookFault>,
) -> anyhow::Result<()> {
    time_machine(rt, name, table, made)?;
    compiles::under_each(rt, table)
}

/// Times the book that a letter of the standard input asks for; other letters ask for none.
fn time_asked(rt: &HostRuntime, letter: u8) -> anyhow::Result<()> {
    let mut table = [0; ENTRIES];
    // A match, and no table of functions: letter, name and book stand on a line each as it is.
    let (name, made) = match letter {
        b'i' => ("4,096 dotted rules", books::many_items(&mut table)),
        b's' => ("near 1,024 states", books::many_states(&mut table)),
        b'n' => ("near 4,096 nodes", books::many_nodes(&mut table)),
        b'm' => ("16,384 moves", books::many_moves(&mut table)),
        b'q' => ("a small book", books::few_nodes(&mut table)),
        _ => return Ok(()),
    };
    time_book(rt, name, &table, made)
}

/// Times the books asked for, one after the other.
fn time_each(rt: &HostRuntime, letters: &[u8]) -> anyhow::Result<()> {
    for letter in letters {
        time_asked(rt, *letter)?;
    }
    Ok(())
}

fn main(rt: HostRuntime) -> anyhow::Result<()> {
    let mut input = Vec::new(rt.alloc());
    rt.stdin().read_to_end(&mut input)?;
    time_each(&rt, &input)
}
