//! Show: reads a book file from the standard input, compiles it under the path policy, and prints the six counts, the arcs
//! and the jumps, or the refusal.
#![tactic(auto)]

use book::{Refusal, load};
use compiler::compile::compile_book;
use compiler::tables::Tables;
use fields::format::ARC_SIZE;
use pga::format::{ARCS_AT, JUMP_SIZE};
use pga::listing::{Counts, list};
use policy::path::Path;
use std::io::{Read, Write};

/// Room for the entries of every book.
const ENTRIES: usize = 8192;

/// The limits of the working tables, and the bytes that an acceptor within them may take.
const STATES: usize = 64;

const NODES: usize = 128;

const MOVES: usize = 1024;

const FILE: usize = ARCS_AT + ARC_SIZE * MOVES + JUMP_SIZE * MOVES;

/// Room for the text of any such acceptor.
const TEXT: usize = 32768;

/// Compiles the book in tables of the stated sizes.
fn compile_path(book: &[u16], out: &mut [u8]) -> Result<Counts, Refusal> {
    let mut tables = Tables::<STATES, MOVES, NODES, MOVES>::new();
    let counts = compile_book(book, &mut Path::new(), tables.lend(), out)?;
    Ok(counts)
}

/// Writes the text for a book file; its length, or the refusal.
fn show_file(input: &[u8], text: &mut [u8]) -> Result<usize, Refusal> {
    let mut book = [0; ENTRIES];
    load(input, &mut book)?;
    let mut file = [0; FILE];
    let counts = compile_path(&book, &mut file)?;
    let arcs = counts.arcs.min(MOVES);
    let jumps = counts.jumps.min(MOVES);
    let end = ARCS_AT + ARC_SIZE * arcs + JUMP_SIZE * jumps;
    let used = list(counts, &file[..end], text)?;
    Ok(used)
}

fn main(rt: HostRuntime) -> anyhow::Result<()> {
    let mut input = Vec::new(rt.alloc());
    rt.stdin().read_to_end(&mut input)?;
    let mut text = [0; TEXT];
    match show_file(&input, &mut text) {
        Ok(used) => {
            let used = used.min(TEXT);
            rt.stdout().write_all(&text[..used])?;
        }
        Err(refusal) => println!(rt; "{refusal}")?,
    }
    Ok(())
}
