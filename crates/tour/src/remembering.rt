//! One grammar compiled under several policies: how many nodes each remembers apart.
use super::ENTRIES;
use super::telling::refuse;
use compiler::compile::compile_book;
use compiler::tables::Tables;
use policies::both::Both;
use policies::last::{Depth, Last};
use policy::one_class::OneClass;
use policy::path::Path;
use policy::stacks::Policy;
use samples::two_sides;
use std::io;

/// More states, nodes, moves and jumps than the grammar has under any policy of the chapter.
const ROWS: usize = 32;

/// Compiles the book under a policy, and prints the sizes.
fn print_compiled<P: Policy>(
    rt: &impl Print,
    name: &str,
    book: &[u16],
    policy: &mut P,
) -> io::Result<()> {
    let mut tables = Tables::<ROWS, ROWS, ROWS, ROWS>::new();
    let mut out = [0; 512];
    match compile_book(book, policy, tables.lend(), &mut out) {
        Ok(c) => println!(rt;
            "{name}: {} nodes, {} unfolded moves, {} arcs, {} jumps",
            c.nodes, c.unfolded, c.arcs, c.jumps
        ),
        Err(fault) => refuse(rt, name, fault),
    }
}

/// S → aXa | bXb, X → c under one-class, path, last-1 and both of them.
pub fn chapter(rt: &impl Print) -> io::Result<()> {
    println!(rt; "")?;
    println!(rt; "S → aXa | bXb, X → c under policies")?;
    let mut book = [0; ENTRIES];
    if two_sides(&mut book).is_err() {
        return Ok(());
    }
    print_compiled(rt, "one-class", &book, &mut OneClass)?;
    print_compiled(rt, "path", &book, &mut Path::new())?;
    print_compiled(rt, "last-1", &book, &mut Last::new(Depth::One))?;
    print_compiled(
        rt,
        "path and last-1",
        &book,
        &mut Both::new(Path::new(), Last::new(Depth::One)),
    )
}
