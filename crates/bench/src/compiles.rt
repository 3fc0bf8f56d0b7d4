//! The call compile, timed under each policy.
use book::Refusal;
use compiler::compile::compile_book;
use compiler::fault::CompileFault;
use compiler::tables::Tables;
use fields::format::{ARC_SIZE, MOST_ROWS};
use pga::format::{ARCS_AT, JUMP_SIZE};
use pga::listing::Counts;
use policies::both::Both;
use policies::last::{Depth, Last};
use policy::one_class::OneClass;
use policy::path::Path;
use policy::stacks::Policy;
use std::time::Instant;

/// The longest acceptor file.
const LONGEST: usize = ARCS_AT + ARC_SIZE * MOST_ROWS + JUMP_SIZE * MOST_ROWS;

/// Bytes of the working tables at their ceilings: 512 for a state, six for a move, four for a node or a jump.
const TABLE_BYTES: usize = 802_816;

/// The policies that remember the last states left.
const DEPTHS: [(&str, Depth); 4] = [
    ("last-1", Depth::One),
    ("last-2", Depth::Two),
    ("last-3", Depth::Three),
    ("last-4", Depth::Four),
];

/// What compile answered, and after how many milliseconds.
#[derive(Clone, Copy)]
struct Timed {
    made: Result<Counts, CompileFault>,
    taken: u128,
}

/// Times the compile of a book under a policy, with tables at the ceilings.
fn time_compile<P: Policy>(
    rt: &HostRuntime,
    book: &[u16],
    policy: &mut P,
) -> anyhow::Result<Timed> {
    let mut tables = Tables::<1024, 16384, 4096, 16384>::new();
    let mut out = [0; LONGEST];
    let work = tables.lend();
    let start = Instant::now(rt)?;
    let made = compile_book(book, policy, work, &mut out);
    let taken = start.elapsed(rt)?.as_millis();
    Ok(Timed { made, taken })
}

/// Tells the sizes or the refusal, and the time.
fn tell(rt: &HostRuntime, name: &str, timed: Timed) -> anyhow::Result<()> {
    let taken = timed.taken;
    match timed.made {
        Ok(c) => println!(rt;
            "  {name}: {} nodes, {} unfolded moves, {} arcs, {} jumps",
            c.nodes, c.unfolded, c.arcs, c.jumps
        )?,
        Err(fault) => {
            let refusal = Refusal::from(fault);
            println!(rt; "  {name}: {refusal}")?;
        }
    }
    eprintln!(rt; "  {name}: compiled in {taken} ms, working tables of {TABLE_BYTES} bytes")?;
    Ok(())
}

/// Compiles a book under each policy.
pub fn under_each(rt: &HostRuntime, book: &[u16]) -> anyhow::Result<()> {
    tell(rt, "one-class", time_compile(rt, book, &mut OneClass)?)?;
    tell(rt, "path", time_compile(rt, book, &mut Path::new())?)?;
    for (name, depth) in DEPTHS {
        tell(rt, name, time_compile(rt, book, &mut Last::new(depth))?)?;
    }
    let mut both = Both::new(Path::new(), Last::new(Depth::One));
    tell(rt, "path and last-1", time_compile(rt, book, &mut both)?)
}
