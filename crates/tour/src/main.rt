//! A guided tour: the phrase book of one house, from its first entry on.
#![tactic(auto)]

mod filing;
mod house;
mod looking;
mod machines;
mod making;
mod refusing;
mod remembering;
mod spelling;
mod telling;

use std::io;

/// Room for the house's book, and some entries to spare.
const ENTRIES: usize = 64;

/// Room for the house's file, and some bytes to spare.
const BYTES: usize = 128;

fn main(rt: HostRuntime) -> io::Result<()> {
    let mut table = [0; ENTRIES];
    let mut file = [0; BYTES];
    making::chapter(&rt, &mut table)?;
    looking::chapter(&rt, &table)?;
    spelling::chapter(&rt)?;
    filing::chapter(&rt, &table, &mut file)?;
    machines::chapter(&rt, &table)?;
    remembering::chapter(&rt)?;
    refusing::chapter(&rt, &mut table, &mut file)
}
