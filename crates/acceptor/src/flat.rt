//! An opened acceptor file: its arcs and jumps are read where they stand.
ghost use Rattle.std.specs.Prelude.{◌≡◌, ◌<◌};
ghost use Rattle.theory.specs.Flattening.{Acceptor as Meant};
ghost use Rattle.pga.specs.Files.{IsFile};
ghost use Rattle.acceptor.specs.Flats.{acceptor_of, Opened};

use crate::rows::{Arcs, Jumps, cut, number_or_zero};
use fields::fault::AcceptorFault;
use fields::format::ARC_SIZE;
use pga::check::check_file;
use pga::format::{ARCS_AT, JUMP_SIZE};
use table::numbers::NodeNo;

/// The acceptor of a file: how many words and nodes it has, the final node, and the parts of the file's bytes that hold its arcs and jumps.
// That it fits is no ghost field: `read` takes any bytes, so each call says what it promises of a checked file.
#[derive(Clone, Copy)]
pub struct Flat<'a> {
    words: u16,
    nodes: u16,
    final_node: NodeNo,
    arcs: Arcs<'a>,
    jumps: Jumps<'a>,
}

impl<'a> Flat<'a> {
    /// The acceptor of a file that was checked; of other bytes some acceptor.
    pub fn read(file: &'a [u8]) -> Flat<'a>
        ensures { (a : Meant) → IsFile file.now a → acceptor_of result ≡ a }
    {
        let jumps_at = ARCS_AT + ARC_SIZE * number_or_zero(file, 11) as usize;
        let end = jumps_at + JUMP_SIZE * number_or_zero(file, 13) as usize;
        Flat {
            words: number_or_zero(file, 5),
            nodes: number_or_zero(file, 7),
            final_node: NodeNo(number_or_zero(file, 9)),
            arcs: Arcs::over(cut(file, ARCS_AT, jumps_at)),
            jumps: Jumps::over(cut(file, jumps_at, end)),
        }
    }

    /// The acceptor of these bytes, or the first fault of what is no acceptor's file.
    // Beside `Subset::open`: a trait for both would have check, reading and laws as members, for two lines.
    pub fn open(file: &'a [u8]) -> Result<Flat<'a>, AcceptorFault>
        ensures { Opened file.now result }
    {
        check_file(file)?;
        Ok(Flat::read(file))
    }
}

pub mod running;
pub mod steps;
