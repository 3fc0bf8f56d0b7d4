//! An opened file of a determinised acceptor: a position is a state, or none.
ghost use Rattle.std.specs.Prelude.{◌≡◌, true, Some, Decides};
ghost use Rattle.std.proofs.Math.Option.{some};
ghost use Rattle.std.proofs.Math.ListN.{get_elem?};
ghost use Rattle.table.specs.Numbers.{value_in};
ghost use Rattle.theory.specs.Subsets.{Determined};
ghost use Rattle.pgd.specs.Files.{IsFile};
ghost use Rattle.acceptor.specs.Subsets.{finals_of, determined_of, Opened};

use crate::rows::{Arcs, cut, number_or_zero};
use fields::fault::AcceptorFault;
use fields::format::ARC_SIZE;
use pgd::check::check_file;
use pgd::format::FINALS_AT;
use table::numbers::StateNo;

/// The determinised acceptor of a file: how many words it has, and the parts of the file's bytes that hold a byte for each state and the arcs.
#[derive(Clone, Copy)]
pub struct Subset<'a> {
    words: u16,
    finals: &'a [u8],
    arcs: Arcs<'a>,
}

impl<'a> Subset<'a> {
    /// The determinised acceptor of a file that was checked; of other bytes some acceptor.
    pub fn read(file: &'a [u8]) -> Subset<'a>
        ensures { (d : Determined) → IsFile file.now d → determined_of result ≡ d }
    {
        let arcs_at = FINALS_AT + number_or_zero(file, 7) as usize;
        let end = arcs_at + ARC_SIZE * number_or_zero(file, 9) as usize;
        Subset {
            words: number_or_zero(file, 5),
            finals: cut(file, FINALS_AT, arcs_at),
            arcs: Arcs::over(cut(file, arcs_at, end)),
        }
    }

    /// The determinised acceptor of these bytes, or the first fault of what is no such file.
    pub fn open(file: &'a [u8]) -> Result<Subset<'a>, AcceptorFault>
        ensures { Opened file.now result }
    {
        check_file(file)?;
        Ok(Subset::read(file))
    }

    /// Whether the state is final; a state that the acceptor does not have is not.
    fn is_final(&self, state: StateNo) -> bool
        ensures { Decides result (get_elem? (finals_of self.now.finals.now) state.0 ≡ some true) }
    {
        match self.finals.get(state.0 as usize) {
            Some(flag) => *flag == 1,
            None => false,
        }
    }
}

pub mod running;
