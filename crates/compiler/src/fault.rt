//! Why a book is not compiled.
ghost use Rattle.std.specs.Prelude.{◌≡◌};
ghost use Rattle.machine.specs.Machines.{refusal as machine_refusal};
ghost use Rattle.compiler.specs.declared.fault.CompileFault.TheVariants.{Book, Unfolding, Jumps, OutputShort};
ghost use Rattle.compiler.specs.Compiling.{refusal as refusal_of};

use book::{BookFault, Refusal};
use fields::fault::OutputShort as TooShort;
use flattening::fault::JumpFault;
use machine::fault::MachineFault;
use unfolding::fault::UnfoldingFault;

/// Why a book is not compiled. The book's fault is carried whole.
#[derive(Clone, Copy, PartialEq, Eq, Debug)]
pub enum CompileFault {
    /// the table holds no grammar
    Book(BookFault),
    /// a state or a move has no place
    Machine(MachineFault),
    /// a class, a node or an unfolded move has no place
    Unfolding(UnfoldingFault),
    /// a jump has no place
    Jumps(JumpFault),
    /// the output is too short for this many bytes
    OutputShort(usize),
}

impl From<BookFault> for CompileFault {
    ghost from_gives = { λ f r. r ≡ Book f };

    fn from(f: BookFault) -> CompileFault {
        CompileFault::Book(f)
    }
}

impl From<MachineFault> for CompileFault {
    ghost from_gives = { λ f r. refusal_of r ≡ machine_refusal f };

    fn from(f: MachineFault) -> CompileFault {
        match f {
            MachineFault::Book(b) => CompileFault::Book(b),
            other => CompileFault::Machine(other),
        }
    }
}

impl From<UnfoldingFault> for CompileFault {
    ghost from_gives = { λ f r. r ≡ Unfolding f };

    fn from(f: UnfoldingFault) -> CompileFault {
        CompileFault::Unfolding(f)
    }
}

impl From<JumpFault> for CompileFault {
    ghost from_gives = { λ f r. r ≡ Jumps f };

    fn from(f: JumpFault) -> CompileFault {
        CompileFault::Jumps(f)
    }
}

// The case has the number alone: which layer tells of a short output depends on the call, so the struct is not carried.

impl From<TooShort> for CompileFault {
    ghost from_gives = { λ f r. r ≡ OutputShort f.needed };

    fn from(f: TooShort) -> CompileFault {
        CompileFault::OutputShort(f.needed)
    }
}

/// The number, layer and place of the fault.
impl From<CompileFault> for Refusal {
    ghost from_gives = { λ f r. r ≡ refusal_of f };

    fn from(fault: CompileFault) -> Refusal {
        match fault {
            CompileFault::Book(f) => f.into(),
            CompileFault::Machine(f) => f.into(),
            CompileFault::Unfolding(f) => f.into(),
            CompileFault::Jumps(f) => f.into(),
            CompileFault::OutputShort(n) => Refusal {
                number: 16,
                layer: 4,
                place: n,
            },
        }
    }
}
