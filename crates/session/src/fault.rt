//! Why a session's call is not done.
ghost use Rattle.std.specs.Prelude.{◌≡◌};
ghost use Rattle.session.specs.declared.fault.SessionFault.TheVariants.{File, Determinise, Turn};

use acceptor::fault::TurnFault;
use determinising::fault::DeterminiseFault;
use fields::fault::AcceptorFault;

/// Why open, determinise, begin, word or end is not done.
#[derive(Clone, Copy, PartialEq, Eq, Debug)]
pub enum SessionFault {
    /// the bytes are no file of the kind
    File(AcceptorFault),
    /// the acceptor is not determinised
    Determinise(DeterminiseFault),
    /// the turn refuses the event
    Turn(TurnFault),
    /// the turn is not there or no longer in use, or no PGA is open to be determinised
    Unusable,
    /// no turn more has a place
    TurnsFull,
}

impl From<AcceptorFault> for SessionFault {
    ghost from_gives = { λ f r. r ≡ File f };

    fn from(fault: AcceptorFault) -> SessionFault {
        SessionFault::File(fault)
    }
}

impl From<DeterminiseFault> for SessionFault {
    ghost from_gives = { λ f r. r ≡ Determinise f };

    fn from(fault: DeterminiseFault) -> SessionFault {
        SessionFault::Determinise(fault)
    }
}

impl From<TurnFault> for SessionFault {
    ghost from_gives = { λ f r. r ≡ Turn f };

    fn from(fault: TurnFault) -> SessionFault {
        SessionFault::Turn(fault)
    }
}
