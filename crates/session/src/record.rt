//! The record of a turn: the kind of its file, whether it is still in use, and where it stands.
ghost use Rattle.std.specs.Prelude.{◌≡◌, true, map};
ghost use Rattle.promise.specs.States.{retired as retired_of};
ghost use Rattle.session.specs.View.{kind_of, stands_on, stands_at, turn_of};

use acceptor::turn::Condition;
use table::numbers::StateNo;
use table::sets::NodeSet;

/// The two kinds of acceptor file.
#[derive(Clone, Copy, PartialEq, Eq, Debug)]
pub enum Kind {
    /// the flattened acceptor's
    Pga,
    /// the determinised acceptor's
    Pgd,
}

/// Where a turn stands on the file of its kind.
#[derive(Clone, Copy)]
pub enum Standing {
    Flat(Condition<NodeSet>),
    Subset(Condition<Option<StateNo>>),
}

impl Standing {
    /// The kind of the file.
    fn kind(self) -> Kind
        ensures { kind_of result ≡ stands_on self }
    {
        match self {
            Standing::Flat(_) => Kind::Pga,
            Standing::Subset(_) => Kind::Pgd,
        }
    }
}

/// A turn, as a row of the lent table of turns.
// A flag beside the place, and no `Option`: a turn out of use still stands where it stood.
#[derive(Clone, Copy)]
pub struct Turn {
    live: bool,
    at: Standing,
}

impl Turn {
    /// An unbegun turn on the file of a kind, in use.
    pub fn unbegun(kind: Kind) -> Turn
        ensures { turn_of result ≡ Rattle.promise.specs.States.unbegun (kind_of kind) }
    {
        let at = match kind {
            Kind::Pga => Standing::Flat(Condition::Unbegun),
            Kind::Pgd => Standing::Subset(Condition::Unbegun),
        };
        Turn::standing_at(at)
    }

    /// A turn in use that stands here.
    pub fn standing_at(at: Standing) -> Turn
        ensures { turn_of result ≡ record { kind = stands_on at; live = true; at = stands_at at } }
    {
        Turn { live: true, at }
    }

    /// Whether the turn is in use.
    pub fn is_live(self) -> bool
        ensures { result ≡ (turn_of self).live }
    {
        self.live
    }

    /// Where the turn stands.
    pub fn standing(self) -> Standing
        ensures kind { stands_on result ≡ (turn_of self).kind }
        ensures at { stands_at result ≡ (turn_of self).at }
    {
        self.at
    }

    /// The turn after the file of a kind was taken for writing.
    fn retired(self, kind: Kind) -> Turn
        ensures { turn_of result ≡ retired_of (kind_of kind) (turn_of self) }
    {
        Turn {
            live: self.is_live() && self.standing().kind() != kind,
            ..self
        }
    }
}

/// Puts the turns on the file of a kind out of use.
pub fn retire(turns: &mut [Turn], kind: Kind)
    ensures { map turn_of turns.new ≡ map (retired_of (kind_of kind)) (map turn_of turns.old) }
{
    for turn in turns.iter_mut() {
        *turn = turn.retired(kind);
    }
}
