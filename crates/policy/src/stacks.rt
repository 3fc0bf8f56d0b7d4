//! What a policy is: classes of stacks, held by number.
ghost use Rattle.std.specs.Prelude.{◌≡◌, List, [], ◌∷◌};
ghost use Rattle.table.specs.Lists.{Distinct};
ghost use Rattle.theory.specs.Policies.{Class, Meaning};
ghost use Rattle.policy.specs.Classes.{Room, after_push, Taken, Fitting, Foretold};

use table::numbers::{ClassNo, StateNo};

/// A push: of the pair of the state left and the symbol, on the way to the state reached.
#[derive(Clone, Copy, PartialEq, Eq, Debug)]
pub struct Push {
    pub left: StateNo,
    pub symbol: u16,
    pub reached: StateNo,
}

/// Sorts stacks into classes. A class gets its number when it is taken, and keeps it.
pub trait Policy {
    /// what no call changes
    ghost Kind: { Type 0 };

    ghost kind: { Self → Kind };

    /// the class of the empty stack, and the next class
    ghost meaning: { Kind → Meaning };

    /// which new class has a place, settled by the classes held
    ghost room: { Kind → Room };

    /// the classes held, in the order of their numbers
    ghost held: { Self → List Class };

    /// holds from `clear` on
    ghost ready: { Self → Type 0 };

    /// Leaves only the empty stack's class, as number 0.
    fn clear(&mut self)
        ensures kind { kind self.new ≡ kind self.old }
        ensures ready { ready self.new }
        ensures held { held self.new ≡ (meaning (kind self.old)).first ∷ [] };

    /// The number that `next` would give.
    fn fits(&self, class: ClassNo, push: Push) -> Option<ClassNo>
        requires { ready self.now }
        ensures { Fitting (room (kind self.now)) (held self.now) (after_push (meaning (kind self.now)) push) class.0 result };

    /// The number of the class after `class` once the pair is pushed; a class not yet held is taken.
    /// None, and nothing changes, where `class` is not held or the class after it has no place.
    fn next(&mut self, class: ClassNo, push: Push) -> Option<ClassNo>
        requires { ready self.old }
        ensures kind { kind self.new ≡ kind self.old }
        ensures ready { ready self.new }
        ensures taken { Taken (room (kind self.old)) (held self.old) (after_push (meaning (kind self.old)) push) class.0 result (held self.new) };

    /// no class has two numbers
    ghost distinct: { (s : Self) → ready s → Distinct (held s) };

    /// `fits` foretells `next`, which changes nothing where it gives none
    ghost foretold: { (s : Self) → ready s → Foretold (room (kind s)) (held s) };
}
