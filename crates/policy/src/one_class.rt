//! One-class: all stacks share a single class, held from clear on.
ghost use Rattle.std.specs.Prelude.{[], ◌∷◌};
ghost use Rattle.theory.specs.Policies.{one_class};
ghost use Rattle.theory.specs.Policies.Class.{states};
ghost use Rattle.policy.specs.Classes.{no_room};
ghost use Rattle.table.proofs.Lists.{distinct_one};
ghost use Rattle.policy.specs.Taking;
ghost use Rattle.std.proofs.Common.{rules};

use crate::stacks::{Policy, Push};
use table::numbers::ClassNo;

/// The policy with a single class.
#[derive(Clone, Copy, PartialEq, Eq, Debug)]
pub struct OneClass;

impl Policy for OneClass {
    ghost Kind = { Unit {0} };

    ghost kind = { λ _. tt };

    ghost meaning = { λ _. one_class };

    ghost room = { λ _. no_room };

    ghost held = { λ _. states [] ∷ [] };

    ghost ready = { λ _. Unit {0} };

    ghost distinct = { Prim.search rules };

    ghost foretold = { λ s r. Taking.foretold _ _ (distinct_one (states [])) };

    fn clear(&mut self) {}

    fn fits(&self, class: ClassNo, _push: Push) -> Option<ClassNo> {
        if class.0 == 0 { Some(class) } else { None }
    }

    fn next(&mut self, class: ClassNo, push: Push) -> Option<ClassNo> {
        self.fits(class, push)
    }
}
