//! Tests of each policy at the end of its places.
#![tactic(auto)]

use policies::both::Both;
use policies::last::{Depth, Last};
use policy::one_class::OneClass;
use policy::path::Path;
use policy::stacks::{Policy, Push};
use table::numbers::{ClassNo, StateNo};

/// The push that leaves the state of number `n`.
fn leaving(n: u16) -> Push {
    Push {
        left: StateNo(n),
        symbol: 0,
        reached: StateNo(0),
    }
}

/// The push that reaches the state of number `n`.
fn reaching(n: u16) -> Push {
    Push {
        left: StateNo(0),
        symbol: 0,
        reached: StateNo(n),
    }
}

/// Takes the classes after the empty stack's class until one has no place; how many were given.
fn fill<P: Policy, F: Fn(u16) -> Push>(policy: &mut P, push_of: F) -> usize
    requires { F.IsAlwaysCallable push_of }
    ensures { P.Policy.ready policy.new }
{
    policy.clear();
    for (given, n) in (1..5000u16).enumerate() {
        if take(policy, push_of(n)).is_none() {
            return given;
        }
    }
    4999
}

/// The class after the empty stack's class.
fn take<P: Policy>(policy: &mut P, push: Push) -> Option<ClassNo>
    requires { P.Policy.ready policy.old }
    ensures { P.Policy.ready policy.new }
{
    policy.next(ClassNo(0), push)
}

#[cfg(test)]
mod tests {
    use super::*;

    #[test]
    fn path_is_full(rt: HostRuntime) {
        let mut path = Path::new();
        assert_eq!(rt; fill(&mut path, reaching), 4095);
        assert!(rt; take(&mut path, reaching(4999)).is_none());
        assert!(rt; take(&mut path, reaching(7)).is_some());
    }

    #[test]
    fn last_is_full(rt: HostRuntime) {
        let mut last = Last::new(Depth::One);
        assert_eq!(rt; fill(&mut last, leaving), 4095);
        assert!(rt; take(&mut last, leaving(4999)).is_none());
        assert!(rt; take(&mut last, leaving(7)).is_some());
    }

    #[test]
    fn both_is_full(rt: HostRuntime) {
        let mut both = Both::new(Path::new(), OneClass);
        assert_eq!(rt; fill(&mut both, reaching), 4095);
        assert!(rt; take(&mut both, reaching(4999)).is_none());
        assert!(rt; take(&mut both, reaching(7)).is_some());
    }

    #[test]
    fn one_class_has_one(rt: HostRuntime) {
        let mut one = OneClass;
        assert_eq!(rt; fill(&mut one, reaching), 4999);
    }
}
