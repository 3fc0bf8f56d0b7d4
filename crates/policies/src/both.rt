//! Both: the classes of two policies side by side.
//!
//! A new pair has a place where one is free and each half fits below. Where the pair does not fit, neither half takes a class.
ghost use Rattle.std.specs.Prelude.{◌≡◌};
ghost use Rattle.theory.specs.Policies.{both};
ghost use Rattle.policy.specs.Entries.{entries};
ghost use Rattle.policy.specs.Taking;
ghost use Rattle.policies.specs.Pairing.{pairs_distinct};
ghost use Rattle.policies.specs.Pairs.{pair_classes, pair_room, Paired, FinerThanHalves};

use policy::places::Places;
use policy::stacks::{Policy, Push};
use table::numbers::ClassNo;

/// The numbers of two classes.
#[derive(Clone, Copy, PartialEq, Eq, Debug)]
pub struct Pair {
    pub first: ClassNo,
    pub second: ClassNo,
}

/// The empty stack's classes.
const START: Pair = Pair {
    first: ClassNo(0),
    second: ClassNo(0),
};

/// The policy whose classes are pairs of the classes of two others.
#[derive(Drop)]
pub struct Both<P, Q> {
    first: P,
    second: Q,
    pairs: Places<Pair>,
}

impl<P: Policy, Q: Policy> Both<P, Q> {
    /// Stands over two policies, and is finer than each; it is used from `clear` on.
    pub fn new(first: P, second: Q) -> Both<P, Q>
        ensures first { result.first ≡ first }
        ensures second { result.second ≡ second }
        ensures finer { FinerThanHalves (P.Policy.meaning (P.Policy.kind first)) (Q.Policy.meaning (Q.Policy.kind second)) }
    {
        Both {
            first,
            second,
            pairs: Places::new(START),
        }
    }
}

impl<P: Policy, Q: Policy> Policy for Both<P, Q> {
    ghost Kind = { P.Policy.Kind × Q.Policy.Kind };

    ghost kind = { λ s. (P.Policy.kind s.first, Q.Policy.kind s.second) };

    ghost meaning = { λ k. both (P.Policy.meaning k.0) (Q.Policy.meaning k.1) };

    ghost room = { λ k. pair_room (P.Policy.room k.0) (Q.Policy.room k.1) };

    ghost held = { λ s. pair_classes (P.Policy.held s.first) (Q.Policy.held s.second) (entries s.pairs) };

    ghost ready = { λ s. P.Policy.ready s.first × Q.Policy.ready s.second × Paired (P.Policy.held s.first) (Q.Policy.held s.second) (entries s.pairs) };

    ghost distinct = { λ s r.
        pairs_distinct (P.Policy.held s.first) (Q.Policy.held s.second) (entries s.pairs) r.2
        (P.Policy.distinct s.first r.0) (Q.Policy.distinct s.second r.1) };

    ghost foretold = { λ s r. Taking.foretold _ _ (
        pairs_distinct (P.Policy.held s.first) (Q.Policy.held s.second) (entries s.pairs) r.2
        (P.Policy.distinct s.first r.0) (Q.Policy.distinct s.second r.1)) };

    fn clear(&mut self) {
        self.first.clear();
        self.second.clear();
        self.pairs.clear(START);
    }

    fn fits(&self, class: ClassNo, push: Push) -> Option<ClassNo> {
        let pair = self.pairs.get(class)?;
        let first = self.first.fits(pair.first, push)?;
        let second = self.second.fits(pair.second, push)?;
        self.pairs.look(Pair { first, second })
    }

    fn next(&mut self, class: ClassNo, push: Push) -> Option<ClassNo> {
        let number = self.fits(class, push)?;
        if self.pairs.get(number).is_some() {
            return Some(number);
        }
        let pair = self.pairs.get(class)?;
        let first = self.first.next(pair.first, push)?;
        let second = self.second.next(pair.second, push)?;
        self.pairs.place(Pair { first, second })
    }
}
