//! Sets of numbers below 4096, for each sort of number: a row of 64 words of 64 bits.
ghost use Rattle.std.specs.Prelude.{◌≡◌, Decides, nat_eq, ⊤};
ghost use Rattle.std.specs.Cmp.Lexicographic.{pointwise};
ghost use Rattle.table.specs.Sets.{Row};
ghost use Rattle.std.specs.Cmp.Rules.{comparing};
ghost use Rattle.std.proofs.Common.{rules, arith};

use crate::numbers::{ItemNo, NodeNo, Number};
use std::alloc::AllocError;
use std::marker::PhantomData;

/// A set of numbers of one sort.
pub struct NumberSet<N> {
    words: [u64; 64],
    sort: PhantomData<N>,
    ghost row: { Row words },
}

// Written out: `derive_where` makes no `Clone` of a struct with a ghost field, and a plain derive would ask `Clone` of `N`, which this does not.

/// The same set; it does not fail.
impl<N> Clone for NumberSet<N> {
    ghost is_clone = { λ x y. y ≡ x };

    ghost is_infallible = { λ _. ⊤ };

    fn clone(&self) -> Result<NumberSet<N>, AllocError> {
        Ok(*self)
    }
}

impl<N> Copy for NumberSet<N> {}

/// A set of dotted rules.
pub type ItemSet = NumberSet<ItemNo>;

/// A set of nodes.
pub type NodeSet = NumberSet<NodeNo>;

// Written out: a derived `==` would not promise that it decides whether the sets are one.
impl<N> PartialEq for NumberSet<N> {
    ghost eq = { λ x y. pointwise nat_eq x.words y.words };

    ghost laws = { Prim.search (comparing, rules) };

    fn eq(&self, other: &NumberSet<N>) -> bool
        ensures tested { result ≡ pointwise nat_eq self.now.words other.now.words }
        ensures exact { Decides result (self.now ≡ other.now) }
    {
        self.words == other.words
    }
}

pub mod iter;
pub mod members;
