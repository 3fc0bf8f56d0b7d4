//! What is in a set, and how it grows.
ghost use Rattle.std.specs.Prelude.{◌≡◌, ℕ, ◌*◌, ◌≤◌, length, Decides};
ghost use Rattle.table.specs.Sets.{In, members, Listed, Inserted, NextMember};
ghost use Rattle.table.specs.Numbers.{value_in};

use crate::numbers::Number;
use crate::sets::NumberSet;
use std::marker::PhantomData;

impl<N: Number> NumberSet<N> {
    /// The set without a member.
    pub fn empty() -> NumberSet<N>
        ensures { (k : ℕ) → In result.words k → ⊥ }
    {
        NumberSet {
            words: [0; 64],
            sort: PhantomData,
        }
    }

    /// Whether `n` is a member.
    pub fn has(&self, n: N) -> bool
        ensures { Decides result (In self.now.words (N.Number.value n)) }
    {
        let k = n.index();
        k < 4096 && (self.words[k / 64] >> (k % 64)) % 2 == 1
    }

    /// Makes `n` a member; 4096 and more are never members.
    pub fn insert(&mut self, n: N)
        ensures { Inserted self.old.words (N.Number.value n) self.new.words }
    {
        let k = n.index();
        if k < 4096 {
            self.words[k / 64] |= 1 << (k % 64);
        }
    }

    /// How many members there are.
    pub fn size(&self) -> usize
        ensures count { result ≡ length (members self.now.words) }
        ensures listed { Listed self.now.words (members self.now.words) }
    {
        self.words
            .iter()
            .map(|word| word.count_ones() as usize)
            .sum()
    }

    /// The least member in the words from number `first` on.
    fn first_from(&self, first: usize) -> Option<usize>
        requires { first ≤ 64 }
        ensures { NextMember self.now.words (64 * first) result }
    {
        let i = (first..64).find(|i| self.words[*i] != 0)?;
        Some(64 * i + self.words[i].trailing_zeros() as usize)
    }

    /// The index of the least member that is `from` or more.
    fn next_index(&self, from: usize) -> Option<usize>
        ensures { NextMember self.now.words from result }
    {
        if from >= 4096 {
            return None;
        }
        let rest = self.words[from / 64] >> (from % 64);
        if rest != 0 {
            return Some(from + rest.trailing_zeros() as usize);
        }
        self.first_from(from / 64 + 1)
    }

    /// The least member that is `from` or more.
    pub fn next_member(&self, from: u16) -> Option<N>
        ensures { NextMember self.now.words from (value_in N.Number.value result) }
    {
        let k = self.next_index(from as usize)?;
        Some(N::from_index(k))
    }
}
