//! The names that a closure opens, each once.
ghost use Rattle.std.specs.Prelude.{◌≡◌, ℕ, ◌<◌, ◌≤◌, [], length, slice_get};
ghost use mathlib.Core.List.{Memᴰ};
ghost use Rattle.machine.specs.Names.{Noted};

use std::marker::Model;

/// The names noted so far, seen as the list of their indexes in the order in which they came.
// A list with its length, and a mark for each name: the memory is fixed, and the list grows while it is gone over. No set of numbers: a name has no sort of its own.
#[derive(Drop)]
pub struct Names {
    list: [u16; 1024],
    count: usize,
    seen: [bool; 1024],
}

impl Model for Names {
    ghost use Rattle.std.specs.Prelude.{ℕ, List, take};

    ghost Value = { List ℕ };

    ghost use Rattle.machine.specs.Names.{Marked};

    ghost view = { λ n. take n.count n.list };

    ghost invariant = { λ n. Marked n.list n.count n.seen };
}

impl Names {
    /// No name.
    pub fn none() -> Names
        ensures { result ≡ [] }
    {
        Names {
            list: [0; 1024],
            count: 0,
            seen: [false; 1024],
        }
    }

    /// The name at this place, if so many are noted; there are never more than 1,024, and each is below 1,024.
    pub fn get(&self, i: usize) -> Option<usize>
        ensures at { result ≡ slice_get self.now i }
        ensures few { length self.now ≤ 1024 }
        ensures small { (n : ℕ) → Memᴰ n self.now → n < 1024 }
    {
        self.list[..self.count]
            .get(i)
            .map(|name| usize::from(*name))
    }

    /// Notes the name of this index at the end, if it is not noted yet.
    pub fn note(&mut self, name: usize)
        requires { name < 1024 }
        ensures { Noted self.old name self.new }
    {
        if self.seen[name] {
            return;
        }
        self.seen[name] = true;
        self.list[self.count] = name as u16;
        self.count += 1;
    }
}
