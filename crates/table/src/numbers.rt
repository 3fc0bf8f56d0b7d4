//! Numbers of their own kind: a number of one sort in place of another does not build.
ghost use Rattle.std.specs.Prelude.{◌≡◌, ℕ, ◌<◌};
ghost use Rattle.std.proofs.Common.{rules};

/// A sort of numbers of 16 bits.
// A trait of its own and no `From`: only an index below 65,536 is a number, and one law holds of all sorts.
pub trait Number: Copy {
    /// the plain number
    ghost value: { Self → ℕ };

    /// The number of an index.
    fn from_index(index: usize) -> Self
        requires { index < 65536 }
        ensures { value result ≡ index };

    /// The number as an index.
    fn index(self) -> usize
        ensures value { result ≡ value self }
        ensures small { result < 65536 };

    /// equal numbers of one sort are one
    ghost one: { (x y : Self) → value x ≡ value y → x ≡ y };
}

// Four structs with an impl each: one generic in a marker would take a second field, and so lose the form `ItemNo(n)` that all crates write and match,
// and a macro may write no impl.

/// The number of a dotted rule.
#[derive(Clone, Copy, PartialEq, Eq, Debug)]
pub struct ItemNo(pub u16);

/// The number of a state of the characteristic machine, or of a determinised acceptor.
#[derive(Clone, Copy, PartialEq, Eq, Default, Debug)]
pub struct StateNo(pub u16);

/// The number of a node of the unfolded machine.
#[derive(Clone, Copy, PartialEq, Eq, PartialOrd, Ord, Default, Debug)]
pub struct NodeNo(pub u16);

/// The number of a class of stacks.
#[derive(Clone, Copy, PartialEq, Eq, Default, Debug)]
pub struct ClassNo(pub u16);

impl Number for ItemNo {
    ghost value = { λ n. n.0 };

    ghost one = { Prim.search rules };

    fn from_index(index: usize) -> ItemNo {
        ItemNo(index as u16)
    }

    fn index(self) -> usize {
        self.0 as usize
    }
}

impl Number for StateNo {
    ghost value = { λ n. n.0 };

    ghost one = { Prim.search rules };

    fn from_index(index: usize) -> StateNo {
        StateNo(index as u16)
    }

    fn index(self) -> usize {
        self.0 as usize
    }
}

impl Number for NodeNo {
    ghost value = { λ n. n.0 };

    ghost one = { Prim.search rules };

    fn from_index(index: usize) -> NodeNo {
        NodeNo(index as u16)
    }

    fn index(self) -> usize {
        self.0 as usize
    }
}

impl Number for ClassNo {
    ghost value = { λ n. n.0 };

    ghost one = { Prim.search rules };

    fn from_index(index: usize) -> ClassNo {
        ClassNo(index as u16)
    }

    fn index(self) -> usize {
        self.0 as usize
    }
}
