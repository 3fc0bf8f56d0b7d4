//! The closure of a set of items: each name after a dot is opened once.
ghost use Rattle.std.specs.Prelude.{◌≡◌, ℕ, ◌+◌, ◌<◌, ◌≤◌, List, length};
ghost use Rattle.book.specs.Grammar.{Grammar};
ghost use Rattle.table.specs.Sets.{In, members};
ghost use Rattle.theory.specs.Closure.{Closed, closure, initial};
ghost use Rattle.book.specs.Tables.{Name};
ghost use Rattle.machine.specs.Index.{FirstOf, NameAfter};
ghost use Rattle.machine.specs.Closing.{ItemsOf, AfterDot, Within, Grown, OpenedTo, KernelOf};

use super::items::Items;
use super::names::Names;
use table::numbers::ItemNo;
use table::sets::ItemSet;

/// A closure in the making: the items so far, and the names after their dots.
#[derive(Drop)]
pub struct Closing {
    pub set: ItemSet,
    pub names: Names,
}

// Each step goes from the items to the closure in the making: in one struct, every step would have to promise that the items stay. What a step keeps is said of a
// grammar whose items these are, by name: the items alone do not tell how many names it has.
impl Items {
    /// The name after an item's dot, by its index, if one stands there.
    fn name_after(&self, item: ItemNo) -> Option<usize>
        requires { item.0 < 4096 }
        ensures { NameAfter self.now.words self.now.after item.0 result }
    {
        let symbol = self.symbol_after(item)?;
        let name = (symbol as usize).checked_sub(self.words)?;
        (name < 1024).then_some(name)
    }

    /// Puts an item in, and notes the name after its dot.
    fn take_item(&self, at: &mut Closing, item: ItemNo)
        requires { item.0 < 4096 }
        ensures grown { Grown at.old at.new }
        ensures here { In at.new.set.words item.0 }
        ensures within { (g : Grammar) (K : List ℕ) → ItemsOf g self.now → Closed g K item.0 → Within g K at.old → Within g K at.new }
    {
        at.set.insert(item);
        if let Some(name) = self.name_after(item) {
            at.names.note(name);
        }
    }

    /// Puts the first items of a name's rules in.
    fn open_name(&self, at: &mut Closing, name: usize)
        requires { name < 1024 }
        ensures grown { Grown at.old at.new }
        ensures within { (g : Grammar) (K : List ℕ) → ItemsOf g self.now → Name g (g.words + name) → AfterDot g K (g.words + name) → Within g K at.old → Within g K at.new }
        ensures opened { (g : Grammar) (k : ℕ) → ItemsOf g self.now → Name g (g.words + name) → FirstOf g (g.words + name) k → In at.new.set.words k }
    {
        for item in self.rules_of(name) {
            self.take_item(at, item);
        }
    }

    /// The items of a kernel, with the names after their dots noted.
    fn seed(&self, kernel: &ItemSet) -> Closing
        ensures kernel { (k : ℕ) → In kernel.now.words k → In result.set.words k }
        ensures within { (g : Grammar) (K : List ℕ) → ItemsOf g self.now → ((k : ℕ) → In kernel.now.words k → Closed g K k) → Within g K result }
    {
        let mut at = Closing {
            set: ItemSet::empty(),
            names: Names::none(),
        };
        for item in kernel.iter() {
            self.take_item(&mut at, item);
        }
        at
    }

    /// Opens each name that is noted, and each that is noted on the way.
    fn open_all(&self, at: &mut Closing)
        ensures still { (k : ℕ) → In at.old.set.words k → In at.new.set.words k }
        ensures opened { (g : Grammar) (K : List ℕ) → ItemsOf g self.now → Within g K at.old → Within g K at.new × OpenedTo g (length at.new.names) at.new }
    {
        // An index: the list of names grows as it is gone over, which no iterator follows.
        let mut i = 0;
        while let Some(name) = at.names.get(i) {
            self.open_name(at, name);
            i += 1;
        }
    }

    /// The closure of a set of items.
    pub fn close(&self, kernel: &ItemSet) -> ItemSet
        ensures { (g : Grammar) → ItemsOf g self.now → KernelOf g kernel.now.words → members result.words ≡ closure g (members kernel.now.words) }
    {
        let mut at = self.seed(kernel);
        self.open_all(&mut at);
        at.set
    }

    /// The closure of the added rule with its dot in front.
    pub fn initial_set(&self) -> ItemSet
        ensures { (g : Grammar) → ItemsOf g self.now → members result.words ≡ initial g }
    {
        let mut kernel = ItemSet::empty();
        kernel.insert(ItemNo(0));
        self.close(&kernel)
    }
}
