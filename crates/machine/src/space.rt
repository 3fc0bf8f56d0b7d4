//! Sets of items as a space: each leads on a symbol to the closure of its items with the dot carried over it.
ghost use Rattle.std.specs.Prelude.{◌≡◌, ℕ, suc, ◌<◌, ◌≤◌, List};
ghost use Rattle.table.specs.Sets.{In, members};
ghost use Rattle.table.proofs.Same.{set_exact};
ghost use Rattle.machine.specs.Reading.{item_search, Readied, LeastAfter, CarriedOver};

use super::items::Items;
use finding::space::Space;
use table::numbers::{ItemNo, Number};
use table::sets::ItemSet;

impl Items {
    /// The least symbol that is `from` or more and stands after a dot of the set.
    fn least_after(&self, set: &ItemSet, from: u16) -> Option<u16>
        ensures { LeastAfter self.now.after set.now.words from result }
    {
        set.iter()
            .filter_map(|item| self.symbol_after(item))
            .filter(|symbol| *symbol >= from)
            .min()
    }

    /// The items with this symbol after their dots, each with the dot carried over it.
    fn carry(&self, set: &ItemSet, symbol: u16) -> ItemSet
        ensures { CarriedOver self.now.after set.now.words symbol result.words }
    {
        let mut carried = ItemSet::empty();
        for item in set.iter() {
            if self.after[item.index()] == symbol {
                carried.insert(ItemNo(item.0 + 1));
            }
        }
        carried
    }
}

/// The sets of items of the grammar that a table holds.
#[derive(Drop)]
pub struct ItemSpace<'a> {
    pub table: &'a [u16],
    pub items: Items,
}

impl Space for ItemSpace<'_> {
    type Entry = ItemSet;

    ghost Source = { List ℕ };

    ghost Thing = { List ℕ };

    ghost source = { λ s. s.table.now };

    ghost sought = { item_search };

    ghost thing = { λ _ e. members e.words };

    ghost ready = { λ s es. Readied s.table.now s.items es };

    fn next_symbol(&self, e: ItemSet, from: u16) -> Option<u16> {
        self.items.least_after(&e, from)
    }

    fn reach(&mut self, e: ItemSet, x: u16) -> Option<ItemSet> {
        let carried = self.items.carry(&e, x);
        Some(self.items.close(&carried))
    }

    ghost exact = { λ s es r. set_exact };
}
