//! The items of a grammar, as the closure looks them up.
ghost use Rattle.std.specs.Prelude.{◌≡◌, ℕ, ◌+◌, ◌-◌, ◌<◌, ◌≤◌, [], ◌∷◌, ◌++◌, length, take, drop, Ok, slice_index, slice_set};
ghost use Rattle.book.specs.Checks.{Checked};
ghost use Rattle.book.specs.Grammar.{Grammar};
ghost use Rattle.book.specs.Tables.{Holds};
ghost use Rattle.machine.specs.Index.{Indexed, SymbolAfter, Falls, falling, links};
ghost use Rattle.std.specs.Iterator.{YieldsFirstBy, item_count};
ghost use Rattle.table.specs.declared.numbers.ItemNo.{ItemNo as ItemNumber};

use book::Summary;
use std::marker::Model;
use table::numbers::ItemNo;

/// Stands for the symbol after a dot at the end, after which there is none.
pub const NO_SYMBOL: u16 = 65535;

/// For each item the symbol after its dot, and for each name a chain of the first items of its rules, which ends at 0.
// Arrays by item number in fixed memory, where 65535 and 0 stand for none: a right side is copied in whole, and item 0 opens no rule. Readers get an Option
// from `symbol_after` and an iterator from `rules_of`; a whole right side is lent as it stands, and a caller that looks for one symbol compares it with the array.
#[derive(Drop)]
pub struct Items {
    pub words: usize,
    pub after: [u16; 4096],
    pub head: [u16; 1024],
    pub next: [u16; 4096],
}

/// A number of a chain where it is below `bound`, or else 0, at which the chain ends.
// The arrays are public and may hold anything: a chain ends where it leaves the items or does not fall.
fn link_below(number: u16, bound: u16) -> u16
    ensures { result ≡ falling bound number }
{
    if number < bound { number } else { 0 }
}

/// The first items of a name's rules, along their chain, seen as the list of those that are left.
#[derive(Drop)]
pub struct FirstItems<'a> {
    items: &'a Items,
    at: u16,
}

impl<'a> Model for FirstItems<'a> {
    ghost use Rattle.std.specs.Prelude.{ℕ, ◌<◌, List};

    ghost Value = { List ℕ };

    ghost use Rattle.machine.specs.Index.{links};

    ghost view = { λ it. links it.items.now.next it.at };

    ghost invariant = { λ it. it.at < 4096 };
}

impl<'a> Iterator for FirstItems<'a> {
    type Item = ItemNo;

    ghost next_gives = { YieldsFirstBy (λ (i : ItemNumber). i.0) (λ rest. rest) };

    ghost remaining = { item_count (λ rest. rest) };

    fn next(&mut self) -> Option<ItemNo> {
        if self.at == 0 {
            return None;
        }
        let item = ItemNo(self.at);
        self.at = link_below(self.items.next[self.at as usize], self.at);
        Some(item)
    }
}

impl Items {
    // Bounds are asked by each call: a sort of numbers for each bound would ask the same where one is made, and most are made in these calls.

    /// The symbol after an item's dot, if one follows.
    pub fn symbol_after(&self, item: ItemNo) -> Option<u16>
        requires { item.0 < 4096 }
        ensures { SymbolAfter self.now.after item.0 result }
    {
        let symbol = self.after[item.0 as usize];
        (symbol != NO_SYMBOL).then_some(symbol)
    }

    /// The first items of the rules of the name of this index.
    pub fn rules_of(&self, name: usize) -> FirstItems<'_>
        requires { name < 1024 }
        ensures { result ≡ links self.now.next (slice_index self.now.head name) }
    {
        FirstItems {
            items: self,
            at: link_below(self.head[name], 4096),
        }
    }

    /// Puts in a rule whose first item has the number `first`, and whose left side is the name of index `name`.
    fn add_rule(&mut self, name: usize, right: &[u16], first: usize)
        requires { (name < 1024) × (first + (length right.now + 1) ≤ 4096) }
        ensures after { take (first + (length right.now + 1)) self.new.after ≡ take first self.old.after ++ (right.now ++ (65535 ∷ [])) }
        ensures next { self.new.next ≡ slice_set self.old.next first (slice_index self.old.head name) }
        ensures head { self.new.head ≡ slice_set self.old.head name first }
        ensures words { self.new.words ≡ self.old.words }
    {
        let end = first + right.len();
        self.after[first..end].copy_from_slice(right);
        self.after[end] = NO_SYMBOL;
        self.next[first] = self.head[name];
        self.head[name] = first as u16;
    }

    /// The items of the grammar that a table holds, where its check gave `book`.
    pub fn of(table: &[u16], book: Summary) -> Items
        requires { Checked table.now (Ok book) }
        ensures words { result.words ≡ book.words }
        ensures indexed { (g : Grammar) → Holds table.now g → Indexed g result.after result.head result.next }
        ensures falls { Falls result.next }
        ensures heads { (n : ℕ) → slice_index result.head n < 4096 }
    {
        let mut after = [NO_SYMBOL; 4096];
        after[0] = book.start as u16;
        let mut items = Items {
            words: book.words,
            after,
            head: [0; 1024],
            next: [0; 4096],
        };
        // A running number, and no index: a rule takes as many items as its right side has places for a dot.
        let mut first = 2;
        for rule in book::Rules::of(table, book) {
            let name = usize::from(rule.left) - book.words;
            items.add_rule(name, rule.right, first);
            first += rule.right.len() + 1;
        }
        items
    }
}
