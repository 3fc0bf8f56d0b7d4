//! The check that every reader of a book makes: does the table hold a grammar?
ghost use Rattle.std.specs.Prelude.{◌≡◌, ℕ, ◌+◌, ◌<◌, ◌≤◌, length, drop, MatchResult};
ghost use Rattle.book.specs.Grammar.{Grammar};
ghost use Rattle.book.specs.Checks.{Present, Between, HeaderChecked, SymbolsTo, SymbolFault, Stands, RuleChecked, Checked, OnlyChecked};

use super::entries::{Entries, TableEntries};
use super::fault::BookFault;

/// What a reader learns of a sound book: its header, how many entries it takes, and how many items it has.
#[derive(Clone, Copy, PartialEq, Eq, Debug)]
pub struct Summary {
    pub words: usize,
    pub names: usize,
    pub start: usize,
    pub rules: usize,
    pub used: usize,
    pub items: usize,
}

/// Entry `i`, or the fault that it is missing.
fn present<E: Entries>(book: &E, i: usize) -> Result<usize, BookFault>
    ensures { Present (E.Entries.entries book.now) i result }
{
    book.entry(i).ok_or(BookFault::EntryMissing(i))
}

/// Entry `i` of the header, which is to lie between `least` and `most`.
// Not that of `fields`, which stands above the book: a book's faults are its own.
fn in_range<E: Entries>(book: &E, i: usize, least: usize, most: usize) -> Result<usize, BookFault>
    ensures { Between (E.Entries.entries book.now) i least most result }
{
    let entry = present(book, i)?;
    if !(least..=most).contains(&entry) {
        return Err(BookFault::HeaderRange(i));
    }
    Ok(entry)
}

/// The header, each of its entries in its range: the summary of the book with none of its rules read.
pub fn check_header<E: Entries>(book: &E) -> Result<Summary, BookFault>
    ensures { HeaderChecked (E.Entries.entries book.now) result }
{
    let words = in_range(book, 0, 1, 1024)?;
    let names = in_range(book, 1, 1, 1024)?;
    let start = in_range(book, 2, words, words + names - 1)?;
    let rules = in_range(book, 3, 0, 2048)?;
    Ok(Summary {
        words,
        names,
        start,
        rules,
        used: 4,
        items: 2,
    })
}

/// The entries from `at` up to `end`, each a symbol below `symbols`.
fn check_symbols<E: Entries>(
    book: &E,
    at: usize,
    end: usize,
    symbols: usize,
) -> Result<(), BookFault>
    ensures { MatchResult result (λ _. SymbolsTo (E.Entries.entries book.now) at symbols end)
        (λ f. SymbolFault (E.Entries.entries book.now) at symbols end f) }
{
    // An index: an entry is asked for by its index, and a fault tells it.
    for i in at..end {
        let symbol = present(book, i)?;
        if symbol >= symbols {
            return Err(BookFault::SymbolUnknown(i));
        }
    }
    Ok(())
}

/// The summary of the book with one rule more, the one that stands after what is read so far.
pub fn check_rule<E: Entries>(book: &E, so_far: Summary) -> Result<Summary, BookFault>
    requires { (so_far.used ≤ 32768) × (so_far.items ≤ 4096) × (so_far.words ≤ 1024) × (so_far.names ≤ 1024) }
    ensures { (g : Grammar) → Stands g so_far → RuleChecked g so_far (drop so_far.used (E.Entries.entries book.now)) result }
{
    let at = so_far.used;
    let symbols = so_far.words + so_far.names;
    let left = present(book, at)?;
    if left < so_far.words || left >= symbols {
        return Err(BookFault::LeftNotName(at));
    }
    let length = present(book, at + 1)?;
    if length > 16 {
        return Err(BookFault::SideTooLong(at + 1));
    }
    let used = at + 2 + length;
    check_symbols(book, at + 2, used, symbols)?;
    let items = so_far.items + length + 1;
    if items > 4096 {
        return Err(BookFault::TooManyItems(at));
    }
    Ok(Summary {
        used,
        items,
        ..so_far
    })
}

/// Whether the entries hold a grammar: its summary, or the first fault.
pub fn check_entries<E: Entries>(book: &E) -> Result<Summary, BookFault>
    ensures { Checked (E.Entries.entries book.now) result }
{
    let header = check_header(book)?;
    let mut so_far = header;
    for _i in 0..header.rules {
        so_far = check_rule(book, so_far)?;
    }
    Ok(so_far)
}

/// The summary of the grammar that a table holds, or the table's first fault.
pub fn check(table: &[u16]) -> Result<Summary, BookFault>
    ensures checked { Checked table.now result }
    ensures only { OnlyChecked table.now result }
{
    check_entries(&TableEntries(table))
}
