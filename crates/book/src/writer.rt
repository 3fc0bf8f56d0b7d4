//! Making a book: blank and add.
ghost use Rattle.std.specs.Prelude.{◌≡◌, ◌+◌, ◌<◌, ◌≤◌, ◌∷◌, ◌++◌, length, take, drop, slice_set};
ghost use Rattle.book.specs.Grammar.{rule};
ghost use Rattle.book.specs.Tables.{rule_entries};
ghost use Rattle.book.specs.Edits.{bare, Blanked, AddedOr};

use super::entries::{AppendedEntries, TableEntries};
use super::fault::BookFault;
use super::reader::{check, check_header, check_rule};

/// The most rules that a book may have.
const MOST_RULES: usize = 2048;

/// Writes the header of a book with no rule; the length used.
pub fn blank(table: &mut [u16], words: u16, names: u16, start: u16) -> Result<usize, BookFault>
    ensures { Blanked table.old (bare words names start) result table.new }
{
    let header = [words, names, start, 0];
    check_header(&TableEntries(&header))?;
    if table.len() < 4 {
        return Err(BookFault::NoRoom(4));
    }
    table[..4].copy_from_slice(&header);
    Ok(4)
}

/// Counts one rule more than `rules` in the header.
fn count_rule(table: &mut [u16], rules: usize)
    requires { (3 < length table.old) × (rules < 2048) }
    ensures { table.new ≡ slice_set table.old 3 (rules + 1) }
{
    table[3] = (rules + 1) as u16;
}

/// Writes a rule's entries at `at`.
fn write_rule(table: &mut [u16], at: usize, left: u16, right: &[u16])
    requires { (at + (2 + length right.now) ≤ length table.old) × (length right.now ≤ 16) }
    ensures { table.new ≡ take at table.old ++ (rule_entries (rule left right.now) ++ drop (at + (2 + length right.now)) table.old) }
{
    let end = at + 2 + right.len();
    table[at] = left;
    table[at + 1] = right.len() as u16;
    table[at + 2..end].copy_from_slice(right);
}

// Left and right side one by one, as most callers have them: a rule of both would mostly be made for the call.

/// Appends the rule that rewrites `left` to `right`; the length used.
pub fn add(table: &mut [u16], left: u16, right: &[u16]) -> Result<usize, BookFault>
    ensures { AddedOr table.old (rule left right.now) result table.new }
{
    let book = check(table)?;
    let used = book.used;
    let appended = AppendedEntries {
        book: &table[..used],
        left,
        right,
    };
    let end = check_rule(&appended, book)?.used;
    if book.rules == MOST_RULES || end > table.len() {
        return Err(BookFault::NoRoom(used));
    }
    count_rule(table, book.rules);
    write_rule(table, used, left, right);
    Ok(end)
}
