//! The rules of a book, one after the other, as they stand in its table.
ghost use Rattle.std.specs.Prelude.{◌≡◌, Ok};
ghost use Rattle.std.specs.Iterator.{YieldsFirstBy, item_count};
ghost use Rattle.book.specs.Checks.{Checked};
ghost use Rattle.book.specs.Grammar.{Grammar, rule};
ghost use Rattle.book.specs.Tables.{Holds};
ghost use Rattle.book.specs.Reading.{rules_in};

use super::reader::Summary;

/// A rule: its left side, and its right side where that stands.
#[derive(Clone, Copy)]
pub struct TableRule<'a> {
    pub left: u16,
    pub right: &'a [u16],
}

/// The next `count` rules of these entries.
#[derive(Drop)]
pub struct Rules<'a> {
    pub count: usize,
    pub entries: &'a [u16],
}

impl<'a> Rules<'a> {
    // Table and summary side by side: a struct of both would ask where it is made what is asked here.

    /// The rules of the grammar that a table holds, where its check gave `book`.
    pub fn of(table: &'a [u16], book: Summary) -> Rules<'a>
        requires { Checked table.now (Ok book) }
        ensures { (g : Grammar) → Holds table.now g → rules_in result.count result.entries.now ≡ g.rules }
    {
        Rules {
            count: book.rules,
            entries: &table[4..],
        }
    }
}

impl<'a> Iterator for Rules<'a> {
    type Item = TableRule<'a>;

    ghost next_gives = { YieldsFirstBy (λ r. rule r.left r.right.now) (λ s. rules_in s.count s.entries.now) };

    ghost remaining = { item_count (λ s. rules_in s.count s.entries.now) };

    fn next(&mut self) -> Option<TableRule<'a>> {
        let count = self.count.checked_sub(1)?;
        let (head, after) = self.entries.split_first_chunk::<2>()?;
        let [left, length] = *head;
        let (right, entries) = after.split_at_checked(usize::from(length))?;
        self.count = count;
        self.entries = entries;
        Some(TableRule { left, right })
    }
}
