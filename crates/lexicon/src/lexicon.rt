//! Numbers for spellings, from 0 in order of first arrival.
ghost use Rattle.std.specs.Prelude.{◌≡◌, ◌≤◌, min, [], length, take};
ghost use Rattle.table.specs.Lists.{Distinct};

use crate::fault::LexiconFault;
use crate::spelling::Spelling;
use table::entries::Table;

/// The most spellings that a lexicon numbers, however many rows are lent.
const MOST: usize = 1024;

/// Spellings in the order in which they first came; each one's number is its place.
#[derive(Drop)]
pub struct Lexicon<'a> {
    table: Table<'a, Spelling>,
    ghost few: { length table.rows.now ≤ 1024 },
    ghost distinct: { Distinct (take table.len table.rows.now) },
}

impl<'a> Lexicon<'a> {
    ghost use Rattle.lexicon.specs.Lexicons.{spellings, places, Numbered, Only};

    /// The lexicon without a spelling, with as many places as rows, or 1,024 where there are more rows.
    pub fn over(rows: &'a mut [Spelling]) -> Lexicon<'a>
        ensures none { spellings result ≡ [] }
        ensures places { places result ≡ min (length rows.old) 1024 }
    {
        let most = rows.len().min(MOST);
        Lexicon {
            table: Table::new(&mut rows[..most], 0),
        }
    }

    /// The number of the spelling that these bytes are; a new spelling gets the next number.
    pub fn number(&mut self, bytes: &[u8]) -> Result<u16, LexiconFault>
        ensures numbered { Numbered (spellings self.old) (places self.old) bytes.now result (spellings self.new) }
        ensures places { places self.new ≡ places self.old }
        ensures distinct { Distinct (spellings self.new) }
        ensures only { Only (spellings self.old) (places self.old) bytes.now result (spellings self.new) }
    {
        let spelling = Spelling::read(bytes)?;
        match self.table.find_or_add(spelling) {
            Some(number) => Ok(number as u16),
            None => Err(LexiconFault::Full(self.len())),
        }
    }

    /// How many spellings have a number.
    pub fn len(&self) -> usize
        ensures { result ≡ length (spellings self.now) }
    {
        self.table.len()
    }
}
