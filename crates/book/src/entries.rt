//! Where a book's entries may lie: in a table, in a file, or in the arguments of a call.
ghost use Rattle.std.specs.Prelude.{ℕ, List, ◌∷◌, ◌++◌, length};
ghost use Rattle.book.specs.Reading.{EntryAt, numbers};

/// A list of entries that can be read one by one.
pub trait Entries {
    ghost entries: { Self → List ℕ };

    /// Entry `i`, or none past the end.
    fn entry(&self, i: usize) -> Option<usize>
        ensures { EntryAt (entries self.now) i result };
}

/// The entries of a table.
#[derive(Clone, Copy)]
pub struct TableEntries<'a>(pub &'a [u16]);

impl Entries for TableEntries<'_> {
    ghost entries = { λ s. s.0.now };

    fn entry(&self, i: usize) -> Option<usize> {
        self.0.get(i).copied().map(usize::from)
    }
}

/// The entries of a book, and after them those of one rule more: its left side, the length of its right side, and the right side.
#[derive(Clone, Copy)]
pub struct AppendedEntries<'a> {
    pub book: &'a [u16],
    pub left: u16,
    pub right: &'a [u16],
}

impl Entries for AppendedEntries<'_> {
    ghost entries = { λ s. s.book.now ++ (s.left ∷ (length s.right.now ∷ s.right.now)) };

    fn entry(&self, i: usize) -> Option<usize> {
        // The right side first: most entries that are asked for are its symbols.
        match i.checked_sub(self.book.len() + 2) {
            Some(k) => self.right.get(k).copied().map(usize::from),
            None if i > self.book.len() => Some(self.right.len()),
            None if i == self.book.len() => Some(usize::from(self.left)),
            None => self.book.get(i).copied().map(usize::from),
        }
    }
}

/// The entries in the bytes of a file, two bytes each, the low byte first.
#[derive(Clone, Copy)]
pub struct FileEntries<'a>(pub &'a [u8]);

impl Entries for FileEntries<'_> {
    ghost entries = { λ s. numbers s.0.now };

    fn entry(&self, i: usize) -> Option<usize> {
        let (pairs, _) = self.0.as_chunks::<2>();
        pairs
            .get(i)
            .map(|pair| usize::from(u16::from_le_bytes(*pair)))
    }
}
