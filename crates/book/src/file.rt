//! Book files: load and save.
ghost use Rattle.std.specs.Prelude.{◌≡◌, ◌+◌, ◌*◌, ◌/◌, ◌%◌, ◌≤◌, length};
ghost use Rattle.std.specs.List.{flat_map};
ghost use Rattle.book.specs.Reading.{numbers};
ghost use Rattle.book.specs.Files.{bytes_of, file_of, MarkChecked, Loaded, Saved};

use super::entries::FileEntries;
use super::fault::BookFault;
use super::reader::{check, check_entries};

/// The mark of a book file, which its version follows.
const MARK: [u8; 3] = *b"PGB";

/// The version of the files that are read and written.
const VERSION: u16 = 1;

/// The length of mark and version.
const FRONT: usize = 5;

/// Whether a file is long enough, has its mark and version, and no half number at its end.
// Not that of `fields`, which stands above the book and judges field by field: here the length comes first, and faults are a book's own.
fn check_mark(file: &[u8]) -> Result<(), BookFault>
    ensures { MarkChecked file.now result }
{
    if file.len() < FRONT {
        return Err(BookFault::WrongLength(file.len()));
    }
    if !file.starts_with(&MARK) {
        return Err(BookFault::WrongMark(0));
    }
    if u16::from_le_bytes([file[3], file[4]]) != VERSION {
        return Err(BookFault::WrongMark(3));
    }
    if file.len() % 2 == 0 {
        return Err(BookFault::WrongLength(file.len()));
    }
    Ok(())
}

/// Fills `out` with the numbers of as many pairs of bytes.
fn read_numbers(bytes: &[u8], out: &mut [u16])
    requires { length bytes.now ≡ 2 * length out.old }
    ensures { out.new ≡ numbers bytes.now }
{
    let (pairs, _) = bytes.as_chunks::<2>();
    // Written by index: of what is written through `out.iter_mut().zip(..)` a proof knows nothing afterwards.
    for (i, pair) in pairs.iter().enumerate() {
        out[i] = u16::from_le_bytes(*pair);
    }
}

/// Fills `out` with the two bytes of each number.
fn write_numbers(numbers: &[u16], out: &mut [u8])
    requires { length out.old ≡ 2 * length numbers.now }
    ensures { out.new ≡ flat_map bytes_of numbers.now }
{
    // Written by index, for the same reason as in `read_numbers`.
    for (i, number) in numbers.iter().enumerate() {
        out[2 * i..2 * i + 2].copy_from_slice(&number.to_le_bytes());
    }
}

/// Reads a book file into the table; the length used.
pub fn load(file: &[u8], table: &mut [u16]) -> Result<usize, BookFault>
    ensures { Loaded file.now table.old result table.new }
{
    check_mark(file)?;
    let bytes = &file[FRONT..];
    let used = check_entries(&FileEntries(bytes))?.used;
    if 2 * used < bytes.len() {
        return Err(BookFault::WrongLength(file.len()));
    }
    if used > table.len() {
        return Err(BookFault::NoRoom(used));
    }
    read_numbers(bytes, &mut table[..used]);
    Ok(used)
}

/// Fills `out` with the file of these entries.
fn write_file(entries: &[u16], out: &mut [u8])
    requires { length out.old ≡ 5 + 2 * length entries.now }
    ensures { out.new ≡ file_of entries.now }
{
    out[..3].copy_from_slice(&MARK);
    out[3..FRONT].copy_from_slice(&VERSION.to_le_bytes());
    write_numbers(entries, &mut out[FRONT..]);
}

/// Writes the book file of a table's grammar; the length used.
pub fn save(table: &[u16], file: &mut [u8]) -> Result<usize, BookFault>
    ensures { Saved table.now file.old result file.new }
{
    let used = check(table)?.used;
    let needed = FRONT + 2 * used;
    if file.len() < needed {
        return Err(BookFault::OutputShort(needed));
    }
    write_file(&table[..used], &mut file[..needed]);
    Ok(needed)
}
