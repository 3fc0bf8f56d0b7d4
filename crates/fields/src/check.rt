//! The checks of the fields of an acceptor file, for its readers: each answers the first fault among them.
ghost use Rattle.std.specs.Prelude.{◌≡◌, ◌+◌, ◌-◌, ◌*◌, ◌^◌, ◌<◌, ◌≤◌, length, Decides};
ghost use Rattle.fields.specs.Reading.{number_at};
ghost use Rattle.fields.specs.Flaws.{marked, flagged, RowRises, fields, row};
ghost use Rattle.fields.specs.Judged.{Judged, OneJudged, NumberJudged, FrontJudged, FlagsJudged, RowsJudged};

use crate::fault::AcceptorFault;
use crate::format::{MOST_WORDS, VERSION};
use std::ops::Range;

// A file and a place in it, side by side throughout: each check is of another place, so a struct of both would be made anew for each.

/// The number in the two bytes at `at`.
pub fn number_at(file: &[u8], at: usize) -> usize
    requires { at + 2 ≤ length file.now }
    ensures { result ≡ number_at file.now at }
{
    u16::from_le_bytes([file[at], file[at + 1]]) as usize
}

/// Whether the mark stands in front.
pub fn check_mark(file: &[u8], mark: &[u8; 3]) -> Result<(), AcceptorFault>
    ensures { OneJudged file.now (marked mark.now) result }
{
    if file.len() < mark.len() {
        return Err(AcceptorFault { place: file.len() });
    }
    if !file.starts_with(mark) {
        return Err(AcceptorFault { place: 0 });
    }
    Ok(())
}

/// The number at `at`, which is to lie in the range.
pub fn in_range(file: &[u8], at: usize, range: Range<usize>) -> Result<usize, AcceptorFault>
    requires { at < 2 ^ 32 }
    ensures { NumberJudged file.now at range.start range.end result }
{
    if file.len() < at + 2 {
        return Err(AcceptorFault { place: file.len() });
    }
    let number = number_at(file, at);
    if !range.contains(&number) {
        return Err(AcceptorFault { place: at });
    }
    Ok(number)
}

/// What every file begins with, mark, version and count of words; the count.
pub fn check_front(file: &[u8], mark: &[u8; 3]) -> Result<usize, AcceptorFault>
    ensures { FrontJudged file.now mark.now result }
{
    let version = VERSION as usize;
    check_mark(file, mark)?;
    in_range(file, 3, version..version + 1)?;
    in_range(file, 5, 1..MOST_WORDS + 1)
}

/// Numbers from `at` on, each below its limit.
// A slice whose length is asked, here and below: as a parameter of a type, two or three would be asked all the same.
fn check_fields(file: &[u8], at: usize, limits: &[usize]) -> Result<(), AcceptorFault>
    requires { (at < 2 ^ 31) × (length limits.now ≤ 3) }
    ensures { Judged file.now (fields at limits.now) result }
{
    for (i, limit) in limits.iter().enumerate() {
        in_range(file, at + 2 * i, 0..*limit)?;
    }
    Ok(())
}

/// The byte at `at` is 0 or 1.
fn check_flag(file: &[u8], at: usize) -> Result<(), AcceptorFault>
    ensures { OneJudged file.now (flagged at) result }
{
    if file.len() <= at {
        return Err(AcceptorFault { place: file.len() });
    }
    if file[at] > 1 {
        return Err(AcceptorFault { place: at });
    }
    Ok(())
}

/// So many flags from `start` on; the place after them.
pub fn check_flags(file: &[u8], start: usize, count: usize) -> Result<usize, AcceptorFault>
    requires { (start ≤ 2 ^ 20) × (count ≤ 2 ^ 20) }
    ensures { FlagsJudged file.now start count result }
{
    let end = start + count;
    // By the place: a file may end within the flags, and a fault tells where.
    for at in start..end {
        check_flag(file, at)?;
    }
    Ok(end)
}

/// Whether the row at `at` rises over that at `before`: by its first number, then its second.
fn row_rises(file: &[u8], before: usize, at: usize) -> bool
    requires { (before + 4 ≤ length file.now) × (at + 4 ≤ length file.now) }
    ensures { Decides result (RowRises file.now before at) }
{
    let old = number_at(file, before);
    let new = number_at(file, at);
    old < new || old == new && number_at(file, before + 2) < number_at(file, at + 2)
}

/// The row at `at`: each number below its limit, and unless it is the first, at `start`, it rises over the row before it.
fn check_row(file: &[u8], start: usize, limits: &[usize], at: usize) -> Result<(), AcceptorFault>
    requires { (at < 2 ^ 31) × (2 ≤ length limits.now) × (length limits.now ≤ 3) × (start < at → start + 2 * length limits.now ≤ at) }
    ensures { Judged file.now (row start limits.now at) result }
{
    check_fields(file, at, limits)?;
    if at > start && !row_rises(file, at - 2 * limits.len(), at) {
        return Err(AcceptorFault { place: at });
    }
    Ok(())
}

/// So many rows from `start` on; the place after them.
pub fn check_rows(
    file: &[u8],
    start: usize,
    limits: &[usize],
    count: usize,
) -> Result<usize, AcceptorFault>
    requires { (start ≤ 2 ^ 20) × (2 ≤ length limits.now) × (length limits.now ≤ 3) × (count ≤ 16384) }
    ensures { RowsJudged file.now start limits.now count result }
{
    let size = 2 * limits.len();
    // By the number of the row: a file may end within a row, whose fields before the end are judged first, so there are no whole chunks to walk.
    for k in 0..count {
        check_row(file, start, limits, start + size * k)?;
    }
    Ok(start + size * count)
}
