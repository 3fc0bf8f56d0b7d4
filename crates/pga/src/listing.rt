//! The text of an acceptor: counts, arcs and jumps, a line each.
ghost use Rattle.std.specs.Prelude.{◌≡◌, ◌+◌, ◌*◌, ◌^◌, ◌<◌, ◌≤◌, length, Ok};
ghost use Rattle.std.specs.List.{flat_map};
ghost use Rattle.fields.specs.Putting.{Puts};
ghost use Rattle.pga.specs.Reading.{row_numbers, rows_from, decoded};
ghost use Rattle.pga.specs.Checks.{Checked};
ghost use Rattle.pga.specs.Listing.{part, line, lines, Listed};

use super::check::{Header, check_file};
use super::fault::ListFault;
use super::format::ARCS_AT;
use fields::check::number_at;
use fields::format::ARC_SIZE;
use fields::output::Output;
use itoa::Buffer;
use std::array;

/// What a compile counts: states, moves, nodes, unfolded moves, arcs and jumps.
#[derive(Clone, Copy, PartialEq, Eq, Debug)]
pub struct Counts {
    pub states: usize,
    pub moves: usize,
    pub nodes: usize,
    pub unfolded: usize,
    pub arcs: usize,
    pub jumps: usize,
}

/// Puts a number of a line, parted by a blank from those before it.
fn put_next(out: &mut Output, before: usize, number: usize)
    requires { out.old.at < 2 ^ 32 }
    ensures { Puts out.old (part before number) out.new }
{
    if before > 0 {
        out.byte(b' ');
    }
    // Not by `write!`: its contract leaves open whether a write fails, and the text is put whole.
    out.text(Buffer::new().format(number).as_bytes());
}

/// Puts a line of numbers.
fn put_line(out: &mut Output, numbers: &[usize])
    requires { (out.old.at < 2 ^ 31) × (length numbers.now ≤ 6) }
    ensures puts { Puts out.old (line numbers.now) out.new }
    ensures short { out.new.at ≤ out.old.at + 128 }
{
    for (i, number) in numbers.iter().enumerate() {
        put_next(out, i, *number);
    }
    out.byte(b'\n');
}

/// The N numbers that stand in the file from `at` on.
fn row_at<const N: usize>(file: &[u8], at: usize) -> [usize; N]
    requires { at + 2 * N ≤ length file.now }
    ensures { result ≡ row_numbers file.now at N }
{
    array::from_fn(|i| number_at(file, at + 2 * i))
}

/// Puts the rows of N numbers that stand in the file from `start` on, a line each.
fn put_rows<const N: usize>(out: &mut Output, file: &[u8], start: usize, count: usize)
    requires few { (N ≤ 6) × (count ≤ 16384) × (start + 2 * N * count ≤ length file.now) }
    requires room { out.old.at ≤ 2 ^ 30 }
    ensures puts { Puts out.old (flat_map line (rows_from file.now start N count)) out.new }
    ensures short { out.new.at ≤ out.old.at + 128 * count }
{
    // By the number of the row, as the clause names it: of a chunk that is cut out it would have to be shown which row it is.
    for k in 0..count {
        put_line(out, &row_at::<N>(file, start + 2 * N * k));
    }
}

/// Puts the text of the file's acceptor under these counts.
fn put_text(out: &mut Output, counts: Counts, file: &[u8], header: Header)
    requires sound { Checked file.now (Ok header) }
    requires begun { out.old.at ≡ 0 }
    ensures { Puts out.old (lines counts (decoded file.now)) out.new }
{
    let numbers = [
        counts.states,
        counts.moves,
        counts.nodes,
        counts.unfolded,
        counts.arcs,
        counts.jumps,
    ];
    put_line(out, &numbers);
    put_rows::<3>(out, file, ARCS_AT, header.arcs);
    put_rows::<2>(out, file, ARCS_AT + ARC_SIZE * header.arcs, header.jumps);
}

/// Writes the text of a file's acceptor under these counts; the length used.
pub fn list(counts: Counts, file: &[u8], out: &mut [u8]) -> Result<usize, ListFault>
    ensures { Listed counts file.now out.old result out.new }
{
    let header = check_file(file)?;
    let mut no_room = [0; 0];
    let mut counted = Output::new(&mut no_room);
    put_text(&mut counted, counts, file, header);
    if out.len() < counted.place() {
        return Err(ListFault::OutputShort(counted.place()));
    }
    let mut output = Output::new(out);
    put_text(&mut output, counts, file, header);
    Ok(output.place())
}
