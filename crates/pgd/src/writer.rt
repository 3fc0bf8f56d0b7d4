//! Writing the file of a determinised acceptor.
ghost use Rattle.std.specs.Prelude.{◌≡◌, ◌^◌, ◌≤◌, [], ◌∷◌, map, length};
ghost use Rattle.table.specs.Sets.{members};
ghost use Rattle.fields.specs.Putting.{Puts};
ghost use Rattle.pgd.specs.Files.{final_byte};
ghost use Rattle.pgd.specs.Writing.{sets, is_final, determined, Written};

use super::format::{FINALS_AT, MARK};
use fields::fault::OutputShort;
use fields::format::{ARC_SIZE, VERSION};
use fields::output::Output;
use finding::moves::Move;
use table::numbers::{NodeNo, StateNo};
use table::sets::NodeSet;

/// What a determinised acceptor is written from: how many words there are, the set of nodes of each state, the final node
/// of the acceptor that was determinised, and the arcs.
#[derive(Clone, Copy)]
pub struct Parts<'a> {
    pub words: u16,
    pub rows: &'a [NodeSet],
    pub final_node: NodeNo,
    pub arcs: &'a [Move<StateNo>],
    pub ghost few: { (length rows.now ≤ 1024) × (length arcs.now ≤ 16384) },
}

/// The byte of a state: 1 where the final node is in its set.
fn final_byte(row: &NodeSet, final_node: NodeNo) -> u8
    ensures { result ≡ final_byte (is_final final_node (members row.now.words)) }
{
    u8::from(row.has(final_node))
}

/// Puts a byte for each state.
fn put_finals(out: &mut Output, rows: &[NodeSet], final_node: NodeNo)
    requires { (out.old.at ≤ 16) × (length rows.now ≤ 1024) }
    ensures { Puts out.old (map final_byte (map (is_final final_node) (sets rows.now))) out.new }
{
    for row in rows {
        out.byte(final_byte(row, final_node));
    }
}

// The layouts of the two kinds differ after the front; what both share stands in `fields`, but for the comparison of a length in each.

/// The numbers in front of the states.
fn header_of(parts: Parts) -> [u16; 4]
    ensures { result ≡ 1 ∷ (parts.entry.words ∷ (length parts.entry.rows.now ∷ (length parts.entry.arcs.now ∷ []))) }
{
    [
        VERSION,
        parts.words,
        parts.rows.len() as u16,
        parts.arcs.len() as u16,
    ]
}

/// Writes the file of a determinised acceptor; the length used.
pub fn write(parts: Parts, out: &mut [u8]) -> Result<usize, OutputShort>
    ensures { Written
        (determined parts.entry.words parts.entry.rows.now parts.entry.final_node parts.entry.arcs.now)
        out.old result out.new }
{
    let needed = FINALS_AT + parts.rows.len() + ARC_SIZE * parts.arcs.len();
    if out.len() < needed {
        return Err(OutputShort { needed });
    }
    let mut output = Output::new(out);
    output.text(&MARK);
    output.numbers(&header_of(parts));
    put_finals(&mut output, parts.rows, parts.final_node);
    output.arcs(parts.arcs, |_| true);
    Ok(output.place())
}
