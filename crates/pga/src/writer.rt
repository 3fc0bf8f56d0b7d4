//! Writing the file of an acceptor.
ghost use Rattle.std.specs.Prelude.{◌≡◌, ◌+◌, ◌*◌, ◌^◌, ◌<◌, ◌≤◌, [], ◌∷◌, length};
ghost use Rattle.std.specs.List.{flat_map};
ghost use Rattle.book.specs.Files.{bytes_of};
ghost use Rattle.fields.specs.Putting.{Puts};
ghost use Rattle.pga.specs.Files.{jump_numbers};
ghost use Rattle.pga.specs.Writing.{pairs, acceptor, Written};

use super::format::{ARCS_AT, JUMP_SIZE, MARK};
use fields::fault::OutputShort;
use fields::format::{ARC_SIZE, VERSION};
use fields::output::Output;
use finding::moves::Move;
use flattening::flat::count_arcs;
use flattening::jump::Jump;
use table::numbers::NodeNo;

/// What an acceptor is written from: how many words and nodes there are, the final node, the unfolded moves, of which
/// those on words are the arcs, and the jumps.
#[derive(Clone, Copy)]
pub struct Parts<'a> {
    pub words: u16,
    pub nodes: u16,
    pub final_node: NodeNo,
    pub moves: &'a [Move<NodeNo>],
    pub jumps: &'a [Jump],
    pub ghost few: { (length moves.now ≤ 16384) × (length jumps.now ≤ 16384) },
}

/// Puts the jumps.
fn put_jumps(out: &mut Output, jumps: &[Jump])
    requires { (out.old.at ≤ 2 ^ 32) × (length jumps.now ≤ 16384) }
    ensures { Puts out.old (flat_map bytes_of (flat_map jump_numbers (pairs jumps.now))) out.new }
{
    for j in jumps {
        out.numbers(&[j.from.0, j.to.0]);
    }
}

// The layouts of the two kinds differ after the front; what both share stands in `fields`, but for the comparison of a length in each.

/// The numbers in front of the arcs.
fn header_of(parts: Parts, arcs: usize) -> [u16; 6]
    requires { arcs ≤ 16384 }
    ensures { result
        ≡ 1 ∷ (parts.entry.words ∷ (parts.entry.nodes ∷ (parts.entry.final_node.0 ∷ (arcs ∷ (length parts.entry.jumps.now ∷ []))))) }
{
    [
        VERSION,
        parts.words,
        parts.nodes,
        parts.final_node.0,
        arcs as u16,
        parts.jumps.len() as u16,
    ]
}

/// Writes the file of an acceptor; the length used.
pub fn write(parts: Parts, out: &mut [u8]) -> Result<usize, OutputShort>
    ensures { Written
        (acceptor parts.entry.words parts.entry.nodes parts.entry.final_node parts.entry.moves.now parts.entry.jumps.now)
        out.old result out.new }
{
    let arcs = count_arcs(parts.moves, parts.words as usize);
    let needed = ARCS_AT + ARC_SIZE * arcs + JUMP_SIZE * parts.jumps.len();
    if out.len() < needed {
        return Err(OutputShort { needed });
    }
    let mut output = Output::new(out);
    output.text(&MARK);
    output.numbers(&header_of(parts, arcs));
    output.arcs(parts.moves, |m| m.symbol < parts.words);
    put_jumps(&mut output, parts.jumps);
    Ok(output.place())
}
