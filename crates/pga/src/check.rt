//! The check that every reader of an acceptor file makes.
ghost use Rattle.pga.specs.Checks.{HeaderJudged, Checked, OnlyChecked};

use super::format::{ARCS_AT, MARK, MOST_NODES};
use fields::check::{check_front, check_rows, in_range};
use fields::fault::AcceptorFault;
use fields::format::MOST_ROWS;

/// The numbers in front of the arcs: words, nodes, the final node, arcs and jumps.
#[derive(Clone, Copy, PartialEq, Eq, Debug)]
pub struct Header {
    pub words: usize,
    pub nodes: usize,
    pub final_node: usize,
    pub arcs: usize,
    pub jumps: usize,
}

// The layouts of the two kinds differ after the front; what both share stands in `fields`, but for the comparison of a length in each.

/// The header, each of its fields in its range.
fn check_header(file: &[u8]) -> Result<Header, AcceptorFault>
    ensures { HeaderJudged file.now result }
{
    let words = check_front(file, &MARK)?;
    let nodes = in_range(file, 7, 1..MOST_NODES + 1)?;
    let final_node = in_range(file, 9, 0..nodes)?;
    let arcs = in_range(file, 11, 0..MOST_ROWS + 1)?;
    let jumps = in_range(file, 13, 0..MOST_ROWS + 1)?;
    Ok(Header {
        words,
        nodes,
        final_node,
        arcs,
        jumps,
    })
}

/// Whether the bytes are the file of an acceptor: the numbers of its header, or the first fault. Header, arcs, jumps and
/// length are judged in byte order.
pub fn check_file(file: &[u8]) -> Result<Header, AcceptorFault>
    ensures checked { Checked file.now result }
    ensures only { OnlyChecked file.now result }
{
    let header = check_header(file)?;
    let Header {
        words,
        nodes,
        final_node: _,
        arcs,
        jumps,
    } = header;
    let jumps_at = check_rows(file, ARCS_AT, &[nodes, words, nodes], arcs)?;
    let end = check_rows(file, jumps_at, &[nodes, nodes], jumps)?;
    if file.len() > end {
        return Err(AcceptorFault { place: end });
    }
    Ok(header)
}
