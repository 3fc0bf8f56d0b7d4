//! The check that every reader of a determinised acceptor's file makes.
ghost use Rattle.pgd.specs.Checks.{HeaderJudged, Checked, OnlyChecked};

use super::format::{FINALS_AT, MARK, MOST_STATES};
use fields::check::{check_flags, check_front, check_rows, in_range};
use fields::fault::AcceptorFault;
use fields::format::MOST_ROWS;

/// The numbers in front of the states: words, states and arcs.
#[derive(Clone, Copy, PartialEq, Eq, Debug)]
pub struct Header {
    pub words: usize,
    pub states: usize,
    pub arcs: usize,
}

// The layouts of the two kinds differ after the front; what both share stands in `fields`, but for the comparison of a length in each.

/// The header, each of its fields in its range.
fn check_header(file: &[u8]) -> Result<Header, AcceptorFault>
    ensures { HeaderJudged file.now result }
{
    let words = check_front(file, &MARK)?;
    let states = in_range(file, 7, 1..MOST_STATES + 1)?;
    let arcs = in_range(file, 9, 0..MOST_ROWS + 1)?;
    Ok(Header {
        words,
        states,
        arcs,
    })
}

/// Whether the bytes are the file of a determinised acceptor: the numbers of its header, or the first fault. Header, states,
/// arcs and length are judged in byte order.
pub fn check_file(file: &[u8]) -> Result<Header, AcceptorFault>
    ensures checked { Checked file.now result }
    ensures only { OnlyChecked file.now result }
{
    let header = check_header(file)?;
    let Header {
        words,
        states,
        arcs,
    } = header;
    let arcs_at = check_flags(file, FINALS_AT, states)?;
    let end = check_rows(file, arcs_at, &[states, words, states], arcs)?;
    if file.len() > end {
        return Err(AcceptorFault { place: end });
    }
    Ok(header)
}
