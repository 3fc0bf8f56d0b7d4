//! An unfolded machine, as the flattening reads it.
ghost use Rattle.table.specs.Lists.{InOrder};
ghost use Rattle.finding.specs.Laws.{Rises};
ghost use Rattle.flattening.specs.Walks.{arrows};
ghost use Rattle.finding.specs.Rising.{rising_one};

use finding::moves::Move;
use machine::items::Items;
use table::numbers::NodeNo;

/// The items of a grammar, and the moves of its machine between the nodes, which rise.
// The machine that was unfolded is no ghost field: what a call finds is said of that machine, so the call's clause names it.
#[derive(Clone, Copy)]
pub struct Unfolded<'a> {
    pub items: &'a Items,
    pub moves: &'a [Move<NodeNo>],
    pub ghost rising: { InOrder Rises (arrows moves.now) } by { rising_one (arrows moves.now) },
}
