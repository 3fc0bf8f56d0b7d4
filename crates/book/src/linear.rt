//! Whether a grammar is left-linear or right-linear: then the compiled filter is exact.
ghost use Rattle.std.specs.Prelude.{◌≡◌, ◌<◌, true, Decides};
ghost use Rattle.std.specs.List.{AllByRecursion};
ghost use Rattle.book.specs.Shapes.{LeftSide, RightSide, Shaped};

use super::fault::BookFault;
use super::reader::check;
use super::rules::Rules;

/// Whether all rules are left-linear, and whether all are right-linear.
#[derive(Clone, Copy, PartialEq, Eq, Debug)]
pub struct Linearity {
    pub left: bool,
    pub right: bool,
}

/// Whether all of these symbols are words.
fn all_words(symbols: &[u16], words: usize) -> bool
    ensures { Decides result (AllByRecursion (λ x. x < words) symbols.now) }
{
    symbols.iter().all(|x| usize::from(*x) < words)
}

/// Whether only the first symbol of a right side may be a name.
fn left_side(side: &[u16], words: usize) -> bool
    ensures { Decides result (LeftSide words side.now) }
{
    match side {
        [] => true,
        [_first, rest @ ..] => all_words(rest, words),
    }
}

/// Whether only the last symbol of a right side may be a name.
fn right_side(side: &[u16], words: usize) -> bool
    ensures { Decides result (RightSide words side.now) }
{
    match side {
        [] => true,
        [beginning @ .., _last] => all_words(beginning, words),
    }
}

impl Linearity {
    /// Both facts once one more right side is looked at.
    fn with(self, side: &[u16], words: usize) -> Linearity
        ensures left { Decides result.left ((self.left ≡ true) × LeftSide words side.now) }
        ensures right { Decides result.right ((self.right ≡ true) × RightSide words side.now) }
    {
        Linearity {
            left: self.left && left_side(side, words),
            right: self.right && right_side(side, words),
        }
    }
}

/// Whether all rules are left-linear, and whether all are right-linear.
pub fn shape(table: &[u16]) -> Result<Linearity, BookFault>
    ensures { Shaped table.now result }
{
    let book = check(table)?;
    let mut shape = Linearity {
        left: true,
        right: true,
    };
    for rule in Rules::of(table, book) {
        // A right side of one symbol at most leaves both facts as they are.
        if rule.right.len() < 2 {
            continue;
        }
        shape = shape.with(rule.right, book.words);
        if !shape.left && !shape.right {
            return Ok(shape);
        }
    }
    Ok(shape)
}
