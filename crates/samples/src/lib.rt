//! Small books that the tests and the tour build on, made call by call.
#![tactic(auto)]

ghost use Rattle.theory.specs.Rows.{mirror, nested as nested_grammar, left_linear as left_linear_grammar};
ghost use Rattle.samples.specs.Making.{Made};

use book::{BookFault, add, blank};

/// S → a S b | ε, with a = 0, b = 1 and S = 2.
pub fn nested(table: &mut [u16]) -> Result<usize, BookFault>
    ensures { Made table.old nested_grammar result table.new }
{
    blank(table, 2, 1, 2)?;
    add(table, 2, &[0, 2, 1])?;
    add(table, 2, &[])
}

/// S → a X a | b X b, X → c, with a = 0, b = 1, c = 2, S = 3 and X = 4.
pub fn two_sides(table: &mut [u16]) -> Result<usize, BookFault>
    ensures { Made table.old mirror result table.new }
{
    blank(table, 3, 2, 3)?;
    add(table, 3, &[0, 4, 0])?;
    add(table, 3, &[1, 4, 1])?;
    add(table, 4, &[2])
}

/// S → A b, A → A a | ε, with a = 0, b = 1, S = 2 and A = 3.
pub fn left_linear(table: &mut [u16]) -> Result<usize, BookFault>
    ensures { Made table.old left_linear_grammar result table.new }
{
    blank(table, 2, 2, 2)?;
    add(table, 2, &[3, 1])?;
    add(table, 3, &[3, 0])?;
    add(table, 3, &[])
}
