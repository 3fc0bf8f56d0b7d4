#![tactic(auto)]

// The mathematics of flattening: the objects that the compiler's contracts name, and the laws over those objects.
ghost use Rattle.std.specs.Prelude.{◌≡◌, length};
ghost use Rattle.theory.specs.Laws.{AllLaws, Foundations};
ghost use Rattle.theory.specs.Rows.{rows, AllRows, Witness};

// Every flattened acceptor of a sound grammar loses no sentence, is exact for linear grammars, passes no more under a finer policy, and is unique.
pub fn laws() -> u8
    ensures { AllLaws }
{
    0
}

// Items, closure, machine, unfolding, jumps, policies and sets of nodes are as the construction says.
pub fn foundations() -> u8
    ensures { Foundations }
{
    0
}

// How many worked examples there are; each has the counts and answers that it is stated with.
pub fn worked_rows() -> u8
    ensures count { result ≡ length rows }
    ensures each { AllRows }
{
    11
}

// Some acceptor passes a derived sentence and refuses another, so the laws are not empty.
pub fn witness() -> u8
    ensures { Witness }
{
    0
}
