//! The undivided promise of a session: what holds after any list of its calls, of the answers and of what is left.
//!
//! A session is a book table, two file buffers and a table of turns, all lent. `specs/` says what one call answers and leaves (`Step`), which states a list
//! of calls leads to (`Reached`), what calls and answers alone tell of the session (`tally`), and what is promised in those words (`Promise`). There is no
//! code to run here: the calls themselves ensure their steps, and the law below makes the promise of them.
#![tactic(auto)]

ghost use Rattle.std.specs.Prelude.{◌≡◌, Bool};
ghost use Rattle.promise.specs.Example.{ExampleTells};
ghost use Rattle.promise.specs.Promises.{Kept};

/// In every state that calls lead to, each answer was the one due, each end has its verdict, and all is left as the tally of the calls says.
pub fn promise_kept() -> u8
    ensures { Kept }
{
    0
}

/// What the example's session tells of the empty sentence, which its grammar derives. So the promise speaks of something, and no other answer would keep it.
pub fn example_tells() -> bool
    ensures tells { ExampleTells result }
    ensures only { (says : Bool) → ExampleTells says → says ≡ result }
{
    true
}
