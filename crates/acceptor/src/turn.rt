//! A turn: a sentence on its way through an acceptor of either kind, word by word.
//!
//! The turn decides by its own condition and the event together. A refused event leaves it as it was.
ghost use Rattle.acceptor.specs.Turns.{Tells, Accepted};

use crate::fault::TurnFault;
use crate::running::Acceptor;

/// Where a turn stands: a begun turn holds the position to which its words led.
// No `Option`: the turn is matched by a condition of its own and the event together, and another condition may join these two.
#[derive(Clone, Copy, PartialEq, Eq, Debug)]
pub enum Condition<P> {
    Unbegun,
    Open(P),
}

/// What happens to a turn.
#[derive(Clone, Copy, PartialEq, Eq, Debug)]
pub enum Event {
    /// the sentence begins, or begins anew
    Begin,
    /// this word follows
    Word(u16),
    /// the sentence is whole
    End,
}

/// What is told of an event that is not refused.
#[derive(Clone, Copy, PartialEq, Eq, Debug)]
pub enum Told {
    Begun,
    Taken,
    /// whether the acceptor has the sentence
    Judged(bool),
}

/// Tells a turn of an event.
pub fn tell<A: Acceptor>(
    acceptor: &A,
    turn: &mut Condition<A::Position>,
    event: Event,
) -> Result<Told, TurnFault>
    ensures { Tells A.Acceptor acceptor.now turn.old event result turn.new }
{
    match (*turn, event) {
        (_, Event::Begin) => {
            *turn = Condition::Open(acceptor.first());
            Ok(Told::Begun)
        }
        (Condition::Unbegun, Event::Word(_)) => Err(TurnFault::Unbegun),
        (Condition::Unbegun, Event::End) => Err(TurnFault::Unbegun),
        (Condition::Open(at), Event::Word(word)) => {
            if word >= acceptor.words() {
                return Err(TurnFault::UnknownWord(word));
            }
            *turn = Condition::Open(acceptor.step(at, word));
            Ok(Told::Taken)
        }
        (Condition::Open(at), Event::End) => {
            let verdict = acceptor.end(at);
            *turn = Condition::Open(acceptor.first());
            Ok(Told::Judged(verdict))
        }
    }
}

/// Whether the acceptor has the sentence: begin, each word and end, told to one turn.
pub fn accepts<A: Acceptor>(acceptor: &A, sentence: &[u16]) -> Result<bool, TurnFault>
    ensures { Accepted A.Acceptor acceptor.now sentence.now result }
{
    let mut turn = Condition::Unbegun;
    tell(acceptor, &mut turn, Event::Begin)?;
    // A loop: the words are told to one turn, and of a closure that changes it nothing is known after the call.
    for word in sentence {
        tell(acceptor, &mut turn, Event::Word(*word))?;
    }
    let Told::Judged(verdict) = tell(acceptor, &mut turn, Event::End)? else {
        unreachable!()
    };
    Ok(verdict)
}
