//! Path: the states on the way from state 0, loops cut out.
//!
//! A class is a link to the class behind it and the state that it adds. On reaching a state on the way, that state's link is the class.
ghost use Rattle.std.specs.Prelude.{◌≡◌, [], ◌∷◌};
ghost use Rattle.theory.specs.Policies.{path};
ghost use Rattle.policy.specs.Classes.{free_place};
ghost use Rattle.policy.specs.Entries.{entries};
ghost use Rattle.policy.specs.LinkTaking.{classes_distinct};
ghost use Rattle.policy.specs.Taking;
ghost use Rattle.policy.specs.Paths.{path_classes, Chained, NextClass};

use crate::places::Places;
use crate::stacks::{Policy, Push};
use table::numbers::{ClassNo, StateNo};

/// The states of the class behind, and one more.
#[derive(Clone, Copy, PartialEq, Eq, Debug)]
pub struct Link {
    pub back: ClassNo,
    pub state: StateNo,
}

/// The link of state 0, behind which there is none.
// Its own number behind it, and no `Option`: the walk back ends where the number is 0.
const ROOT: Link = Link {
    back: ClassNo(0),
    state: StateNo(0),
};

/// The class after a push: one that is held, by its number, or a new one, by its link.
#[derive(Clone, Copy, PartialEq, Eq, Debug)]
enum After {
    Held(ClassNo),
    New(Link),
}

/// The policy that keeps the states on the way from state 0, loops cut out.
#[derive(Drop)]
pub struct Path {
    links: Places<Link>,
}

impl Path {
    /// Holds the empty stack's class.
    pub fn new() -> Path
        ensures ready { Chained (entries result.links) }
        ensures held { path_classes (entries result.links) ≡ path.first ∷ [] }
    {
        Path {
            links: Places::new(ROOT),
        }
    }

    /// The class after `class`, as `reached` is reached: the one where the way back meets `reached`, or a new one; none where `class` is not held.
    // By its number where the way back meets it: the places are searched for a new link alone.
    fn class_after(&self, class: ClassNo, reached: StateNo) -> Option<After>
        requires { Chained (entries self.now.links) }
        ensures { NextClass (entries self.now.links) class.0 reached.0 result }
    {
        let mut at = class;
        // A loop from link to link: of a walk by the library's `successors` a chain does not know that it ends. Each link tells the next by number, since links
        // lie in fixed memory and a class is a number.
        loop {
            let link = self.links.get(at)?;
            if link.state == reached {
                return Some(After::Held(at));
            }
            if at.0 == 0 {
                return Some(After::New(Link {
                    back: class,
                    state: reached,
                }));
            }
            at = link.back;
        }
    }
}

impl Policy for Path {
    ghost Kind = { Unit {0} };

    ghost kind = { λ _. tt };

    ghost meaning = { λ _. path };

    ghost room = { λ _. free_place };

    ghost held = { λ s. path_classes (entries s.links) };

    ghost ready = { λ s. Chained (entries s.links) };

    ghost distinct = { λ s r. classes_distinct (entries s.links) r };

    ghost foretold = { λ s r. Taking.foretold _ _ (classes_distinct (entries s.links) r) };

    fn clear(&mut self) {
        self.links.clear(ROOT);
    }

    fn fits(&self, class: ClassNo, push: Push) -> Option<ClassNo> {
        match self.class_after(class, push.reached)? {
            After::Held(number) => Some(number),
            After::New(link) => self.links.look(link),
        }
    }

    fn next(&mut self, class: ClassNo, push: Push) -> Option<ClassNo> {
        match self.class_after(class, push.reached)? {
            After::Held(number) => Some(number),
            After::New(link) => self.links.place(link),
        }
    }
}
