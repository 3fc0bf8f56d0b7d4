//! Last-1 to last-4: the last one to four states left, fewer for a shorter stack.
ghost use Rattle.std.specs.Prelude.{◌≡◌, ℕ, [], ◌∷◌, take};
ghost use Rattle.table.specs.Lists.{Distinct};
ghost use Rattle.theory.specs.Policies.{last};
ghost use Rattle.policy.specs.Classes.{free_place};
ghost use Rattle.policy.specs.Entries.{entries};
ghost use Rattle.policy.proofs.Mapped.{map_distinct};
ghost use Rattle.policy.specs.Taking;
ghost use Rattle.policies.specs.Lasts.{depth_of, lefts, last_classes, last_class};
ghost use Rattle.policies.specs.Recent.{one_entry};

use policy::places::Places;
use policy::stacks::{Policy, Push};
use table::numbers::{ClassNo, StateNo};

/// How many states left are kept.
#[derive(Clone, Copy, PartialEq, Eq, Debug)]
pub enum Depth {
    One,
    Two,
    Three,
    Four,
}

/// The last states left, the newest first.
// A variant for each length: in an array with a count, what stands past the count would tell equal lists apart, and an array of options would have lists with gaps.
#[derive(Clone, Copy, PartialEq, Eq, Debug)]
pub enum Lefts {
    Zero,
    One(StateNo),
    Two(StateNo, StateNo),
    Three(StateNo, StateNo, StateNo),
    Four(StateNo, StateNo, StateNo, StateNo),
}

impl Lefts {
    /// The last states left once `s` is left too.
    fn after(self, s: StateNo, depth: Depth) -> Lefts
        ensures { lefts result ≡ take (depth_of depth) (s.0 ∷ lefts self) }
    {
        // A local: a match with alternatives on the pair as it is written gets no proof.
        let kept = (depth, self);
        match kept {
            (Depth::One, _) | (_, Lefts::Zero) => Lefts::One(s),
            (Depth::Two, Lefts::Two(a, _) | Lefts::Three(a, _, _) | Lefts::Four(a, _, _, _))
            | (_, Lefts::One(a)) => Lefts::Two(s, a),
            (Depth::Three, Lefts::Three(a, b, _) | Lefts::Four(a, b, _, _))
            | (_, Lefts::Two(a, b)) => Lefts::Three(s, a, b),
            (_, Lefts::Three(a, b, c) | Lefts::Four(a, b, c, _)) => Lefts::Four(s, a, b, c),
        }
    }
}

/// The policy that keeps the last states left.
#[derive(Drop)]
pub struct Last {
    depth: Depth,
    entries: Places<Lefts>,
}

impl Last {
    /// Holds the empty stack's class.
    pub fn new(depth: Depth) -> Last
        ensures depth { result.depth ≡ depth }
        ensures ready { Distinct (entries result.entries) }
        ensures held { last_classes (entries result.entries) ≡ (last (depth_of depth)).first ∷ [] }
    {
        Last {
            depth,
            entries: Places::new(Lefts::Zero),
        }
    }
}

impl Policy for Last {
    ghost Kind = { ℕ };

    ghost kind = { λ s. depth_of s.depth };

    ghost meaning = { last };

    ghost room = { λ _. free_place };

    ghost held = { λ s. last_classes (entries s.entries) };

    ghost ready = { λ s. Distinct (entries s.entries) };

    ghost distinct = { λ s r. map_distinct last_class one_entry (entries s.entries) r };

    ghost foretold = { λ s r. Taking.foretold _ _ (map_distinct last_class one_entry (entries s.entries) r) };

    fn clear(&mut self) {
        self.entries.clear(Lefts::Zero);
    }

    fn fits(&self, class: ClassNo, push: Push) -> Option<ClassNo> {
        let entry = self.entries.get(class)?;
        self.entries.look(entry.after(push.left, self.depth))
    }

    fn next(&mut self, class: ClassNo, push: Push) -> Option<ClassNo> {
        let entry = self.entries.get(class)?;
        self.entries.place(entry.after(push.left, self.depth))
    }
}
