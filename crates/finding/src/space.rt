//! What is searched: entries, and where each leads.
ghost use Rattle.std.specs.Prelude.{◌≡◌, ℕ, List};
ghost use Rattle.std.proofs.Math.Option.{some};
ghost use Rattle.table.specs.Lists.{Exact, StandsAt};
ghost use Rattle.finding.specs.Finding.{Search};
ghost use Rattle.finding.specs.Spaces.{Moves, LeastMove, Reached};

/// A space of entries, each of which stands for a thing.
pub trait Space {
    type Entry: Copy + PartialEq;

    /// what the search is over, and no call changes
    ghost Source: { Type 0 };

    /// what an entry stands for
    ghost Thing: { Type 0 };

    ghost source: { Self → Source };

    /// where the things lead, and which new thing has a place
    ghost sought: { Source → Search Thing };

    ghost thing: { Self → Self.Entry → Thing };

    /// the space as it stands when just these entries were found
    ghost ready: { Self → List Self.Entry → Type 0 };

    /// The least symbol that is `from` or more on which `e` moves.
    fn next_symbol(&self, e: Self::Entry, from: u16) -> Option<u16>
        requires { (es : List Self.Entry) × (k : ℕ) × ready self.now es × StandsAt es k e }
        ensures { LeastMove (sought (source self.now)) (thing self.now e) from result };

    /// The entry that `e` leads to on the symbol `x`, or none where the space has no place for it.
    fn reach(&mut self, e: Self::Entry, x: u16) -> Option<Self::Entry>
        requires held { (es : List Self.Entry) × (k : ℕ) × ready self.old es × StandsAt es k e }
        requires moves { Moves (sought (source self.old)) (thing self.old e) x }
        ensures source { source self.new ≡ source self.old }
        ensures answer { (es : List Self.Entry) (k : ℕ) (t : Thing) → ready self.old es → StandsAt es k e → (sought (source self.old)).step (thing self.old e) x ≡ some t → Reached (thing self.old) (thing self.new) (ready self.new) (sought (source self.old)).room es t result };

    /// where the space stands ready, the equality of entries is exact
    ghost exact: { (s : Self) (es : List Self.Entry) → ready s es → Exact (λ x' y' r'. r' ≡ Self.Entry.PartialEq.eq x' y') };
}
