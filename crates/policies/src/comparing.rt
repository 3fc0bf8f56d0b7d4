//! How policies compare: a finer one tells apart at least the stacks that a coarser one does.
ghost use Rattle.std.specs.Prelude.{◌≡◌, ◌+◌, List, [], ◌∷◌, length, IfSome, MatchOption};
ghost use Rattle.finding.specs.Numbered.{Arrow};
ghost use Rattle.theory.specs.Policies.{Finer, one_class, path, last, arrivals, listed};
ghost use Rattle.theory.specs.Policies.Class.{states};
ghost use Rattle.policies.specs.declared.last.Depth.TheVariants.{Four};
ghost use Rattle.policies.specs.Lasts.{depth_of};

use crate::last::Depth;
use policy::one_class::OneClass;
use policy::stacks::Policy;

/// One-class, than which every policy is finer.
pub fn coarsest<P: Policy>(_policy: &P) -> OneClass
    ensures { (moves : List Arrow) → Finer moves (P.Policy.meaning (P.Policy.kind _policy.now)) one_class }
{
    OneClass
}

/// The next depth, if there is one: more states kept are finer.
pub fn deeper(depth: Depth) -> Option<Depth>
    ensures next { MatchOption result (depth ≡ Four) (λ d. depth_of d ≡ depth_of depth + 1) }
    ensures finer { IfSome result (λ d. (moves : List Arrow) → Finer moves (last (depth_of d)) (last (depth_of depth))) }
{
    match depth {
        Depth::One => Some(Depth::Two),
        Depth::Two => Some(Depth::Three),
        Depth::Three => Some(Depth::Four),
        Depth::Four => None,
    }
}

/// How many states path keeps once the states 1, 2, 3, 1, 4 and 2 were reached: state 0 and the last three, since the first loop is cut out.
pub fn worked_path() -> u8
    ensures class { arrivals path path.first (1 ∷ (2 ∷ (3 ∷ (1 ∷ (4 ∷ (2 ∷ [])))))) ≡ states (0 ∷ (1 ∷ (4 ∷ (2 ∷ [])))) }
    ensures kept { result ≡ length (listed (arrivals path path.first (1 ∷ (2 ∷ (3 ∷ (1 ∷ (4 ∷ (2 ∷ [])))))))) }
{
    4
}
