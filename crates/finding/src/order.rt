//! The search in finding order.
ghost use Rattle.std.specs.Prelude.{◌≡◌, ℕ, ◌+◌, ◌<◌, ◌≤◌, min, List, [], ◌∷◌, length, take, IfOk, MatchResult};
ghost use Rattle.table.specs.Lists.{StandsAt};
ghost use Rattle.finding.specs.Finding.{within, stands, Turn, Turns, Stopped, TurnedTo};
ghost use Rattle.finding.specs.Spaces.{Moves, Held, Answered};

use crate::moves::{Count, Limits, Move, Stop};
use crate::space::Space;
use table::entries::Table;
use table::numbers::Number;

// Space, tables and count are passed one by one, and each function asks that the rows or their limit are few. Tried in part: methods of a struct with the three references would
// have to promise, beside all that stands here, that each reference is kept and each table keeps its length, which parameters show by themselves.

/// Takes the move of entry `i` on the symbol `x`.
fn take_move<S: Space, N: Number>(
    space: &mut S,
    rows: &mut [S::Entry],
    moves: &mut [Move<N>],
    found: Count,
    i: usize,
    x: u16,
) -> Result<Count, Stop>
    requires held { Held (S.Space.ready space.old) rows.old moves.old found }
    requires short { length rows.old ≤ 65536 }
    requires here { i < found.entries }
    requires moves { (a : S.Entry) → StandsAt (take found.entries rows.old) i a → Moves (S.Space.sought (S.Space.source space.old)) (S.Space.thing space.old a) x }
    ensures source { S.Space.source space.new ≡ S.Space.source space.old }
    ensures held { IfOk result (λ c. Held (S.Space.ready space.new) rows.new moves.new c) }
    ensures more { IfOk result (λ c. found.entries ≤ c.entries) }
    ensures turn { MatchResult result
        (λ c. Turn (within (S.Space.sought (S.Space.source space.old)) (length rows.old) (length moves.old))
        (stands (S.Space.thing space.old) N.Number.value rows.old found.entries moves.old found.moves i x)
        (stands (S.Space.thing space.new) N.Number.value rows.new c.entries moves.new c.moves i (x + 1)))
        (λ s. Stopped (within (S.Space.sought (S.Space.source space.old)) (length rows.old) (length moves.old))
        (stands (S.Space.thing space.old) N.Number.value rows.old found.entries moves.old found.moves i x) s) }
{
    let e = rows[i];
    let Some(t) = space.reach(e, x) else {
        return Err(Stop::Room(i));
    };
    let mut table = Table::new(rows, found.entries);
    let Some(to) = table.find_or_add(t) else {
        return Err(Stop::Entry(found.entries));
    };
    let entries = table.len();
    if found.moves == moves.len() {
        return Err(Stop::Arrow(i, found.moves));
    }
    moves[found.moves] = Move {
        from: N::from_index(i),
        symbol: x,
        to: N::from_index(to),
    };
    Ok(Count {
        entries,
        moves: found.moves + 1,
    })
}

/// Takes the moves of entry `i`, symbols upward.
fn visit<S: Space, N: Number>(
    space: &mut S,
    rows: &mut [S::Entry],
    moves: &mut [Move<N>],
    mut found: Count,
    i: usize,
) -> Result<Count, Stop>
    requires held { Held (S.Space.ready space.old) rows.old moves.old found }
    requires short { length rows.old ≤ 65536 }
    requires here { i < found.entries }
    ensures source { S.Space.source space.new ≡ S.Space.source space.old }
    ensures held { IfOk result (λ c. Held (S.Space.ready space.new) rows.new moves.new c) }
    ensures more { IfOk result (λ c. found.entries ≤ c.entries) }
    ensures turns { MatchResult result
        (λ c. Turns (within (S.Space.sought (S.Space.source space.old)) (length rows.old) (length moves.old))
        (stands (S.Space.thing space.old) N.Number.value rows.old found.entries moves.old found.moves i 0)
        (stands (S.Space.thing space.new) N.Number.value rows.new c.entries moves.new c.moves (i + 1) 0))
        (λ s. TurnedTo (within (S.Space.sought (S.Space.source space.old)) (length rows.old) (length moves.old))
        (stands (S.Space.thing space.old) N.Number.value rows.old found.entries moves.old found.moves i 0) s) }
{
    // A cursor: each move taken changes the space that is asked for the next, which no iterator can hold meanwhile.
    let mut x = 0;
    while let Some(y) = space.next_symbol(rows[i], x) {
        found = take_move(space, rows, moves, found, i, y)?;
        x = y + 1;
    }
    Ok(found)
}

/// Numbers what is found from `start` in tables that are as long as they may be.
fn number_all<S: Space, N: Number>(
    space: &mut S,
    start: S::Entry,
    rows: &mut [S::Entry],
    moves: &mut [Move<N>],
) -> Result<Count, Stop>
    requires ready { S.Space.ready space.old (start ∷ []) }
    requires short { length rows.old ≤ 65536 }
    ensures source { S.Space.source space.new ≡ S.Space.source space.old }
    ensures held { IfOk result (λ c. Held (S.Space.ready space.new) rows.new moves.new c) }
    ensures answer { Answered (within (S.Space.sought (S.Space.source space.old)) (length rows.old) (length moves.old))
        (S.Space.thing space.old start) (S.Space.thing space.new) N.Number.value rows.new moves.new result }
{
    if rows.len() == 0 {
        return Err(Stop::Entry(0));
    }
    rows[0] = start;
    let mut found = Count {
        entries: 1,
        moves: 0,
    };
    // An index: the loop's bound grows as it runs, which no iterator follows.
    let mut i = 0;
    while i < found.entries {
        found = visit(space, rows, moves, found, i)?;
        i += 1;
    }
    Ok(found)
}

/// Numbers what is found from `start`, taking entries by number and symbols upward, within the limits; a shorter table is the limit instead.
pub fn number<S: Space, N: Number>(
    space: &mut S,
    start: S::Entry,
    rows: &mut [S::Entry],
    moves: &mut [Move<N>],
    limits: Limits,
) -> Result<Count, Stop>
    requires ready { S.Space.ready space.old (start ∷ []) }
    requires short { limits.entries ≤ 65536 }
    ensures source { S.Space.source space.new ≡ S.Space.source space.old }
    ensures held { IfOk result (λ c. Held (S.Space.ready space.new) rows.new moves.new c) }
    ensures answer { Answered (within (S.Space.sought (S.Space.source space.old)) (min (length rows.old) limits.entries) (min (length moves.old) limits.moves))
        (S.Space.thing space.old start) (S.Space.thing space.new) N.Number.value rows.new moves.new result }
{
    let most = rows.len().min(limits.entries);
    let most_moves = moves.len().min(limits.moves);
    number_all(space, start, &mut rows[0..most], &mut moves[0..most_moves])
}
