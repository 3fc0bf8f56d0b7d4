//! Tests of the characteristic machine on small grammars, and at the bounds of its tables.
#![tactic(auto)]

use book::Refusal;
use finding::moves::Move;
use machine::machine::characteristic;
use table::numbers::StateNo;
use table::sets::ItemSet;

/// How many states and moves the machine of a book has, and its final state, in tables of this many rows, at most sixteen each.
fn find(table: &[u16], rows: usize, move_rows: usize) -> Result<(usize, usize, StateNo), Refusal> {
    let mut states = [ItemSet::empty(); 16];
    let mut moves = [Move::default(); 16];
    let found = characteristic(
        table,
        &mut states[..rows.min(16)],
        &mut moves[..move_rows.min(16)],
    )?;
    Ok((found.states, found.moves, found.final_state))
}

/// Tables of state rows and move rows for the book of two sides, and the number, layer and place of what is refused there.
const SHORT: [(usize, usize, u8, u8, usize); 5] = [
    (8, 9, 10, 2, 8),
    (9, 8, 11, 2, 8),
    (0, 0, 10, 2, 0),
    (1, 0, 10, 2, 1),
    (2, 0, 11, 2, 0),
];

#[cfg(test)]
mod tests {
    use super::*;
    use book::blank;
    use machine::items::{Items, NO_SYMBOL};
    use samples::{left_linear, nested, two_sides};
    use std::test::Fail;
    use table::numbers::ItemNo;

    #[test]
    fn small_grammars(rt: HostRuntime) -> Result<(), Fail> {
        let mut table = [0; 32];
        two_sides(&mut table)?;
        assert_eq!(rt; find(&table, 16, 16), Ok((9, 9, StateNo(3))));
        left_linear(&mut table)?;
        assert_eq!(rt; find(&table, 16, 16), Ok((5, 4, StateNo(1))));
        nested(&mut table)?;
        assert_eq!(rt; find(&table, 16, 16), Ok((5, 5, StateNo(2))));
        Ok(())
    }

    #[test]
    fn rows_at_the_bound(rt: HostRuntime) -> Result<(), Fail> {
        let mut table = [0; 32];
        two_sides(&mut table)?;
        assert_eq!(rt; find(&table, 9, 9), Ok((9, 9, StateNo(3))));
        for (rows, move_rows, number, layer, place) in SHORT {
            assert_eq!(rt;
                find(&table, rows, move_rows),
                Err(Refusal {
                    number,
                    layer,
                    place
                })
            );
        }
        Ok(())
    }

    /// Of one word, one name and no rule: what no chain of the name passes may be anything.
    #[test]
    fn items_of_any_arrays(rt: HostRuntime) {
        let mut after = [NO_SYMBOL; 4096];
        after[0] = 1;
        let mut head = [5000; 1024];
        head[0] = 0;
        let items = Items {
            words: 1,
            after,
            head,
            next: [NO_SYMBOL; 4096],
        };
        let set = items.initial_set();
        assert_eq!(rt; set.size(), 1);
        assert!(rt; set.has(ItemNo(0)));
    }

    /// A chain ends where it leaves the items, or does not fall.
    #[test]
    fn chains_end(rt: HostRuntime) {
        let mut next = [0; 4096];
        next[7] = 3;
        next[3] = 3;
        next[5] = 5000;
        let mut head = [5000; 1024];
        head[0] = 7;
        head[1] = 5;
        let items = Items {
            words: 1,
            after: [NO_SYMBOL; 4096],
            head,
            next,
        };
        let mut chain = items.rules_of(0);
        assert_eq!(rt; chain.next(), Some(ItemNo(7)));
        assert_eq!(rt; chain.next(), Some(ItemNo(3)));
        assert_eq!(rt; chain.next(), None);
        let mut chain = items.rules_of(1);
        assert_eq!(rt; chain.next(), Some(ItemNo(5)));
        assert_eq!(rt; chain.next(), None);
        assert_eq!(rt; items.rules_of(2).next(), None);
    }

    #[test]
    fn no_rule_and_no_book(rt: HostRuntime) -> Result<(), Fail> {
        let mut table = [0; 32];
        blank(&mut table, 1, 1, 1)?;
        assert_eq!(rt; find(&table, 2, 1), Ok((2, 1, StateNo(1))));
        assert_eq!(rt;
            find(&[], 2, 1),
            Err(Refusal {
                number: 1,
                layer: 1,
                place: 0
            })
        );
        Ok(())
    }
}
