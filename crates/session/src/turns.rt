//! The lent table of turns.
ghost use Rattle.std.specs.Prelude.{◌≡◌, ◌<◌, [], map, length, slice_set};
ghost use Rattle.promise.specs.States.{retired as retired_of};
ghost use Rattle.session.specs.View.{kind_of, turn_of, turns_in};
ghost use Rattle.session.specs.Turns.{Added, Found, in_use};

use crate::record::{Kind, Standing, Turn, retire};

/// The first rows of a lent table, as many as are counted, are turns.
// A count beside the rows: the table is the caller's, and nothing is allocated.
#[derive(Drop)]
pub struct Turns<'a> {
    rows: &'a mut [Turn],
    count: usize,
}

impl<'a> Turns<'a> {
    /// The table without a turn.
    pub fn over(rows: &'a mut [Turn]) -> Turns<'a>
        ensures turns { turns_in result ≡ [] }
        ensures places { length result.rows.now ≡ length rows.old }
    {
        Turns { rows, count: 0 }
    }

    /// Lets all turns go.
    pub fn clear(&mut self)
        ensures turns { turns_in self.new ≡ [] }
        ensures places { length self.new.rows.now ≡ length self.old.rows.now }
    {
        self.count = 0;
    }

    /// One turn more; its number, if it has a place.
    pub fn add(&mut self, turn: Turn) -> Option<usize>
        ensures added { Added (turns_in self.old) (length self.old.rows.now) (turn_of turn) result (turns_in self.new) }
        ensures places { length self.new.rows.now ≡ length self.old.rows.now }
    {
        let number = self.count;
        if number >= self.rows.len() {
            return None;
        }
        self.rows[number] = turn;
        self.count = number + 1;
        Some(number)
    }

    /// Where the turn of a number stands, if it is there and in use.
    pub fn find(&self, number: usize) -> Option<Standing>
        ensures { Found (turns_in self.now) number result }
    {
        let turn = self.rows.get(number)?;
        if number < self.count && turn.is_live() {
            Some(turn.standing())
        } else {
            None
        }
    }

    /// The turn of a number, in use, now stands here.
    pub fn stand(&mut self, number: usize, at: Standing)
        requires { number < length (turns_in self.old) }
        ensures turns { turns_in self.new ≡ slice_set (turns_in self.old) number (in_use at) }
        ensures places { length self.new.rows.now ≡ length self.old.rows.now }
    {
        self.rows[number] = Turn::standing_at(at);
    }

    /// Puts the turns on the file of a kind out of use.
    pub fn retire(&mut self, kind: Kind)
        ensures turns { turns_in self.new ≡ map (retired_of (kind_of kind)) (turns_in self.old) }
        ensures places { length self.new.rows.now ≡ length self.old.rows.now }
    {
        retire(self.rows, kind);
    }
}
