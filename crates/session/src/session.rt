//! The session and its calls.
ghost use Rattle.std.specs.Prelude.{◌≡◌, length, IfOk};
ghost use Rattle.promise.specs.Calls.{add_answer, compile_answer};
ghost use Rattle.promise.specs.Calls.Call.{add as add_call, compile as compile_call, open_file, determinise as determinise_call, begin as begin_call, word as word_call, end as end_call};
ghost use Rattle.session.specs.View.{kind_of, view, unstarted, Started, with_opening, TakenFor};
ghost use Rattle.session.specs.Opening.{CheckedFile, open_answer, determinised_answer};
ghost use Rattle.session.specs.Answering.{Answered};
ghost use Rattle.session.specs.Hearing.{OfEvent, Heard, call_of, event_answer, done_answer, end_answer};

use crate::buffer::Buffer;
use crate::fault::SessionFault;
use crate::record::{Kind, Standing, Turn};
use crate::turns::Turns;
use acceptor::fault::TurnFault;
use acceptor::flat::Flat;
use acceptor::subset::Subset;
use acceptor::turn::{Event, Told, tell};
use book::{BookFault, add as add_rule, blank as blank_table};
use compiler::compile::{Workspace, compile_book};
use compiler::fault::CompileFault;
use determinising::determinise::determinise as determinise_file;
use determinising::fault::SubsetCounts;
use fields::fault::AcceptorFault;
use fields::format::ARC_SIZE;
use finding::moves::Move;
use pga::check::check_file as check_pga;
use pga::format::{ARCS_AT, JUMP_SIZE};
use pga::listing::Counts;
use pgd::check::check_file as check_pgd;
use pgd::format::FINALS_AT;
use policy::stacks::Policy;
use std::mem;
use table::numbers::StateNo;
use table::sets::NodeSet;

/// A book table, the buffers of the two files, and the table of turns, all lent: how much of each is in use, and which files are open.
#[derive(Drop)]
pub struct Session<'book, 'pga, 'pgd, 'turns> {
    book: &'book mut [u16],
    pga: Buffer<'pga>,
    pgd: Buffer<'pgd>,
    turns: Turns<'turns>,
}

impl<'book, 'pga, 'pgd, 'turns> Session<'book, 'pga, 'pgd, 'turns> {
    /// A session over these tables; it begins with `blank`.
    pub fn over(
        book: &'book mut [u16],
        pga: &'pga mut [u8],
        pgd: &'pgd mut [u8],
        turns: &'turns mut [Turn],
    ) -> Session<'book, 'pga, 'pgd, 'turns>
        ensures { view result ≡ unstarted book.old pga.old pgd.old (length turns.old) }
    {
        Session {
            book,
            pga: Buffer::over(pga),
            pgd: Buffer::over(pgd),
            turns: Turns::over(turns),
        }
    }

    /// Starts anew with a book without a rule, no file and no turn; the length used of the book's table.
    pub fn blank(&mut self, words: u16, names: u16, start: u16) -> Result<usize, BookFault>
        ensures { Started words names start (view self.old) result (view self.new) }
    {
        let used = blank_table(self.book, words, names, start)?;
        self.pga.clear();
        self.pgd.clear();
        self.turns.clear();
        Ok(used)
    }

    /// Appends a rule to the book; the length used of its table.
    pub fn add(&mut self, left: u16, right: &[u16]) -> Result<usize, BookFault>
        ensures { Answered (view self.old) (add_call left right.now) (add_answer result) (view self.new) }
    {
        add_rule(self.book, left, right)
    }

    // An arm for each kind, which are kinds of data and no steps: the two buffers are lent for lifetimes of their own, and each kind has its own check.

    /// The file of a kind is now open, or no longer.
    fn set_open(&mut self, kind: Kind, is_open: bool)
        ensures { view self.new ≡ with_opening (kind_of kind) is_open (view self.old) }
    {
        match kind {
            Kind::Pga => self.pga.open = is_open,
            Kind::Pgd => self.pgd.open = is_open,
        }
    }

    /// Takes the file of a kind for writing: its turns go out of use, and its opening ends.
    fn take(&mut self, kind: Kind)
        ensures { TakenFor (kind_of kind) (view self.old) (view self.new) }
    {
        self.turns.retire(kind);
        self.set_open(kind, false);
    }

    /// Compiles the book under the policy into the PGA; how large its parts are.
    pub fn compile<P: Policy>(
        &mut self,
        policy: &mut P,
        work: Workspace,
    ) -> Result<Counts, CompileFault>
        ensures { Answered (view self.old)
            (compile_call (P.Policy.meaning (P.Policy.kind policy.old)) (P.Policy.room (P.Policy.kind policy.old))
            (record {
              states = length work.entry.states.now;
              moves = length work.entry.moves.now;
              nodes = length work.entry.nodes.now;
              unfolded = length work.entry.unfolded.now;
              jumps = length work.entry.jumps.now;
            }))
            (compile_answer result) (view self.new) }
    {
        self.take(Kind::Pga);
        // Taken out for the call: no rule of proof covers a `&` into one field behind the session while another field is written.
        let book = mem::replace(&mut self.book, &mut []);
        let answer = compile_book(book, policy, work, self.pga.bytes);
        self.book = book;
        let counts = answer?;
        self.pga.used = ARCS_AT + ARC_SIZE * counts.arcs + JUMP_SIZE * counts.jumps;
        Ok(counts)
    }

    /// Whether the file of a kind is one.
    fn check(&self, kind: Kind) -> Result<(), AcceptorFault>
        ensures { CheckedFile (kind_of kind) (view self.now) result }
    {
        match kind {
            Kind::Pga => {
                check_pga(self.pga.file())?;
            }
            Kind::Pgd => {
                check_pgd(self.pgd.file())?;
            }
        }
        Ok(())
    }

    /// Checks the file of a kind and opens it, with one more turn on it, unbegun; the turn's number.
    pub fn open(&mut self, kind: Kind) -> Result<usize, SessionFault>
        ensures { Answered (view self.old) (open_file (kind_of kind)) (open_answer result) (view self.new) }
    {
        self.check(kind)?;
        let Some(number) = self.turns.add(Turn::unbegun(kind)) else {
            return Err(SessionFault::TurnsFull);
        };
        self.set_open(kind, true);
        Ok(number)
    }

    /// Determinises the open PGA into the PGD; how many states and arcs it has.
    pub fn determinise(
        &mut self,
        rows: &mut [NodeSet],
        arcs: &mut [Move<StateNo>],
    ) -> Result<SubsetCounts, SessionFault>
        ensures { Answered (view self.old)
            (determinise_call (record { rows = length rows.old; arcs = length arcs.old }))
            (determinised_answer result) (view self.new) }
    {
        if !self.pga.open {
            return Err(SessionFault::Unusable);
        }
        self.take(Kind::Pgd);
        // Taken out for the call, as in `compile`.
        let out = mem::replace(&mut self.pgd.bytes, &mut []);
        let answer = determinise_file(self.pga.file(), rows, arcs, out);
        self.pgd.bytes = out;
        let counts = answer?;
        self.pgd.used = FINALS_AT + counts.states + ARC_SIZE * counts.arcs;
        Ok(counts)
    }

    /// What is told of an event to a turn that stands here, and where the turn stands then.
    // An arm for each kind: file and position have types of their own, so only `tell` can be shared.
    fn hear(&self, at: Standing, event: Event) -> Result<(Told, Standing), TurnFault>
        ensures { Heard (view self.now) at event result }
    {
        match at {
            Standing::Flat(condition) => {
                let mut turn = condition;
                let flat = Flat::read(self.pga.file());
                let told = tell(&flat, &mut turn, event)?;
                Ok((told, Standing::Flat(turn)))
            }
            Standing::Subset(condition) => {
                let mut turn = condition;
                let subset = Subset::read(self.pgd.file());
                let told = tell(&subset, &mut turn, event)?;
                Ok((told, Standing::Subset(turn)))
            }
        }
    }

    /// Tells the turn of a number of an event.
    fn tell_turn(&mut self, number: usize, event: Event) -> Result<Told, SessionFault>
        ensures answered { Answered (view self.old) (call_of number event) (event_answer result) (view self.new) }
        ensures told { IfOk result (λ t. OfEvent event t) }
    {
        let Some(at) = self.turns.find(number) else {
            return Err(SessionFault::Unusable);
        };
        let (told, after) = self.hear(at, event)?;
        self.turns.stand(number, after);
        Ok(told)
    }

    /// Begins a turn, or begins it anew: it stands at the first position, with no words.
    pub fn begin(&mut self, turn: usize) -> Result<(), SessionFault>
        ensures { Answered (view self.old) (begin_call turn) (done_answer result) (view self.new) }
    {
        self.tell_turn(turn, Event::Begin)?;
        Ok(())
    }

    /// One word more to a turn that has begun.
    pub fn word(&mut self, turn: usize, word: u16) -> Result<(), SessionFault>
        ensures { Answered (view self.old) (word_call turn word) (done_answer result) (view self.new) }
    {
        self.tell_turn(turn, Event::Word(word))?;
        Ok(())
    }

    /// Whether the words of a turn are a sentence of its file; the turn is then back at the first position, with no words.
    pub fn end(&mut self, turn: usize) -> Result<bool, SessionFault>
        ensures { Answered (view self.old) (end_call turn) (end_answer result) (view self.new) }
    {
        let Told::Judged(verdict) = self.tell_turn(turn, Event::End)? else {
            unreachable!()
        };
        Ok(verdict)
    }
}
