//! The line of an index: what is published of it, and the step that waits. A commit or the end of a job is put here once the disk
//! has it, and stands in the index's book from then on: the right to enter it there is ready as long as nothing waits. Publishing it is
//! the one thing that may still find no memory, and is then tried again before anything else is done.
ghost use Rattle.std.specs.Prelude.{◌≡◌, ◌<◌, ◌≤◌, [], None, Some, OnErr, OnOk, IfOk};
ghost use Rattle.std.specs.Arc.{arc_value};
ghost use Rattle.step_history.specs.History.{last_snapshot};
ghost use Rattle.step_line.specs.Lines.{IsBy, IsLine, entered, kept_by, new_line, new_token, settled};

use crate::counting::count_step;
use crate::pending::{Pending, Waiting};
use crate::showing::{Next, WritingEnd, show_next};
use doc_types::Snapshot;
use image_chunk::AnyChunk;
use left_right::writer::Writer;
use srch_base::NoMemory;
use std::alloc::Global;
use std::marker::Model;
use std::sync::{Arc, Wait};
use step_book::{Book, Faults, Front, Naming, Share, Stops, Turn};
use step_tokens::{Note, Shown, Token};

/// The published history of an index with its last snapshot, and the step that waits. It isn't let go of: end it by `close`.
pub struct Line<J: Naming> {
    end: WritingEnd<J>,
    book: Book<J>,
    front: Front<J>,
    snapshot: Arc<Snapshot<AnyChunk>, Global>,
    waiting: Option<Waiting<J>>,
    /// The right to add the next step. It is there where nothing waits.
    turn: Option<Turn<J>>,
    /// How many commits each worker has made, the one that waits included, from worker 1 on.
    counts: Vec<u64>,
}

impl<J: Naming> Model for Line<J> {
    ghost use Rattle.std.specs.Prelude.{◌≡◌, length};
    ghost use Rattle.std.specs.Arc.{arc_value};
    ghost use Rattle.step_history.specs.History.{last_snapshot};
    ghost use Rattle.step_line.specs.Lines.{AreBy, LineValue, MayWait, step_in};
    ghost use Rattle.step_line.specs.steps.Queues.{AreCounts, IsReady, Waits};

    ghost Value = { LineValue };

    ghost view = { λ l. record { index = l.front.index; workers = length l.counts.items; history = l.front.steps; waiting = step_in l.waiting } };

    ghost invariant = { λ l. (l.end.desk.shown.value ≡ record { index = l.front.index; snapshot = last_snapshot (J.base l.front.index) l.front.steps; book = J.book l.front.index; steps = l.front.steps }) × (arc_value l.snapshot ≡ last_snapshot (J.base l.front.index) l.front.steps) × (l.book.index ≡ l.front.index) × Waits l.front l.waiting × AreCounts l.counts.items (record { index = l.front.index; workers = length l.counts.items; history = l.front.steps; waiting = step_in l.waiting }) × MayWait (J.schema l.front.index) (J.base l.front.index) (record { index = l.front.index; workers = length l.counts.items; history = l.front.steps; waiting = step_in l.waiting }) × AreBy (record { index = l.front.index; workers = length l.counts.items; history = l.front.steps; waiting = step_in l.waiting }) × IsReady l.front l.turn l.waiting };
}

impl<J: Naming> Line<J> {
    /// A line over the snapshot at opening, for so many workers.
    pub fn open(
        alloc: Global,
        book: Book<J>,
        front: Front<J>,
        snapshot: Arc<Snapshot<AnyChunk>, Global>,
        workers: u32,
    ) -> Result<Line<J>, NoMemory>
        requires workers { 0 < workers }
        requires empty { front ≡ record { index = book.index; steps = [] } }
        requires base { arc_value snapshot ≡ (J.base book.index).opening }
        ensures { IfOk result (λ line. line ≡ new_line book.index workers) }
    {
        let turn = front.turn(&book).ok_or(NoMemory)?;
        let counts = vec![in alloc; 0; workers as usize]?;
        let first = Shown::new(Arc::try_clone(&snapshot)?, &front);
        let second = first.again()?;
        let end = Writer::new(alloc, first, second, workers as usize)?;
        Ok(Line {
            end,
            book,
            front,
            snapshot,
            waiting: None,
            turn: Some(turn),
            counts,
        })
    }

    /// A token of a worker, which has seen what is published, over lines of faults and of stops that have no calls. There is room for as
    /// many tokens as there are workers.
    pub fn token(
        &self,
        worker: u32,
        faults: &Share<J, Faults>,
        stops: &Share<J, Stops>,
    ) -> Result<Token<J>, NoMemory>
        requires among { (0 < worker) × (worker ≤ self.now.workers) }
        requires faults { faults.now ≡ record { index = self.now.index; calls = [] } }
        requires stops { stops.now ≡ record { index = self.now.index; calls = [] } }
        ensures { IfOk result (λ token. token ≡ new_token self.now.index worker self.now.history) }
    {
        let end = self.end.factory().reader()?;
        let front = self.front.again();
        Ok(Token::new(end, worker, front, faults.again(), stops.again()))
    }

    /// The published history.
    pub fn front(&self) -> &Front<J>
        ensures { result.now ≡ record { index = self.now.index; steps = self.now.history } }
    {
        &self.front
    }

    /// A note of it.
    pub fn note(&self) -> Note<J>
        ensures note { result ≡ record { index = self.now.index; steps = self.now.history } }
        ensures line { IsLine (J.schema self.now.index) (J.base self.now.index) self.now }
    {
        let _steps = self.front.len();
        Note::of(&self.front)
    }

    /// The history with the step that waits, where one does.
    pub fn entered(&self) -> &Front<J>
        ensures { result.now ≡ record { index = self.now.index; steps = entered self.now } }
    {
        match &self.waiting {
            None => &self.front,
            Some(waiting) => waiting.entered(),
        }
    }

    /// Its last snapshot.
    pub fn snapshot(&self) -> &Arc<Snapshot<AnyChunk>, Global>
        ensures { arc_value result.now ≡ last_snapshot (J.base self.now.index) self.now.history }
    {
        &self.snapshot
    }

    /// How many workers there are, with the numbers from 1 on.
    pub fn workers(&self) -> usize
        ensures { result ≡ self.now.workers }
    {
        self.counts.len()
    }

    /// How many commits a worker has made, the one that waits included.
    pub fn count(&self, worker: u32) -> u64
        requires { (0 < worker) × (worker ≤ self.now.workers) }
        ensures { result ≡ kept_by worker self.now }
    {
        self.counts[worker as usize - 1]
    }

    /// A step waits from now on. A commit is counted as its worker's.
    pub fn put(&mut self, pending: Pending<J>)
        requires none { self.old.waiting ≡ None }
        requires from { pending.from ≡ record { index = self.old.index; steps = self.old.history } }
        requires by { IsBy self.old.workers pending.step }
        ensures { self.new ≡ record self.old { waiting = Some pending.step } }
    {
        let worker = pending.worker();
        count_step(&mut self.counts, worker);
        let turn = self.turn.take();
        let waiting = pending.enter(&self.book, turn);
        self.waiting = Some(waiting);
    }

    /// Publishes the step that waits, if one does. Otherwise all is as before.
    pub fn settle<R: Wait>(&mut self, rt: &R) -> Result<(), NoMemory>
        ensures ok { OnOk result (self.new ≡ settled self.old) }
        ensures err { OnErr result (self.new ≡ self.old) }
    {
        match &mut self.waiting {
            None => {}
            Some(waiting) => {
                let Next {
                    front,
                    snapshot,
                    turn,
                } = show_next(&mut self.end, rt, &self.book, waiting)?;
                self.front = front;
                self.snapshot = snapshot;
                self.turn = Some(turn);
                self.waiting = None;
            }
        }
        Ok(())
    }

    /// Ends the line. It waits for those who still read, and readers find nothing more.
    pub fn close<R: Wait>(self, rt: &R) {
        let Line {
            end,
            book: _book,
            front: _front,
            snapshot: _snapshot,
            waiting: _waiting,
            turn: _turn,
            counts: _counts,
        } = self;
        let _last = end.take(rt);
    }
}
