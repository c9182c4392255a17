//! A step on its way. First it is entered into the index's book, for which its line has the right ready; so a step that waits stands
//! there, and no other one can come in its place. Then it is published, which may find no memory: the next attempt only publishes.
ghost use Rattle.std.specs.Prelude.{◌≡◌, ◌+◌, ◌<◌, ◌^◌, ◌∷◌, ◌++◌, [], Some, length, IfOk, IfSome};
ghost use Rattle.std.specs.Arc.{arc_value};
ghost use Rattle.step_book.specs.Tellings.{worker_of};
ghost use Rattle.step_history.specs.History.{snapshot_of};
ghost use Rattle.step_line.specs.Lines.{MayFollow};
ghost use Rattle.step_line.specs.steps.Queues.{longer};

use doc_types::Snapshot;
use image_chunk::AnyChunk;
use srch_base::NoMemory;
use std::alloc::Global;
use std::marker::Model;
use std::sync::Arc;
use step_book::{Book, Front, Made, Naming, Turn};

/// A step that is to be published, with the snapshot after it. Contracts see the front that it follows, and the step.
#[derive(Drop)]
pub struct Pending<J: Naming> {
    from: Front<J>,
    made: Made<AnyChunk>,
    snapshot: Arc<Snapshot<AnyChunk>, Global>,
}

impl<J: Naming> Model for Pending<J> {
    ghost use Rattle.std.specs.Prelude.{◌≡◌};
    ghost use Rattle.std.specs.Arc.{arc_value};
    ghost use Rattle.step_history.specs.History.{snapshot_of};
    ghost use Rattle.step_line.specs.Lines.{MayFollow, PendingValue};

    ghost Value = { PendingValue };

    ghost view = { λ p. record { from = p.from; step = p.made } };

    ghost invariant = { λ p. (arc_value p.snapshot ≡ snapshot_of p.made) × MayFollow (J.schema p.from.index) (J.base p.from.index) p.from.steps p.made };
}

impl<J: Naming> Pending<J> {
    /// A step that follows a front.
    pub fn new(
        from: &Front<J>,
        made: Made<AnyChunk>,
        snapshot: Arc<Snapshot<AnyChunk>, Global>,
    ) -> Pending<J>
        requires snapshot { arc_value snapshot ≡ snapshot_of made }
        requires follows { MayFollow (J.schema from.now.index) (J.base from.now.index) from.now.steps made }
        ensures { result ≡ record { from = from.now; step = made } }
    {
        Pending {
            from: from.again(),
            made,
            snapshot,
        }
    }

    /// The worker whose commit it is. None where it is the end of a job.
    pub(crate) fn worker(&self) -> Option<u32>
        ensures worker { result ≡ worker_of self.now.step }
        ensures may { MayFollow (J.schema self.now.from.index) (J.base self.now.from.index) self.now.from.steps self.now.step }
    {
        self.made.worker()
    }

    /// Enters the step into the book, by the right to do so.
    fn add(&self, book: &Book<J>, turn: Turn<J>) -> Front<J>
        requires book { book.now.index ≡ self.now.from.index }
        requires turn { turn ≡ self.now.from }
        ensures { result ≡ longer self.now.from self.now.step }
    {
        turn.add(book, &self.made)
    }

    /// The step once it stands in the book. It waits from then on.
    pub(crate) fn enter(self, book: &Book<J>, turn: Option<Turn<J>>) -> Waiting<J>
        requires book { book.now.index ≡ self.from.index }
        requires turn { turn ≡ Some self.from }
        ensures { result ≡ self }
    {
        match turn {
            None => unreachable!(),
            Some(turn) => {
                let entered = self.add(book, turn);
                Waiting {
                    pending: self,
                    entered,
                    next: None,
                }
            }
        }
    }

    /// The snapshot after the step.
    fn snapshot(&self) -> Result<Arc<Snapshot<AnyChunk>, Global>, NoMemory>
        ensures { IfOk result (λ snapshot. arc_value snapshot ≡ snapshot_of self.now.step) }
    {
        Ok(Arc::try_clone(&self.snapshot)?)
    }
}

/// A step that waits to be published. Contracts see the front that it follows, and the step.
#[derive(Drop)]
pub struct Waiting<J: Naming> {
    pending: Pending<J>,
    /// The front with the step.
    entered: Front<J>,
    /// The right to add the step behind it, once an attempt to publish has taken that.
    next: Option<Turn<J>>,
}

impl<J: Naming> Model for Waiting<J> {
    ghost use Rattle.std.specs.Prelude.{◌≡◌, IfSome};
    ghost use Rattle.step_line.specs.Lines.{PendingValue};
    ghost use Rattle.step_line.specs.steps.Queues.{longer};

    ghost Value = { PendingValue };

    ghost view = { λ w. w.pending };

    ghost invariant = { λ w. (w.entered ≡ longer w.pending.from w.pending.step) × IfSome w.next (λ turn. turn ≡ longer w.pending.from w.pending.step) };
}

impl<J: Naming> Waiting<J> {
    /// The front with the step.
    pub(crate) fn entered(&self) -> &Front<J>
        ensures { result.now ≡ longer self.now.from self.now.step }
    {
        &self.entered
    }

    /// The snapshot after the step.
    pub(crate) fn snapshot(&self) -> Result<Arc<Snapshot<AnyChunk>, Global>, NoMemory>
        ensures { IfOk result (λ snapshot. arc_value snapshot ≡ snapshot_of self.now.step) }
    {
        self.pending.snapshot()
    }

    /// The right to add the step behind it. There is none where the line has more steps, which can't be of one that is kept under its
    /// index's lock.
    pub(crate) fn turn(&mut self, book: &Book<J>) -> Option<Turn<J>>
        requires { book.now.index ≡ self.old.from.index }
        ensures some { IfSome result (λ turn. turn ≡ longer self.old.from self.old.step) }
        ensures same { self.new ≡ self.old }
    {
        let next = self.next.take();
        match next {
            Some(turn) => Some(turn),
            None => self.entered.turn(book),
        }
    }

    /// Keeps that right for the next attempt.
    pub(crate) fn keep(&mut self, turn: Turn<J>)
        requires { turn ≡ longer self.old.from self.old.step }
        ensures { self.new ≡ self.old }
    {
        self.next = Some(turn);
    }
}
