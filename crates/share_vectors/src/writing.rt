//! Steps of an index without documents: commits of nothing, and jobs that find nothing. Commits raise the number of a snapshot,
//! jobs its shape, so that a snapshot of which a reader had one from before a step and the other from after it would show.
ghost use Rattle.std.specs.Prelude.{◌≡◌, ◌<◌, ◌≤◌, [], None, IfSome};
ghost use Rattle.step_line.specs.Lines.{IsBy, new_line, new_token};
ghost use Rattle.step_line.specs.Tallies.{new_tally};

use doc_types::{Snapshot, Txn};
use image_chunk::AnyChunk;
use srch_base::{Items, NoMemory};
use std::alloc::Global;
use std::sync::{Arc, Wait};
use step_book::{Faults, Made, Naming, NewBook, NewLine, Stops};
use step_history::Job;
use step_line::{Line, Pending, Tally};
use step_tokens::Token;

/// The most steps of a line here.
const MOST_STEPS: u64 = 1 << 32;

/// A snapshot without documents.
pub(crate) fn bare(alloc: Global, number: u64, shape: u64) -> Snapshot<AnyChunk>
    ensures { result ≡ record { number = number; shape = shape; layers = [] } }
{
    Snapshot {
        number,
        shape,
        layers: Items::new(Vec::new(alloc)),
    }
}

/// What the lines of a new index begin with, before they have its name.
#[derive(Drop)]
pub(crate) struct NewLines {
    pub(crate) steps: NewBook,
    pub(crate) faults: NewLine<u32>,
    pub(crate) stops: NewLine<u32>,
}

/// Lines that nobody has seen.
pub(crate) fn new_lines() -> NewLines {
    NewLines {
        steps: NewBook::new(),
        faults: NewLine::new(),
        stops: NewLine::new(),
    }
}

/// The line of a new index without documents, for three workers.
pub(crate) fn open_line<J: Naming>(alloc: Global, opened: NewBook) -> Option<Line<J>>
    requires book { opened.past.seen.book ≡ J.book 0 }
    requires base { (J.base 0).opening ≡ record { number = 0; shape = 0; layers = [] } }
    ensures { IfSome result (λ line. line ≡ new_line 0 3) }
{
    let (book, front) = opened.named::<J>(0);
    let Ok(opening) = Arc::new(alloc, bare(alloc, 0, 0)) else {
        return None;
    };
    match Line::open(alloc, book, front, opening, 3) {
        Ok(line) => Some(line),
        Err(NoMemory) => None,
    }
}

/// The lines of the calls that faults and contradictions ended, of the same index: there are none yet.
#[derive(Drop)]
pub(crate) struct Tallies<J: Naming> {
    pub(crate) faults: Tally<J, Faults>,
    pub(crate) stops: Tally<J, Stops>,
}

/// Opens them.
pub(crate) fn open_tallies<J: Naming>(
    alloc: Global,
    faults: NewLine<u32>,
    stops: NewLine<u32>,
) -> Option<Tallies<J>>
    requires faults { faults.past.seen.book ≡ J.faults 0 }
    requires stops { stops.past.seen.book ≡ J.stops 0 }
    ensures { IfSome result (λ tallies. (tallies.faults ≡ new_tally 0 3) × (tallies.stops ≡ new_tally 0 3)) }
{
    let faults = Tally::open(alloc, faults, 0, 3).ok()?;
    let stops = Tally::open(alloc, stops, 0, 3).ok()?;
    Some(Tallies { faults, stops })
}

/// A token of one of the three workers.
pub(crate) fn token<J: Naming>(
    line: &Line<J>,
    tallies: &Tallies<J>,
    worker: u32,
) -> Option<Token<J>>
    requires among { (0 < worker) × (worker ≤ 3) }
    requires line { line.now ≡ new_line 0 3 }
    requires faults { tallies.now.faults ≡ new_tally 0 3 }
    requires stops { tallies.now.stops ≡ new_tally 0 3 }
    ensures { IfSome result (λ token. token ≡ new_token 0 worker []) }
{
    line.token(worker, tallies.faults.share(), tallies.stops.share())
        .ok()
}

/// The next commit of a worker.
#[tactic(auto, using(crate::proofs::Bare::bare_commit))]
fn commit<J: Naming>(alloc: Global, line: &Line<J>, worker: u32) -> Option<Pending<J>>
    requires { line.now.waiting ≡ None }
    ensures from { IfSome result (λ pending. pending.from ≡ record { index = line.now.index; steps = line.now.history }) }
    ensures by { IfSome result (λ pending. IsBy line.now.workers pending.step) }
{
    let front = line.front();
    let now = line.snapshot();
    if front.len() >= MOST_STEPS || !now.layers.is_empty() {
        return None;
    }
    if worker == 0 || worker as usize > line.workers() {
        return None;
    }
    let number = now.number.checked_add(1)?;
    let seq = line.count(worker).checked_add(1)?;
    let nothing = Txn {
        ops: Items::new(Vec::new(alloc)),
    };
    let after = bare(alloc, number, now.shape);
    let made = Made::commit(worker, seq, number, &nothing, &after);
    match Arc::new(alloc, after) {
        Ok(shared) => Some(Pending::new(front, made, shared)),
        Err(_) => None,
    }
}

/// The end of a job that began after the last step.
fn end_of_job<J: Naming>(alloc: Global, line: &Line<J>, job: Job) -> Option<Pending<J>>
    ensures from { IfSome result (λ pending. pending.from ≡ record { index = line.now.index; steps = line.now.history }) }
    ensures by { IfSome result (λ pending. IsBy line.now.workers pending.step) }
{
    let front = line.front();
    let now = line.snapshot();
    if front.len() >= MOST_STEPS || !now.layers.is_empty() {
        return None;
    }
    let shape = now.shape.checked_add(1)?;
    let after = bare(alloc, now.number, shape);
    let made = Made::reshape(job, now.number, &after);
    match Arc::new(alloc, after) {
        Ok(shared) => Some(Pending::new(front, made, shared)),
        Err(_) => None,
    }
}

/// Puts the step of this number to wait, once nothing does: a commit and a job in turn, by two workers and of two kinds.
pub(crate) fn put<J: Naming, R: Wait>(
    rt: &R,
    alloc: Global,
    line: &mut Line<J>,
    step: u64,
) -> Option<()> {
    let Ok(()) = line.settle(rt) else {
        return None;
    };
    let (worker, job) = if step % 4 < 2 {
        (1, Job::Flush)
    } else {
        (2, Job::Optimize)
    };
    let pending = if step % 2 == 0 {
        commit(alloc, line, worker)?
    } else {
        end_of_job(alloc, line, job)?
    };
    line.put(pending);
    Some(())
}

/// Publishes so many steps.
pub(crate) fn write<J: Naming, R: Wait>(
    rt: &R,
    alloc: Global,
    line: &mut Line<J>,
    steps: u64,
) -> Option<()> {
    for step in 0..steps {
        put(rt, alloc, line, step)?;
    }
    line.settle(rt).ok()
}

/// The snapshot is the one after so many steps of these: a commit and a job in turn.
pub(crate) fn is_after(snapshot: &Snapshot<AnyChunk>, steps: u64) -> bool {
    snapshot.number == steps - steps / 2
        && snapshot.shape == steps / 2
        && snapshot.layers.is_empty()
}
