//! A store is opened, the steps of a script are made, and the disk comes back. What is found and what becomes of each step is told in
//! one text.
ghost use Rattle.std.specs.Prelude.{◌≡◌, [], All, IfSome};
ghost use Rattle.directory_vectors.specs.Ready.{IsOwn, IsReady, IsStepOf};
ghost use Rattle.directory_vectors.specs.Seats.{AreSeats};
ghost use Rattle.doc_types.specs.Schemas.{IsSchema};
ghost use Rattle.doc_types.specs.Transactions.{IsTxnOf};
ghost use Rattle.store_keep.specs.Opens.{IsOpened, base_of, opening_of};

use crate::documents::put_snapshot;
use crate::jobs::{begin, end, seated};
use crate::seats::Seats;
use crate::step::Step;
use chunk_store::{Disk, MemoryDisk};
use doc_types::{Schema, Snapshot, Txn};
use image_chunk::AnyChunk;
use std::alloc::Global;
use std::marker::Brand;
use std::sync::Wait;
use std::thread::Threads;
use step_book::Naming;
use step_tokens::{Token, snapshot};
use store_keep::{CommitFault, Committed, Doubt, Keeper, Opened};

/// What became of a commit. `+` is that it was made, `-` that an id which it inserts is there, `!` that the disk failed before it
/// could take effect, and `?` that it is in doubt, so that it takes effect later.
fn word_of<J: Naming>(answer: &Result<Committed<J>, CommitFault<J>>) -> &'static str {
    match answer {
        Ok(_) => " +",
        Err(CommitFault::Duplicate { .. }) => " -",
        Err(CommitFault::Refused) => " !",
        Err(CommitFault::InDoubt(Doubt::Disk)) => " ?",
        Err(_) => " no answer of these",
    }
}

/// Makes one commit, and answers what became of it.
fn commit<D: Disk, J: Naming, R: Wait>(
    rt: &R,
    keeper: &mut Keeper<D, J>,
    token: &mut Token<J>,
    txn: &Txn,
) -> &'static str
    requires ready { IsReady D.Disk J.schema J.base J.opened keeper.old }
    requires own { IsOwn token.old }
    requires of { IsTxnOf (J.schema 0) txn.now }
    ensures ready { IsReady D.Disk J.schema J.base J.opened keeper.new }
    ensures own { IsOwn token.new }
{
    let worker = token.worker();
    let answer = keeper.commit(rt, worker, token, txn);
    word_of(&answer)
}

/// Tells the documents that the token finds.
fn put_found<J: Naming>(alloc: Global, token: &mut Token<J>, into: &mut String) -> Option<()>
    ensures { (token.new.index ≡ token.old.index) × (token.new.worker ≡ token.old.worker) }
{
    let found = snapshot(token).ok()?;
    let found: &Snapshot<AnyChunk> = &found;
    put_snapshot(alloc, found, into)
}

/// Tells how many documents, records and chunks were found, and the documents.
fn put_opened<D: Disk, J: Naming>(
    alloc: Global,
    keeper: &Keeper<D, J>,
    token: &mut Token<J>,
    into: &mut String,
) -> Option<()>
    ensures { (token.new.index ≡ token.old.index) × (token.new.worker ≡ token.old.worker) }
{
    let (documents, chunks) = keeper.opened();
    let records = keeper.records();
    write!(into, "{documents} {records} {chunks}").ok()?;
    put_found(alloc, token, into)
}

/// Makes one step, and answers what became of it; that is nothing where a job begins.
fn make<D: Disk, J: Naming, R: Wait>(
    rt: &R,
    alloc: Global,
    keeper: &mut Keeper<D, J>,
    seats: &mut Seats<J>,
    step: &Step,
) -> Option<&'static str>
    requires ready { IsReady D.Disk J.schema J.base J.opened keeper.old }
    requires seats { AreSeats (J.schema 0) (J.base 0) seats.old }
    requires of { IsStepOf (J.schema 0) step.now }
    ensures ready { IsReady D.Disk J.schema J.base J.opened keeper.new }
    ensures seats { AreSeats (J.schema 0) (J.base 0) seats.new }
{
    match step {
        Step::Commit(txn) => Some(commit(rt, keeper, &mut seats.commits, txn)),
        Step::Job(job) => {
            begin(alloc, &mut seats.first, *job)?;
            Some(end(rt, keeper, &mut seats.first))
        }
        Step::Begin { second: false, job } => {
            begin(alloc, &mut seats.first, *job)?;
            Some("")
        }
        Step::Begin { second: true, job } => {
            begin(alloc, &mut seats.second, *job)?;
            Some("")
        }
        Step::End { second: false } => Some(end(rt, keeper, &mut seats.first)),
        Step::End { second: true } => Some(end(rt, keeper, &mut seats.second)),
    }
}

/// Tells what was found, makes the steps, and settles what waits then; where the disk fails, once more.
fn run_ready<D: Disk, J: Naming, R: Wait>(
    rt: &R,
    alloc: Global,
    keeper: &mut Keeper<D, J>,
    seats: &mut Seats<J>,
    steps: &[Step],
    into: &mut String,
) -> Option<()>
    requires ready { IsReady D.Disk J.schema J.base J.opened keeper.old }
    requires seats { AreSeats (J.schema 0) (J.base 0) seats.old }
    requires of { All (IsStepOf (J.schema 0)) steps.now }
{
    put_opened(alloc, keeper, &mut seats.commits, into)?;
    for step in steps {
        let became = make(rt, alloc, keeper, seats, step)?;
        into.push_str(became).ok()?;
    }
    if keeper.settle(rt).is_err() {
        into.push_str(" !").ok()?;
        keeper.settle(rt).ok()?;
    }
    Some(())
}

/// One of the workers' tokens.
fn take_one<J: Naming>(tokens: &mut Vec<Token<J>>) -> Option<Token<J>>
    requires { All IsOwn tokens.old.items }
    ensures own { IfSome result IsOwn }
    ensures left { All IsOwn tokens.new.items }
{
    tokens.pop()
}

/// Gives the tokens to those who make the steps.
fn seats_of<J: Naming>(tokens: Vec<Token<J>>) -> Option<Seats<J>>
    requires { All IsOwn tokens.items }
    ensures { IfSome result (AreSeats (J.schema 0) (J.base 0)) }
{
    let mut tokens = tokens;
    let commits = take_one(&mut tokens)?;
    let first = seated(take_one(&mut tokens)?);
    let second = seated(take_one(&mut tokens)?);
    Some(Seats {
        commits,
        first,
        second,
    })
}

/// Makes the steps over a store that was opened. Where there is no memory, less is told.
fn run_opened<D: Disk + Drop, J: Naming, R: Wait>(
    rt: &R,
    alloc: Global,
    opened: Opened<D>,
    schema: &Schema,
    steps: &[Step],
    into: &mut String,
) -> D
    requires named { J.schema 0 ≡ schema.now }
    requires book { opened.book.past.seen.book ≡ J.book 0 }
    requires faults { opened.faults.past.seen.book ≡ J.faults 0 }
    requires stops { opened.stops.past.seen.book ≡ J.stops 0 }
    requires base { J.base 0 ≡ base_of opened }
    requires counted { J.opened 0 ≡ opening_of D.Disk opened }
    requires schema { IsSchema (J.schema 0) }
    requires opened { IsOpened D.Disk (J.schema 0) opened }
    requires of { All (IsStepOf (J.schema 0)) steps.now }
{
    match Keeper::<D, J>::named(rt, alloc, opened, 0, 3) {
        Ok((mut keeper, tokens)) => {
            if let Some(mut seats) = seats_of(tokens) {
                let _ = run_ready(rt, alloc, &mut keeper, &mut seats, steps, into);
            }
            keeper.close(rt)
        }
        Err(disk) => disk,
    }
}

/// Opens the store on a disk, and makes the steps.
pub(crate) fn run<R: Threads + Wait>(
    rt: &R,
    alloc: Global,
    disk: MemoryDisk,
    schema: &Schema,
    steps: &[Step],
    into: &mut String,
) -> MemoryDisk
    requires fresh { disk.calls.items ≡ [] }
    requires schema { IsSchema schema.now }
    requires of { All (IsStepOf schema.now) steps.now }
{
    match Opened::open(rt, alloc, disk, schema) {
        Ok(opened) => run_opened::<MemoryDisk, Brand, R>(rt, alloc, opened, schema, steps, into),
        Err((disk, _)) => {
            let _ = into.push_str("not opened");
            disk
        }
    }
}
