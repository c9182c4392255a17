//! Jobs of one worker of an engine while another one commits: ten documents go to the disk, and between the reading and the end of a job
//! that puts all into one chunk one of them is replaced and one removed. A second job that began over the same documents is overtaken.
ghost use Rattle.std.specs.Prelude.{◌≡◌, IfOk, IfSome};
ghost use Rattle.doc_types.specs.Documents.{IsDocOf};
ghost use Rattle.doc_types.specs.Transactions.{IsOpOf, IsTxnOf};
ghost use mathlib.Core.List.{IsPrefix};
ghost use Rattle.share_vectors.specs.Users.{IsJobOf, IsUser, plain};
ghost use Rattle.snap_share.specs.Opens.{IsOpened, base_of, opening_of};

use crate::commits::{end as ended, schema};
use chunk_store::{Disk, MemoryDisk};
use doc_types::{Doc, Txn, TxnOp};
use snap_share::{
    Committed, Engine, InstallFault, Naming, NewChunk, Note, Opened, Token, snapshot,
};
use srch_base::{Items, NoMemory};
use std::alloc::Global;
use std::marker::Brand;
use std::sync::Wait;
use step_history::Job;

/// A document that has only an id.
fn doc(alloc: Global, id: u64) -> Doc
    ensures { IsDocOf plain result }
{
    Doc {
        id,
        fields: Items::new(Vec::new(alloc)),
        values: Items::new(Vec::new(alloc)),
    }
}

/// A transaction that inserts the documents 1 to 10.
fn insert_ten(alloc: Global) -> Result<Txn, NoMemory>
    ensures { IfOk result (λ txn. IsTxnOf plain txn) }
{
    let mut ops = Vec::new(alloc);
    for id in 1..11 {
        ops.push(TxnOp::Insert(doc(alloc, id)))?;
    }
    Ok(Txn {
        ops: Items::new(ops),
    })
}

/// A transaction of one operation.
fn only(alloc: Global, op: TxnOp) -> Result<Txn, NoMemory>
    requires { IsOpOf plain op }
    ensures { IfOk result (λ txn. IsTxnOf plain txn) }
{
    let mut ops = Vec::new(alloc);
    ops.push(op)?;
    Ok(Txn {
        ops: Items::new(ops),
    })
}

/// Commits a transaction.
fn commit<D: Disk, J: Naming, R: Wait>(
    rt: &R,
    engine: &Engine<D, J>,
    token: &mut Token<J>,
    txn: Result<Txn, NoMemory>,
) -> Option<Committed<J>>
    requires user { IsUser J.schema engine.now token.old }
    requires txn { IfOk txn (λ txn. IsTxnOf plain txn) }
    ensures { IsUser J.schema engine.now token.new }
{
    let txn = txn.ok()?;
    engine.commit(rt, token.worker(), token, &txn).ok()
}

/// Begins a job: the chunk that it makes of what a worker reads.
fn begin<D: Disk, J: Naming>(
    alloc: Global,
    engine: &Engine<D, J>,
    token: &mut Token<J>,
    job: Job,
) -> Option<NewChunk>
    requires { IsUser J.schema engine.now token.old }
    ensures user { IsUser J.schema engine.now token.new }
    ensures job { IfSome result (IsJobOf (J.base engine.now.index) token.new) }
    ensures seen { IsPrefix token.old.seen token.new.seen }
{
    match snapshot(token) {
        Ok(from) => match NewChunk::build(alloc, &from, job) {
            Ok(new) => Some(new),
            Err(_) => None,
        },
        Err(NoMemory) => None,
    }
}

/// Ends a job with its chunk.
fn end<D: Disk, J: Naming, R: Wait>(
    rt: &R,
    engine: &Engine<D, J>,
    token: &mut Token<J>,
    new: NewChunk,
) -> Result<Note<J>, InstallFault<J>>
    requires user { IsUser J.schema engine.now token.old }
    requires job { IsJobOf (J.base engine.now.index) token.old new }
    ensures user { IsUser J.schema engine.now token.new }
    ensures seen { IsPrefix token.old.seen token.new.seen }
{
    engine.reshape(rt, token, new)
}

/// The documents go to the disk by the second worker, which then begins two jobs. The first one replaces 7 and removes 9, and the jobs end.
/// It tells the numbers of the commits, by which shape the second job was overtaken, and what the first worker reads then: the number of
/// the last commit, and how many documents and chunks there are.
fn work<D: Disk, J: Naming, R: Wait>(
    rt: &R,
    alloc: Global,
    engine: &Engine<D, J>,
    first: &mut Token<J>,
    second: &mut Token<J>,
) -> Option<[u64; 7]>
    requires first { IsUser J.schema engine.now first.old }
    requires second { IsUser J.schema engine.now second.old }
    ensures first { IsUser J.schema engine.now first.new }
    ensures second { IsUser J.schema engine.now second.new }
{
    let ten = commit(rt, engine, first, insert_ten(alloc))?.number;
    let flushed = begin(alloc, engine, second, Job::Flush)?;
    let _ = end(rt, engine, second, flushed).ok()?;
    let new = begin(alloc, engine, second, Job::Optimize)?;
    let late = begin(alloc, engine, second, Job::Optimize)?;
    let put = commit(rt, engine, first, only(alloc, TxnOp::Put(doc(alloc, 7))))?.number;
    let killed = commit(rt, engine, first, only(alloc, TxnOp::Kill(9)))?.number;
    let _ = end(rt, engine, second, new).ok()?;
    let overtaken = match end(rt, engine, second, late) {
        Err(InstallFault::Overtaken { shape, .. }) => shape,
        _ => 0,
    };
    let found = snapshot(first).ok()?;
    let (documents, chunks) = (
        u64::from(found.live_count()),
        u64::from(found.disk_chunks()),
    );
    Some([ten, put, killed, overtaken, found.number, documents, chunks])
}

/// Whether the workers find what they are to find, and the engine ends with the three commits and the two jobs.
fn run<D: Disk + Drop, J: Naming, R: Wait>(rt: &R, alloc: Global, opened: Opened<D>) -> bool
    requires book { opened.book.past.seen.book ≡ J.book 0 }
    requires faults { opened.faults.past.seen.book ≡ J.faults 0 }
    requires stops { opened.stops.past.seen.book ≡ J.stops 0 }
    requires base { J.base 0 ≡ base_of opened }
    requires counted { J.opened 0 ≡ opening_of D.Disk opened }
    requires columns { J.schema 0 ≡ plain }
    requires opened { IsOpened D.Disk plain opened }
{
    let (engine, mut tokens) = match Engine::<D, J>::named(rt, alloc, opened, 0, 2) {
        Ok(named) => named,
        Err(_) => return false,
    };
    let second = tokens.pop();
    let first = tokens.pop();
    let (Some(mut first), Some(mut second)) = (first, second) else {
        let _ = ended(rt, engine, tokens.as_mut_slice());
        return false;
    };
    let worked = work(rt, alloc, &engine, &mut first, &mut second);
    let mut both = [first, second];
    let steps = ended(rt, engine, &mut both);
    (worked == Some([1, 2, 3, 2, 3, 9, 1])) & (steps == Some(5))
}

#[test]
fn a_job_ends_beside_commits(rt: HostRuntime) {
    let alloc = rt.alloc();
    let schema = schema(alloc);
    let right = match Opened::open(&rt, alloc, MemoryDisk::new(alloc, Vec::new(alloc)), &schema) {
        Ok(opened) => run::<MemoryDisk, Brand, _>(&rt, alloc, opened),
        Err(_) => false,
    };
    assert!(rt; right);
}
