//! One call of the disk fails while two workers of an engine commit in turn. A commit that the disk refuses, or leaves in doubt, counts
//! as a fault of its own worker and of nobody else; the other worker's commit is made, and settles what was left in doubt before it.
ghost use Rattle.std.specs.Prelude.{◌≡◌};
ghost use Rattle.share_vectors.specs.Users.{IsUser, plain};
ghost use Rattle.snap_share.specs.Opens.{IsOpened, base_of, opening_of};

use crate::commits::{end, insert, schema};
use chunk_store::{Disk, MemoryDisk};
use snap_share::{CommitFault, Committed, Doubt, Engine, Naming, Opened, Token};
use std::alloc::Global;
use std::marker::Brand;
use std::sync::Wait;
use std::thread::Threads;

/// How many calls are let fail, one by one; opening an empty index and two commits make fewer.
const CALLS: u64 = 40;

/// What may be told where a call fails: what became of the first and of the second commit, how many faults each worker counts, and how
/// many steps the history has in the end. 0 is a commit that was made, 1 one that the disk refused, and 2 one that it left in doubt. A
/// call that isn't made fails nothing.
const TOLD: [[u64; 5]; 5] = [
    [0, 0, 0, 0, 2],
    [1, 0, 1, 0, 1],
    [2, 0, 1, 0, 2],
    [0, 1, 0, 1, 1],
    [0, 2, 0, 1, 1],
];

/// What became of a commit.
pub(crate) fn word_of<J: Naming>(answer: &Result<Committed<J>, CommitFault<J>>) -> u64 {
    match answer {
        Ok(_) => 0,
        Err(CommitFault::Refused) => 1,
        Err(CommitFault::InDoubt(Doubt::Disk)) => 2,
        Err(_) => 3,
    }
}

/// Each worker commits once. What became of it, and how many faults they count.
fn work<D: Disk, J: Naming, R: Wait>(
    rt: &R,
    alloc: Global,
    engine: &Engine<D, J>,
    first: &mut Token<J>,
    second: &mut Token<J>,
) -> [u64; 4]
    requires first { IsUser J.schema engine.now first.old }
    requires second { IsUser J.schema engine.now second.old }
    ensures first { IsUser J.schema engine.now first.new }
    ensures second { IsUser J.schema engine.now second.new }
{
    let one = word_of(&insert(rt, alloc, engine, first, 7));
    let two = word_of(&insert(rt, alloc, engine, second, 8));
    [one, two, first.faults(), second.faults()]
}

/// What is told over a store that was opened, and how many steps the history has. None where memory is refused.
fn run<D: Disk + Drop, J: Naming, R: Wait>(
    rt: &R,
    alloc: Global,
    opened: Opened<D>,
) -> Option<[u64; 5]>
    requires book { opened.book.past.seen.book ≡ J.book 0 }
    requires faults { opened.faults.past.seen.book ≡ J.faults 0 }
    requires stops { opened.stops.past.seen.book ≡ J.stops 0 }
    requires base { J.base 0 ≡ base_of opened }
    requires counted { J.opened 0 ≡ opening_of D.Disk opened }
    requires columns { J.schema 0 ≡ plain }
    requires opened { IsOpened D.Disk plain opened }
{
    let Ok((engine, mut tokens)) = Engine::<D, J>::named(rt, alloc, opened, 0, 2) else {
        return None;
    };
    let second = tokens.pop();
    let first = tokens.pop();
    let (Some(mut first), Some(mut second)) = (first, second) else {
        let _ = end(rt, engine, tokens.as_mut_slice());
        return None;
    };
    let [one, two, by_first, by_second] = work(rt, alloc, &engine, &mut first, &mut second);
    let mut both = [first, second];
    let steps = end(rt, engine, &mut both)?;
    Some([one, two, by_first, by_second, steps])
}

/// What is told where this call fails. None where opening made it, or memory is refused.
fn told_where<R: Wait + Threads>(rt: &R, alloc: Global, call: u64) -> Option<[u64; 5]> {
    let failing = Vec::from_slice(alloc, &[call]).ok()?;
    let schema = schema(alloc);
    match Opened::open(rt, alloc, MemoryDisk::new(alloc, failing), &schema) {
        Ok(opened) => run::<MemoryDisk, Brand, R>(rt, alloc, opened),
        Err(_) => None,
    }
}

/// How often each line of the table was told, or none where something else was.
fn counts<R: Wait + Threads>(rt: &R, alloc: Global) -> Option<[u64; 5]> {
    let mut counts = [0u64; 5];
    for call in 0..CALLS {
        if let Some(told) = told_where(rt, alloc, call) {
            let place = TOLD.iter().position(|line| *line == told)?;
            counts[place] = counts[place].saturating_add(1);
        }
    }
    Some(counts)
}

#[test]
fn a_fault_is_its_own_workers(rt: HostRuntime) {
    let counts = counts(&rt, rt.alloc());
    let all = match counts {
        Some(counts) => counts.iter().all(|count| *count > 0),
        None => false,
    };
    assert!(rt; all);
}
