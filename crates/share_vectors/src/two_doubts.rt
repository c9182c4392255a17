//! Two calls of the disk fail while one worker of an engine commits three times. Where the disk leaves the first two commits in doubt,
//! each is settled by the one behind it, with its own document.
ghost use Rattle.std.specs.Prelude.{◌≡◌};
ghost use Rattle.share_vectors.specs.Users.{IsUser, plain};
ghost use Rattle.snap_share.specs.Opens.{IsOpened, base_of, opening_of};

use crate::commits::{end, insert, schema};
use crate::doubts::word_of;
use chunk_store::{Disk, MemoryDisk};
use snap_share::{CommitFault, Committed, Engine, Naming, Opened, Token};
use std::alloc::Global;
use std::marker::Brand;
use std::sync::Wait;
use std::thread::Threads;

/// How many calls are let fail, two by two; opening an empty index and two commits make fewer.
const CALLS: u64 = 40;

/// What is told where the first two commits are in doubt: that they are and the third one was made, how many faults the worker counts,
/// which documents can't be inserted once more, and how many steps the history has.
const TOLD: [u64; 7] = [2, 2, 0, 2, 7, 8, 3];

/// The id that is there already, or 0.
fn there<J: Naming>(answer: &Result<Committed<J>, CommitFault<J>>) -> u64 {
    match answer {
        Err(CommitFault::Duplicate { id, .. }) => *id,
        _ => 0,
    }
}

/// The worker commits three documents, and the first two once more: what became of the three, how many faults it counts, and which ids
/// were there.
fn work<D: Disk, J: Naming, R: Wait>(
    rt: &R,
    alloc: Global,
    engine: &Engine<D, J>,
    token: &mut Token<J>,
) -> [u64; 6]
    requires { IsUser J.schema engine.now token.old }
    ensures { IsUser J.schema engine.now token.new }
{
    let one = word_of(&insert(rt, alloc, engine, token, 7));
    let two = word_of(&insert(rt, alloc, engine, token, 8));
    let three = word_of(&insert(rt, alloc, engine, token, 9));
    let faults = token.faults();
    let first = there(&insert(rt, alloc, engine, token, 7));
    let second = there(&insert(rt, alloc, engine, token, 8));
    [one, two, three, faults, first, second]
}

/// What is told over a store that was opened, and how many steps the history has. None where memory is refused.
fn run<D: Disk + Drop, J: Naming, R: Wait>(
    rt: &R,
    alloc: Global,
    opened: Opened<D>,
) -> Option<[u64; 7]>
    requires book { opened.book.past.seen.book ≡ J.book 0 }
    requires faults { opened.faults.past.seen.book ≡ J.faults 0 }
    requires stops { opened.stops.past.seen.book ≡ J.stops 0 }
    requires base { J.base 0 ≡ base_of opened }
    requires counted { J.opened 0 ≡ opening_of D.Disk opened }
    requires columns { J.schema 0 ≡ plain }
    requires opened { IsOpened D.Disk plain opened }
{
    let Ok((engine, mut tokens)) = Engine::<D, J>::named(rt, alloc, opened, 0, 1) else {
        return None;
    };
    let Some(mut token) = tokens.pop() else {
        let _ = end(rt, engine, tokens.as_mut_slice());
        return None;
    };
    let [one, two, three, faults, first, second] = work(rt, alloc, &engine, &mut token);
    let mut all = [token];
    let steps = end(rt, engine, &mut all)?;
    Some([one, two, three, faults, first, second, steps])
}

/// What is told where these calls fail. None where opening made one of them, or memory is refused.
fn told_where<R: Wait + Threads>(
    rt: &R,
    alloc: Global,
    first: u64,
    second: u64,
) -> Option<[u64; 7]> {
    let failing = Vec::from_slice(alloc, &[first, second]).ok()?;
    let schema = schema(alloc);
    match Opened::open(rt, alloc, MemoryDisk::new(alloc, failing), &schema) {
        Ok(opened) => run::<MemoryDisk, Brand, R>(rt, alloc, opened),
        Err(_) => None,
    }
}

/// How often both commits were in doubt, where this call fails and a later one; none where something else was told then.
fn doubts_behind<R: Wait + Threads>(rt: &R, alloc: Global, first: u64) -> Option<u64> {
    let mut doubts = 0u64;
    for second in first..CALLS {
        if let Some(told) = told_where(rt, alloc, first, second) {
            let [one, two, ..] = told;
            if one == 2 && two == 2 {
                if told != TOLD {
                    return None;
                }
                doubts = doubts.saturating_add(1);
            }
        }
    }
    Some(doubts)
}

#[test]
fn each_doubt_is_settled_as_asked(rt: HostRuntime) {
    let alloc = rt.alloc();
    let mut doubts = Some(0u64);
    for first in 0..CALLS {
        doubts = match (doubts, doubts_behind(&rt, alloc, first)) {
            (Some(before), Some(more)) => Some(before.saturating_add(more)),
            _ => None,
        };
    }
    assert!(rt; doubts.is_some_and(|doubts| doubts > 0));
}
