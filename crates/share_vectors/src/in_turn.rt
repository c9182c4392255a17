//! Two workers of one engine in turn: each commits, and reads what the other one did.
ghost use Rattle.std.specs.Prelude.{◌≡◌};
ghost use Rattle.share_vectors.specs.Users.{IsUser, plain};
ghost use Rattle.snap_share.specs.Opens.{IsOpened, base_of, opening_of};

use crate::commits::{end, have_all, insert, schema};
use chunk_store::{Disk, MemoryDisk};
use snap_share::{CommitFault, Engine, Naming, Opened, Token, learn, snapshot};
use std::alloc::Global;
use std::marker::Brand;
use std::sync::Wait;

/// The first worker inserts 7, which the second one finds without being told; the second one can't insert 7, inserts 8 and tells
/// the first one.
fn work<D: Disk, J: Naming, R: Wait>(
    rt: &R,
    alloc: Global,
    engine: &Engine<D, J>,
    first: &mut Token<J>,
    second: &mut Token<J>,
) -> Option<[u64; 6]>
    requires first { IsUser J.schema engine.now first.old }
    requires second { IsUser J.schema engine.now second.old }
    ensures first { IsUser J.schema engine.now first.new }
    ensures second { IsUser J.schema engine.now second.new }
{
    let one = match insert(rt, alloc, engine, first, 7) {
        Ok(made) => made.number,
        Err(_) => return None,
    };
    let found = snapshot(second).ok()?.number;
    let there = match insert(rt, alloc, engine, second, 7) {
        Err(CommitFault::Duplicate { id, .. }) => id,
        _ => 0,
    };
    let two = match insert(rt, alloc, engine, second, 8) {
        Ok(made) => {
            learn(first, &made.note);
            made.number
        }
        Err(_) => return None,
    };
    let told = first.len();
    let read = snapshot(first).ok()?.number;
    Some([one, found, there, two, told, read])
}

/// Whether both workers find what they are to find, and know the one history in the end.
fn run<D: Disk + Drop, J: Naming, R: Wait>(rt: &R, alloc: Global, opened: Opened<D>) -> bool
    requires book { opened.book.past.seen.book ≡ J.book 0 }
    requires faults { opened.faults.past.seen.book ≡ J.faults 0 }
    requires stops { opened.stops.past.seen.book ≡ J.stops 0 }
    requires base { J.base 0 ≡ base_of opened }
    requires counted { J.opened 0 ≡ opening_of D.Disk opened }
    requires columns { J.schema 0 ≡ plain }
    requires opened { IsOpened D.Disk plain opened }
{
    let (engine, mut tokens) = match Engine::<D, J>::named(rt, alloc, opened, 0, 2) {
        Ok(named) => named,
        Err(_) => return false,
    };
    let opened = (engine.opened(), engine.records());
    let second = tokens.pop();
    let first = tokens.pop();
    let (Some(mut first), Some(mut second)) = (first, second) else {
        let _ = end(rt, engine, tokens.as_mut_slice());
        return false;
    };
    let worked = work(rt, alloc, &engine, &mut first, &mut second);
    let mut both = [first, second];
    let steps = end(rt, engine, &mut both);
    let right = have_all(steps, &both, 2, 1);
    right & (opened == ((0, 0), 0)) & (worked == Some([1, 1, 7, 2, 2, 2]))
}

#[test]
fn two_workers_share_an_index(rt: HostRuntime) {
    let alloc = rt.alloc();
    let schema = schema(alloc);
    let right = match Opened::open(&rt, alloc, MemoryDisk::new(alloc, Vec::new(alloc)), &schema) {
        Ok(opened) => run::<MemoryDisk, Brand, _>(&rt, alloc, opened),
        Err(_) => false,
    };
    assert!(rt; right);
}
