//! Workers of one engine at once, each in a thread of its own: all their commits are in the one history, and each reads at least
//! its own.
ghost use Rattle.std.specs.Prelude.{◌≡◌, All};
ghost use Rattle.share_vectors.specs.Users.{IsUser, plain};
ghost use Rattle.snap_share.specs.Opens.{IsOpened, base_of, opening_of};

use crate::commits::{end, have_all, insert, schema};
use chunk_store::{Disk, MemoryDisk};
use snap_share::{Engine, Naming, Opened, Token, snapshot};
use std::alloc::Global;
use std::marker::Brand;
use std::sync::Wait;
use std::thread::{Threads, for_each_mut};

/// How many workers commit.
const WORKERS: u32 = 3;

/// How many commits each of them makes.
const COMMITS: u32 = 100;

/// Makes a worker's commits, and reads behind each.
fn work<D: Disk, J: Naming, R: Wait>(
    rt: &R,
    alloc: Global,
    engine: &Engine<D, J>,
    token: &mut Token<J>,
)
    requires { IsUser J.schema engine.now token.old }
    ensures { IsUser J.schema engine.now token.new }
{
    let first = u64::from(token.worker()) << 32;
    for count in 0..COMMITS {
        let _ = insert(rt, alloc, engine, token, first | u64::from(count));
        let _ = snapshot(token);
    }
}

/// Lets all workers commit at once.
fn work_all<D: Disk + Send, J: Naming + Send + Sync, R: Threads + Wait + Sync>(
    rt: &R,
    alloc: Global,
    engine: &Engine<D, J>,
    tokens: &mut [Token<J>],
)
    requires { All (IsUser J.schema engine.now) tokens.old }
    ensures { All (IsUser J.schema engine.now) tokens.new }
{
    for_each_mut(
        rt,
        tokens,
        WORKERS as usize,
        &|_: usize, token: &mut Token<J>|
            requires { IsUser J.schema engine.now token.now }
            ensures { IsUser J.schema engine.entry.now token.exit.now }
        { work(rt, alloc, engine, token) },
    );
}

/// Lets all workers commit at once, and ends the engine. Whether all commits are in the one history, and each worker knows them.
fn work_and_close<D: Disk + Drop + Send, J: Naming + Send + Sync, R: Threads + Wait + Sync>(
    rt: &R,
    alloc: Global,
    engine: Engine<D, J>,
    tokens: &mut [Token<J>],
) -> bool
    requires { All (IsUser J.schema engine) tokens.old }
{
    work_all(rt, alloc, &engine, tokens);
    let steps = end(rt, engine, tokens);
    have_all(
        steps,
        tokens,
        u64::from(WORKERS * COMMITS),
        u64::from(COMMITS),
    )
}

#[tactic(auto, using(crate::proofs::Users::are_users))]
fn run<D: Disk + Drop + Send, J: Naming + Send + Sync, R: Threads + Wait + Sync>(
    rt: &R,
    alloc: Global,
    opened: Opened<D>,
) -> bool
    requires book { opened.book.past.seen.book ≡ J.book 0 }
    requires faults { opened.faults.past.seen.book ≡ J.faults 0 }
    requires stops { opened.stops.past.seen.book ≡ J.stops 0 }
    requires base { J.base 0 ≡ base_of opened }
    requires counted { J.opened 0 ≡ opening_of D.Disk opened }
    requires columns { J.schema 0 ≡ plain }
    requires opened { IsOpened D.Disk plain opened }
{
    match Engine::<D, J>::named(rt, alloc, opened, 0, WORKERS) {
        Ok((engine, mut tokens)) => work_and_close(rt, alloc, engine, tokens.as_mut_slice()),
        Err(_) => false,
    }
}

#[test]
fn workers_commit_at_once(rt: HostRuntime) {
    let alloc = rt.alloc();
    let schema = schema(alloc);
    let right = match Opened::open(&rt, alloc, MemoryDisk::new(alloc, Vec::new(alloc)), &schema) {
        Ok(opened) => run::<MemoryDisk, Brand, _>(&rt, alloc, opened),
        Err(_) => false,
    };
    assert!(rt; right);
}
