//! All workers: they work side by side or in turn, and then each index ends.
ghost use Rattle.std.specs.Prelude.{◌≡◌, ◌<◌, ◌≤◌, ◌+◌, ◌*◌, ◌^◌, ◌++◌, All, length};
ghost use Rattle.std.specs.List.{AllZip};
ghost use Rattle.engine_tables.specs.Endings.{HaveEnded};
ghost use Rattle.engine_tables.specs.Names.{IsRoomFor};
ghost use Rattle.engine_tables.specs.Tokens.{SeatsDiffer, SitsAt};
ghost use Rattle.line_workers.specs.Seats.{AreReady};
ghost use Rattle.line_workers.specs.Served.{IsServed};
ghost use Rattle.line_workers.specs.steps.Working.{CanWork, HasWorked, IsSameSeat, collected};

use crate::Seat;
use crate::working::work;
use chunk_store::Disk;
use engine_tables::{Ended, Ending, Engines, Tokens};
use srch_base::Door;
use std::alloc::Global;
use std::sync::Wait;
use std::thread::{Threads, for_each_mut};
use step_book::Naming;

/// Each worker works in a thread of its own, as far as the system gives threads: without them they work in turn.
fn work_all<D: Disk + Send, E: Door + Send, J: Naming + Send + Sync, R: Threads + Wait + Sync>(
    rt: &R,
    alloc: Global,
    engines: &Engines<D, J>,
    sessions: u32,
    seats: &mut [Seat<E, J>],
)
where
    E::Line: Send,
    requires can { All (CanWork E.Door engines.now) seats.old }
    requires numbers { engines.now.workers * sessions < 2 ^ 32 }
    ensures { AllZip (HasWorked E.Door E.Line.Link J.schema J.base engines.now sessions) seats.old seats.new }
{
    let threads = seats.len().max(1);
    for_each_mut(
        rt,
        seats,
        threads,
        &|_: usize, seat: &mut Seat<E, J>| {
            work(rt, alloc, engines, sessions, seat);
        },
    );
}

/// The workers work one after another.
fn work_in_turn<D: Disk, E: Door, J: Naming, R: Wait>(
    rt: &R,
    alloc: Global,
    engines: &Engines<D, J>,
    sessions: u32,
    seats: &mut [Seat<E, J>],
)
    requires can { All (CanWork E.Door engines.now) seats.old }
    requires numbers { engines.now.workers * sessions < 2 ^ 32 }
    ensures { AllZip (HasWorked E.Door E.Line.Link J.schema J.base engines.now sessions) seats.old seats.new }
{
    if let Some((seat, others)) = seats.split_first_mut() {
        work(rt, alloc, engines, sessions, seat);
        work_in_turn(rt, alloc, engines, sessions, others);
    }
}

/// Takes the tokens of a seat away.
fn take_tokens<E: Door, J: Naming>(seat: &mut Seat<E, J>) -> Option<Tokens<J>>
    ensures is { result ≡ seat.old.tokens }
    ensures seat { IsSameSeat seat.old seat.new }
{
    seat.tokens.take()
}

/// Takes the tokens of all seats away, to where they are collected.
fn collect<D: Disk, E: Door, J: Naming>(seats: &mut [Seat<E, J>], ending: &mut Ending<D, J>)
    requires { length ending.old.seats + length seats.old ≤ ending.old.workers }
    ensures ending { ending.new ≡ record ending.old { seats = ending.old.seats ++ collected seats.old } }
    ensures seats { AllZip IsSameSeat seats.old seats.new }
{
    if let Some((seat, others)) = seats.split_first_mut() {
        if let Some(tokens) = take_tokens(seat) {
            ending.put(tokens);
        }
        collect(others, ending);
    }
}

/// Ends all engines with the tokens of all seats.
fn end_engines<D: Disk, E: Door, J: Naming, R: Wait>(
    rt: &R,
    engines: Engines<D, J>,
    mut ending: Ending<D, J>,
    seats: &mut [Seat<E, J>],
) -> Vec<Ended<D, J>>
    requires room { IsRoomFor (length engines.confs) engines.workers ending }
    requires many { length seats.old ≤ engines.workers }
    requires sit { All (SitsAt engines) (collected seats.old) }
    requires differ { SeatsDiffer (collected seats.old) }
    ensures ended { HaveEnded D.Disk J.schema J.base J.opened (length engines.confs) engines.workers (collected seats.old) result.items }
    ensures seats { AllZip IsSameSeat seats.old seats.new }
{
    collect(seats, &mut ending);
    engines.close(rt, ending)
}

/// Each worker serves the lines of its door, at most `sessions` many, one after another; all workers do so side by side, in threads
/// of their own. Then each engine ends with the tokens of all workers. A door that fails ends its worker alone, and a line that fails
/// only that line.
///
/// Where the system gives no threads, the workers work in turn: then the second one begins once the first one's door has ended.
pub fn serve_all<D: Disk + Send, E: Door + Send, J: Naming + Send + Sync, R: Threads + Wait + Sync>(
    rt: &R,
    alloc: Global,
    engines: Engines<D, J>,
    ending: Ending<D, J>,
    sessions: u32,
    seats: &mut [Seat<E, J>],
) -> Vec<Ended<D, J>>
where
    E::Line: Send,
    requires ready { AreReady E.Door engines sessions seats.old }
    requires room { IsRoomFor (length engines.confs) engines.workers ending }
    ensures { IsServed D.Disk E.Door E.Line.Link J.schema J.base J.opened engines.confs sessions seats.old seats.new result.items }
{
    work_all(rt, alloc, &engines, sessions, seats);
    end_engines(rt, engines, ending, seats)
}

/// The same with no thread: the workers work one after another.
pub fn serve_in_turn<D: Disk, E: Door, J: Naming, R: Wait>(
    rt: &R,
    alloc: Global,
    engines: Engines<D, J>,
    ending: Ending<D, J>,
    sessions: u32,
    seats: &mut [Seat<E, J>],
) -> Vec<Ended<D, J>>
    requires ready { AreReady E.Door engines sessions seats.old }
    requires room { IsRoomFor (length engines.confs) engines.workers ending }
    ensures { IsServed D.Disk E.Door E.Line.Link J.schema J.base J.opened engines.confs sessions seats.old seats.new result.items }
{
    work_in_turn(rt, alloc, &engines, sessions, seats);
    end_engines(rt, engines, ending, seats)
}
