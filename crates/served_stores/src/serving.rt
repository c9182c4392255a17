//! All indexes of a configuration, served by all workers.
ghost use Rattle.std.specs.Prelude.{◌≡◌, ◌<◌, ◌≤◌, ◌⊎◌, ◌*◌, ◌^◌, [], All, IfOk, length, vec_capacity};
ghost use Rattle.engine_tables.specs.Names.{AreNamed, AreServed, IsRoomFor};
ghost use Rattle.engine_tables.specs.Tokens.{new_seats};
ghost use Rattle.served_stores.specs.Serving.{HasNone, HasServed, Serves, outcome_of};
ghost use Rattle.served_stores.specs.Stores.{AreStores};

use crate::IndexEnd;
use crate::ends::{unserved, without_notes};
use crate::seating::{sit_down, stand_up};
use chunk_store::Disk;
use engine_tables::{Ending, Engines, Named};
use index_conf::IndexConf;
use line_workers::{Seat, serve_all};
use srch_base::{Door, NoMemory};
use std::alloc::Global;
use std::marker::Brand;
use std::sync::Wait;
use std::thread::Threads;
use step_book::Naming;
use store_keep::Opened;

/// How serving went.
#[derive(Clone, Copy, PartialEq, Eq)]
pub enum Outcome {
    /// Memory was refused before a worker began.
    NoMemory,
    /// Each door has ended, or gave as many lines as it may.
    Done,
    /// A door failed, and ended its worker.
    HostFault,
}

/// What is left once all have been served.
pub struct Served<D: Disk, E> {
    /// The doors, as they were given.
    pub doors: Vec<E>,
    /// What is left of each index, in the order of the configuration.
    pub ends: Vec<IndexEnd<D>>,
    pub outcome: Outcome,
}

/// How it went where workers began.
fn outcome_of(failed: bool) -> Outcome
    ensures { result ≡ outcome_of failed }
{
    if failed {
        Outcome::HostFault
    } else {
        Outcome::Done
    }
}

/// Serves over engines that have the names.
fn serve_engines<D: Disk + Send, E: Door + Send, J: Naming + Send + Sync, R: Threads + Wait + Sync>(
    rt: &R,
    alloc: Global,
    named: Named<D, J>,
    mut doors: Vec<E>,
    sessions: u32,
    mut seats: Vec<Seat<E, J>>,
    room: Vec<IndexEnd<D>>,
) -> Served<D, E>
where
    E::Line: Send,
    requires workers { named.engines.workers ≡ length doors.items }
    requires tokens { named.seats.items ≡ new_seats (length named.engines.confs) named.engines.workers }
    requires ending { IsRoomFor (length named.engines.confs) named.engines.workers named.ending }
    requires doors { All (λ door. length (E.returned door) ≤ length (E.given door)) doors.items }
    requires numbers { length doors.items * sessions < 2 ^ 32 }
    requires seats { (seats.items ≡ []) × (length doors.items ≤ vec_capacity seats) }
    requires room { (room.items ≡ []) × (length named.engines.confs ≤ vec_capacity room) }
    ensures { HasServed D.Disk E.Door E.Line.Link J.schema J.base J.opened named.engines.confs sessions doors.items result }
{
    let Named {
        engines,
        seats: mut tokens,
        ending,
    } = named;
    sit_down(&mut doors, &mut tokens, &mut seats);
    let ended = serve_all(rt, alloc, engines, ending, sessions, seats.as_mut_slice());
    let failed = stand_up(seats, &mut doors);
    Served {
        doors,
        ends: without_notes(ended, room),
        outcome: outcome_of(failed),
    }
}

/// Room for the seats of so many workers, and for what is left of engines.
fn seats_for<D: Disk, E: Door, J: Naming>(
    alloc: Global,
    indexes: usize,
    workers: usize,
) -> Result<(Vec<Seat<E, J>>, Ending<D, J>), NoMemory>
    requires { workers < 2 ^ 32 }
    ensures seats { IfOk result (λ made. (made.0.items ≡ []) × (workers ≤ vec_capacity made.0)) }
    ensures ending { IfOk result (λ made. IsRoomFor indexes workers made.1) }
{
    let seats = Vec::with_capacity(alloc, workers)?;
    match Ending::new(alloc, indexes, workers as u32) {
        Ok(ending) => Ok((seats, ending)),
        Err(NoMemory) => {
            seats.destroy_empty();
            Err(NoMemory)
        }
    }
}

/// The same where stores have the names.
fn serve_named<D: Disk + Send, E: Door + Send, J: Naming + Send + Sync, R: Threads + Wait + Sync>(
    rt: &R,
    alloc: Global,
    confs: Vec<IndexConf>,
    stores: Vec<Opened<D>>,
    doors: Vec<E>,
    sessions: u32,
    room: Vec<IndexEnd<D>>,
) -> Served<D, E>
where
    E::Line: Send,
    requires named { AreNamed D.Disk J.book J.faults J.stops J.schema J.base J.opened confs.items stores.items }
    requires served { AreServed confs.items }
    requires doors { All (λ door. length (E.returned door) ≤ length (E.given door)) doors.items }
    requires some { (0 < length doors.items) × (length doors.items < 2 ^ 32) }
    requires numbers { length doors.items * sessions < 2 ^ 32 }
    requires room { (room.items ≡ []) × (length confs.items ≤ vec_capacity room) }
    ensures { HasServed D.Disk E.Door E.Line.Link J.schema J.base J.opened confs.items sessions doors.items result ⊎ HasNone D.Disk J.schema J.base J.opened stores.items doors.items result }
{
    let workers = doors.len() as u32;
    match seats_for(alloc, stores.len(), doors.len()) {
        Ok((seats, ending)) => {
            match Engines::<D, J>::named(rt, alloc, confs, stores, workers, ending) {
                Ok(named) => serve_engines(rt, alloc, named, doors, sessions, seats, room),
                Err(ended) => {
                    seats.destroy_empty();
                    Served {
                        doors,
                        ends: without_notes(ended, room),
                        outcome: Outcome::NoMemory,
                    }
                }
            }
        }
        Err(NoMemory) => Served {
            doors,
            ends: unserved(stores, room),
            outcome: Outcome::NoMemory,
        },
    }
}

/// Serves the indexes of a configuration over stores that were opened, in the order of the configuration: a worker for each door serves
/// lines of it, at most `sessions` many. All work side by side, and once all have ended, each index ends.
///
/// `room` is an empty list with room for what is left of each index.
pub fn serve_stores<D: Disk + Send, E: Door + Send, R: Threads + Wait + Sync>(
    rt: &R,
    alloc: Global,
    confs: Vec<IndexConf>,
    stores: Vec<Opened<D>>,
    doors: Vec<E>,
    sessions: u32,
    room: Vec<IndexEnd<D>>,
) -> Served<D, E>
where
    E::Line: Send,
    requires stores { AreStores D.Disk confs.items stores.items }
    requires served { AreServed confs.items }
    requires doors { All (λ door. length (E.returned door) ≤ length (E.given door)) doors.items }
    requires some { (0 < length doors.items) × (length doors.items < 2 ^ 32) }
    requires numbers { length doors.items * sessions < 2 ^ 32 }
    requires room { (room.items ≡ []) × (length confs.items ≤ vec_capacity room) }
    ensures { Serves D.Disk E.Door E.Line.Link confs.items stores.items sessions doors.items result }
{
    serve_named::<D, E, Brand, R>(rt, alloc, confs, stores, doors, sessions, room)
}
