//! Serving: the stores of all indexes are opened, then doors are asked for, and workers serve the lines of each. However they end,
//! stores and doors are handed back.
ghost use Rattle.std.specs.Prelude.{◌≡◌, ◌+◌, ◌*◌, ◌^◌, ◌<◌, ◌≤◌, ◌++◌, [], All, IfOk, Some, None, length, map, option_copied, vec_capacity};
ghost use Rattle.command_line.specs.Modes.{serve, session};
ghost use Rattle.engine_tables.specs.Names.{AreServed};
ghost use Rattle.index_conf.specs.Soundness.{IsSound};
ghost use Rattle.served_stores.specs.Stores.{AreStores};
ghost use Rattle.program_host.specs.Statuses.{NamesIndex};
ghost use Rattle.searchd_top.specs.Requests.{door_requests, store_requests};
ghost use Rattle.searchd_top.specs.Runs.{Runs};
ghost use Rattle.searchd_top.specs.Sessions.{ServesIndexes};
ghost use Rattle.searchd_top.specs.steps.Servings.{AreNames, HandsAllBack, IsShort, ServesOpened, after_end, after_ends, plan_of};
ghost use Rattle.searchd_top.specs.steps.Sides.{AreTexts, DoesBy, HandsBack, KeepsPrints};

use crate::configuring::configure;
use crate::opening::{give_up, hand_back, open_stores};
use chunk_store::Disk;
use commit_outcomes::Strayed;
use index_conf::{Conf, IndexConf};
use program_host::{Host, Status, Stream};
use served_stores::{IndexEnd, Outcome, Served, serve_stores};
use srch_base::{Door, Name, NoMemory, Or};
use std::alloc::Global;
use std::sync::Wait;
use std::thread::Threads;
use store_keep::Opened;

/// Reads the configuration, and serves one line over the standard streams by its indexes.
pub(crate) fn run_session<H: Host, R: Threads + Wait + Sync>(
    rt: &R,
    alloc: Global,
    file: &str,
    host: &mut H,
) -> Status
where
    <H::Entry as Door>::Line: Send,
    requires stores { length (H.stores_back host.old) ≤ length (H.stores_given host.old) }
    requires doors { length (H.doors_back host.old) ≤ length (H.doors_given host.old) }
    ensures runs { Runs H.Host H.Store.Disk H.Entry.Door H.Entry.Line.Link (Some (session file.now)) result host.old host.new }
    ensures asked { ¬ (result ≡ Status.Usage) }
    ensures names { NamesIndex result }
    ensures errors { H.printed host.new Stream.Err ≡ H.printed host.old Stream.Err }
    ensures quiet { H.print_faults host.new Stream.Err ≡ H.print_faults host.old Stream.Err }
{
    match configure(alloc, file, host) {
        Ok(conf) => serve(rt, alloc, conf, None, 1, 1, host),
        Err(status) => status,
    }
}

/// Reads the configuration, and serves lines over a listener by its indexes: so many workers at once, each so many lines.
pub(crate) fn run_serve<H: Host, R: Threads + Wait + Sync>(
    rt: &R,
    alloc: Global,
    file: &str,
    listen: &str,
    workers: u32,
    sessions: u32,
    host: &mut H,
) -> Status
where
    <H::Entry as Door>::Line: Send,
    requires stores { length (H.stores_back host.old) ≤ length (H.stores_given host.old) }
    requires doors { length (H.doors_back host.old) ≤ length (H.doors_given host.old) }
    requires some { 0 < workers }
    requires numbers { workers * sessions < 2 ^ 32 }
    ensures runs { Runs H.Host H.Store.Disk H.Entry.Door H.Entry.Line.Link (Some (serve file.now listen.now workers sessions)) result host.old host.new }
    ensures asked { ¬ (result ≡ Status.Usage) }
    ensures names { NamesIndex result }
    ensures errors { H.printed host.new Stream.Err ≡ H.printed host.old Stream.Err }
    ensures quiet { H.print_faults host.new Stream.Err ≡ H.print_faults host.old Stream.Err }
{
    match configure(alloc, file, host) {
        Ok(conf) => serve(rt, alloc, conf, Some(listen), workers, sessions, host),
        Err(status) => status,
    }
}

/// Opens the stores of these indexes, and serves them.
fn serve<H: Host, R: Threads + Wait + Sync>(
    rt: &R,
    alloc: Global,
    conf: Conf,
    listen: Option<&str>,
    workers: u32,
    sessions: u32,
    host: &mut H,
) -> Status
where
    <H::Entry as Door>::Line: Send,
    requires sound { IsSound conf }
    requires paths { AreTexts conf.indexes }
    requires stores { length (H.stores_back host.old) ≤ length (H.stores_given host.old) }
    requires doors { length (H.doors_back host.old) ≤ length (H.doors_given host.old) }
    requires some { 0 < workers }
    requires numbers { workers * sessions < 2 ^ 32 }
    ensures serves { DoesBy H.Host host.old host.new (ServesIndexes H.Store.Disk H.Entry.Door H.Entry.Line.Link conf.indexes (plan_of (option_copied listen.entry) workers sessions) (store_requests conf.indexes ++ door_requests (plan_of (option_copied listen.entry) workers sessions)) result) }
    ensures asked { ¬ (result ≡ Status.Usage) }
    ensures names { NamesIndex result }
    ensures prints { KeepsPrints H.Host host.old host.new }
{
    let mut opened = Vec::new(alloc);
    match open_stores(rt, alloc, conf.indexes.as_slice(), &mut opened, host) {
        Ok(()) => {
            let indexes = conf.indexes.into_vec();
            serve_opened(rt, alloc, indexes, opened, listen, workers, sessions, host)
        }
        Err(stop) => give_up(opened, stop, host),
    }
}

/// Asks for doors, and serves what they give over the stores of these indexes.
fn serve_opened<H: Host, R: Threads + Wait + Sync>(
    rt: &R,
    alloc: Global,
    indexes: Vec<IndexConf>,
    opened: Vec<Opened<H::Store>>,
    listen: Option<&str>,
    workers: u32,
    sessions: u32,
    host: &mut H,
) -> Status
where
    <H::Entry as Door>::Line: Send,
    requires opened { AreStores H.Store.Disk indexes.items opened.items }
    requires served { AreServed indexes.items }
    requires stores { length (H.stores_back host.old) + length opened.items ≤ length (H.stores_given host.old) }
    requires doors { length (H.doors_back host.old) ≤ length (H.doors_given host.old) }
    requires some { 0 < workers }
    requires numbers { workers * sessions < 2 ^ 32 }
    ensures serves { ServesOpened H.Host H.Store.Disk H.Entry.Door H.Entry.Line.Link indexes.items (plan_of (option_copied listen.entry) workers sessions) opened.items result host.old host.new }
    ensures asked { ¬ (result ≡ Status.Usage) }
    ensures names { NamesIndex result }
    ensures prints { KeepsPrints H.Host host.old host.new }
{
    match room_for(alloc, &indexes) {
        Ok((names, room)) => match host.doors(listen, workers) {
            Ok(given) => {
                let served = serve_stores(rt, alloc, indexes, opened, given, sessions, room);
                hand_all_back(names, served, host)
            }
            Err(fault) => {
                hand_back(opened, host);
                Status::from(fault)
            }
        },
        Err(NoMemory) => {
            hand_back(opened, host);
            Status::NoMemory
        }
    }
}

/// The names of indexes, and room for what will be left of them.
fn room_for<S: Disk>(
    alloc: Global,
    indexes: &[IndexConf],
) -> Result<(Vec<Name>, Vec<IndexEnd<S>>), NoMemory>
    ensures names { IfOk result (λ made. AreNames indexes.now made.0.items) }
    ensures room { IfOk result (λ made. (made.1.items ≡ []) × (length indexes.now ≤ vec_capacity made.1)) }
{
    let names = names_of(alloc, indexes)?;
    let room = Vec::with_capacity(alloc, indexes.len())?;
    Ok((names, room))
}

/// The names of indexes.
fn names_of(alloc: Global, indexes: &[IndexConf]) -> Result<Vec<Name>, NoMemory>
    ensures { IfOk result (λ names. AreNames indexes.now names.items) }
{
    let mut names = Vec::new(alloc);
    for index in indexes {
        names.push(Name::from_slice(alloc, index.schema.name.as_bytes())?)?;
    }
    Ok(names)
}

/// Hands all stores and doors back, and says how it went.
fn hand_all_back<H: Host>(
    names: Vec<Name>,
    served: Served<H::Store, H::Entry>,
    host: &mut H,
) -> Status
    requires many { length names.items ≡ length served.ends.items }
    requires short { All IsShort names.items }
    requires stores { length (H.stores_back host.old) + length served.ends.items ≤ length (H.stores_given host.old) }
    requires doors { length (H.doors_back host.old) + length served.doors.items ≤ length (H.doors_given host.old) }
    ensures hands { HandsAllBack H.Host names.items served result host.old host.new }
    ensures asked { ¬ (result ≡ Status.Usage) }
    ensures names { NamesIndex result }
    ensures prints { KeepsPrints H.Host host.old host.new }
{
    let Served {
        doors,
        ends,
        outcome,
    } = served;
    host.give_doors(doors);
    let status = match outcome {
        Outcome::Done => after_ends(names, &ends, Status::Done),
        Outcome::HostFault => Status::HostFault,
        Outcome::NoMemory => Status::NoMemory,
    };
    hand_ends_back(ends, host);
    status
}

/// What the run ends with by how indexes ended, the last one first: the first one whose history strayed decides, then out of memory,
/// then what those behind them lead to.
fn after_ends<S: Disk>(mut names: Vec<Name>, ends: &[IndexEnd<S>], later: Status) -> Status
    requires many { length names.items ≡ length ends.now }
    requires short { All IsShort names.items }
    requires asked { ¬ (later ≡ Status.Usage) }
    requires names { NamesIndex later }
    ensures says { result ≡ after_ends names.items (map (λ end. end.answer) ends.now) later }
    ensures asked { ¬ (result ≡ Status.Usage) }
    ensures names { NamesIndex result }
{
    match (names.pop(), ends.split_last()) {
        (Some(name), Some((end, before))) => {
            let status = after_end(name, &end.answer, later);
            after_ends(names, before, status)
        }
        _ => later,
    }
}

/// The same for one index.
fn after_end(name: Name, answer: &Result<(), Or<Strayed>>, later: Status) -> Status
    requires short { IsShort name }
    requires asked { ¬ (later ≡ Status.Usage) }
    requires names { NamesIndex later }
    ensures says { result ≡ after_end name answer.now later }
    ensures asked { ¬ (result ≡ Status.Usage) }
    ensures names { NamesIndex result }
{
    match answer {
        Ok(()) => later,
        Err(Or::NoMemory) => match later {
            Status::Done => Status::NoMemory,
            later => later,
        },
        Err(Or::Fault(strayed)) => Status::Strayed {
            index: name,
            strayed: *strayed,
        },
    }
}

/// Hands back what is left of stores, in the order in which they were opened.
fn hand_ends_back<H: Host>(ends: Vec<IndexEnd<H::Store>>, host: &mut H)
    requires { length (H.stores_back host.old) + length ends.items ≤ length (H.stores_given host.old) }
    ensures back { HandsBack H.Host (map (λ end. end.disk) ends.items) host.old host.new }
    ensures prints { KeepsPrints H.Host host.old host.new }
{
    'ends: for end in ends {
        let IndexEnd {
            disk,
            answer: _answer,
        } = end;
        host.give_back(disk);
    }
}
