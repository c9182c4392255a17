//! How engines are made one after the other, each with a token for each worker.
ghost use Rattle.std.specs.Prelude.{◌≡◌, ◌<◌, ◌≤◌, ◌+◌, ◌++◌, ◌∷◌, [], IfErr, IfOk, OnErr, OnOk, length, map, vec_capacity};
ghost use Rattle.store_keep.specs.Names.{first_tokens};
ghost use Rattle.engine_tables.specs.Engines.{ArePlaced};
ghost use Rattle.engine_tables.specs.Names.{IsRoomFor};
ghost use Rattle.engine_tables.specs.Tokens.{new_seats};
ghost use Rattle.engine_tables.specs.steps.Makings.{CanBeMade, CanGoOn, HaveAllEnded, IsNamedAt, Makes, MakesOne};

use crate::ending::end_all;
use crate::table::Table;
use crate::{Ended, Ending, Tokens};
use chunk_store::Disk;
use index_conf::IndexConf;
use snap_share::{Engine, Token};
use srch_base::{NoMemory, Or};
use std::alloc::Global;
use std::sync::Wait;
use step_book::Naming;
use store_keep::Opened;

/// Engines that were made, the tokens of each worker, and where these go in the end.
pub(crate) struct Made<D: Disk, J: Naming> {
    pub(crate) tables: Vec<Table<D, J>>,
    pub(crate) workers: u32,
    pub(crate) seats: Vec<Tokens<J>>,
    pub(crate) ending: Ending<D, J>,
}

/// How far it has come.
pub(crate) enum Making<D: Disk, J: Naming> {
    Going(Made<D, J>),
    /// Memory was refused: this is left of all.
    Stopped(Vec<Ended<D, J>>),
}

/// The seats of so many workers, which have no tokens yet.
pub(crate) fn seats_for<J: Naming>(alloc: Global, workers: u32) -> Result<Vec<Tokens<J>>, NoMemory>
    ensures { IfOk result (λ seats. seats.items ≡ new_seats 0 workers) }
{
    let mut seats = Vec::new(alloc);
    for count in 0..workers {
        seats.push(Tokens::none(alloc, count + 1))?;
    }
    Ok(seats)
}

/// Gives each worker its token of the next index. Out of memory, all tokens come back.
fn deal<J: Naming>(
    place: u16,
    seats: &mut [Tokens<J>],
    tokens: &mut Vec<Token<J>>,
) -> Result<(), NoMemory>
    requires seats { seats.old ≡ new_seats place (length seats.old) }
    requires tokens { tokens.old.items ≡ first_tokens place (length seats.old) }
    ensures ok { OnOk result (seats.new ≡ new_seats (place + 1) (length seats.old)) }
    ensures err { OnErr result ((seats.new ≡ seats.old) × (tokens.new.items ≡ tokens.old.items)) }
    ensures room { OnErr result (vec_capacity tokens.new ≡ vec_capacity tokens.old) }
{
    match seats.split_last_mut() {
        None => Ok(()),
        Some((seat, others)) => {
            let token = tokens.take_last();
            match seat.push(token) {
                Ok(()) => match deal(place, others, tokens) {
                    Ok(()) => Ok(()),
                    Err(NoMemory) => {
                        let (token, _told) = seat.take_last();
                        tokens.push_reserved(token);
                        Err(NoMemory)
                    }
                },
                Err(token) => {
                    tokens.push_reserved(token);
                    Err(NoMemory)
                }
            }
        }
    }
}

/// Ends engines that nobody has worked with.
fn stop<D: Disk, J: Naming, R: Wait>(
    rt: &R,
    tables: Vec<Table<D, J>>,
    workers: u32,
    seats: Vec<Tokens<J>>,
    ending: Ending<D, J>,
) -> Vec<Ended<D, J>>
    requires placed { ArePlaced workers (map (λ table. table.engine) tables.items) }
    requires seats { seats.items ≡ new_seats (length tables.items) workers }
    requires room { IsRoomFor (length tables.items) workers ending }
    ensures ended { HaveAllEnded D.Disk J.schema J.base J.opened (length tables.items) workers result.items }
    ensures room { ending.indexes ≤ vec_capacity result }
{
    let Ending {
        indexes: _indexes,
        workers: _workers,
        seats: _none,
        column,
        told,
        ended,
    } = ending;
    end_all(rt, tables, workers, seats, column, told, ended)
}

/// Ends engines that nobody has worked with, and one more behind them, whose tokens weren't dealt.
fn stop_with<D: Disk, J: Naming, R: Wait>(
    rt: &R,
    tables: Vec<Table<D, J>>,
    workers: u32,
    seats: Vec<Tokens<J>>,
    ending: Ending<D, J>,
    engine: Engine<D, J>,
    mut tokens: Vec<Token<J>>,
) -> Vec<Ended<D, J>>
    requires placed { ArePlaced workers (map (λ table. table.engine) tables.items) }
    requires seats { seats.items ≡ new_seats (length tables.items) workers }
    requires room { IsRoomFor (length tables.items + 1) workers ending }
    requires engine { (engine.index ≡ length tables.items) × (engine.workers ≡ workers) }
    requires tokens { tokens.items ≡ first_tokens engine.index workers }
    ensures ended { HaveAllEnded D.Disk J.schema J.base J.opened (length tables.items + 1) workers result.items }
    ensures room { ending.indexes ≤ vec_capacity result }
{
    let mut ended = stop(rt, tables, workers, seats, ending);
    let (disk, note, answer) = engine.close(rt, tokens.as_mut_slice(), &[]);
    ended.push_reserved(Ended {
        disk,
        note: Some(note),
        answer,
    });
    ended
}

/// Makes the engine of one index more.
fn make_one<D: Disk, J: Naming, R: Wait>(
    rt: &R,
    alloc: Global,
    made: Made<D, J>,
    conf: IndexConf,
    store: Opened<D>,
) -> Making<D, J>
    requires named { IsNamedAt D.Disk J.book J.faults J.stops J.schema J.base J.opened (length made.tables.items) conf store }
    requires made { CanGoOn made }
    ensures { MakesOne D.Disk J.schema J.base J.opened made conf store result }
{
    let Made {
        mut tables,
        workers,
        mut seats,
        ending,
    } = made;
    let place = tables.len() as u16;
    match Engine::named(rt, alloc, store, place, workers) {
        Ok((engine, mut tokens)) => match deal(place, seats.as_mut_slice(), &mut tokens) {
            Ok(()) => {
                tables.push_reserved(Table::new(conf, engine));
                Making::Going(Made {
                    tables,
                    workers,
                    seats,
                    ending,
                })
            }
            Err(NoMemory) => {
                Making::Stopped(stop_with(rt, tables, workers, seats, ending, engine, tokens))
            }
        },
        Err(disk) => {
            let mut ended = stop(rt, tables, workers, seats, ending);
            ended.push_reserved(Ended {
                disk,
                note: None,
                answer: Err(Or::NoMemory),
            });
            Making::Stopped(ended)
        }
    }
}

/// Makes all engines. Where it stops, the disks of the stores that follow come back as they are.
pub(crate) fn make_all<D: Disk, J: Naming, R: Wait>(
    rt: &R,
    alloc: Global,
    none: Made<D, J>,
    mut confs: Vec<IndexConf>,
    mut stores: Vec<Opened<D>>,
) -> Making<D, J>
    requires { CanBeMade D.Disk J.book J.faults J.stops J.schema J.base J.opened confs.items stores.items none }
    ensures { Makes D.Disk J.schema J.base J.opened confs.items stores.items none result }
{
    match confs.pop() {
        None => {
            stores.destroy_empty();
            Making::Going(none)
        }
        Some(conf) => {
            let store = stores.take_last();
            match make_all(rt, alloc, none, confs, stores) {
                Making::Going(made) => make_one(rt, alloc, made, conf, store),
                Making::Stopped(mut ended) => {
                    ended.push_reserved(Ended {
                        disk: store.into_disk(),
                        note: None,
                        answer: Err(Or::NoMemory),
                    });
                    Making::Stopped(ended)
                }
            }
        }
    }
}

/// The disks of stores of which no engine was made.
pub(crate) fn give_back<D: Disk, J: Naming>(
    mut stores: Vec<Opened<D>>,
    ended: Vec<Ended<D, J>>,
) -> Vec<Ended<D, J>>
    requires none { ended.items ≡ [] }
    requires room { length stores.items ≤ vec_capacity ended }
    ensures disks { map (λ ended. ended.disk) result.items ≡ map (λ store. store.disk) stores.items }
    ensures room { vec_capacity result ≡ vec_capacity ended }
{
    match stores.pop() {
        None => {
            stores.destroy_empty();
            ended
        }
        Some(store) => {
            let mut ended = give_back(stores, ended);
            ended.push_reserved(Ended {
                disk: store.into_disk(),
                note: None,
                answer: Err(Or::NoMemory),
            });
            ended
        }
    }
}
