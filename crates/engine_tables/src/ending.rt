//! How engines end: each with the tokens of all workers, which are collected where there was room for them before the workers
//! began.
ghost use Rattle.std.specs.Prelude.{◌≡◌, ◌≤◌, ◌<◌, ◌+◌, ◌++◌, ◌∷◌, [], All, IfOk, length, map, vec_capacity};
ghost use Rattle.std.specs.List.{flat_map};
ghost use Rattle.std.specs.Option.{option_to_list};
ghost use Rattle.step_line.specs.Lines.{new_line};
ghost use Rattle.store_keep.specs.Tellings.{AreTokensOf};
ghost use Rattle.snap_share.specs.Closings.{WorkersDiffer};
ghost use Rattle.engine_tables.specs.Endings.{CanEnd, HasEnded, HaveEnded};
ghost use Rattle.engine_tables.specs.Engines.{ArePlaced};
ghost use Rattle.engine_tables.specs.steps.Lasts.{last_told, last_token, shortened};
ghost use Rattle.engine_tables.specs.steps.Seats.{AreSeats};
ghost use Rattle.engine_tables.specs.Tokens.{AreOf};

use crate::table::Table;
use crate::{Ended, Engines, Tokens};
use chunk_store::Disk;
use commit_outcomes::Strayed;
use snap_share::Token;
use srch_base::NoMemory;
use std::alloc::Global;
use std::marker::Model;
use std::sync::Wait;
use step_book::Naming;

/// Where the tokens of workers that have ended are collected, with room for all and for what their engines leave.
pub struct Ending<D: Disk, J: Naming> {
    pub(crate) indexes: usize,
    pub(crate) workers: usize,
    pub(crate) seats: Vec<Tokens<J>>,
    /// One index's tokens of all workers, and what they were told of it.
    pub(crate) column: Vec<Token<J>>,
    pub(crate) told: Vec<Strayed>,
    pub(crate) ended: Vec<Ended<D, J>>,
}

impl<D: Disk, J: Naming> Model for Ending<D, J> {
    ghost use Rattle.std.specs.Prelude.{◌≡◌, ◌≤◌, [], length, vec_capacity};
    ghost use Rattle.engine_tables.specs.Endings.{EndingValue};
    ghost use Rattle.engine_tables.specs.steps.Rooms.{HasRoom};

    ghost Value = { EndingValue };

    ghost view = { λ e. record { indexes = e.indexes; workers = e.workers; seats = e.seats.items } };

    ghost invariant = { λ e. HasRoom e.indexes e.workers (vec_capacity e.seats) (vec_capacity e.column) (vec_capacity e.told) (vec_capacity e.ended) × (length e.seats.items ≤ e.workers) × (e.column.items ≡ []) × (e.ended.items ≡ []) × (e.told.items ≡ []) };
}

impl<D: Disk, J: Naming> Ending<D, J> {
    /// Room for so many indexes and workers.
    pub fn new(alloc: Global, indexes: usize, workers: u32) -> Result<Ending<D, J>, NoMemory>
        ensures { IfOk result (λ ending. ending ≡ record { indexes = indexes; workers = workers; seats = [] }) }
    {
        let workers = workers as usize;
        let seats = Vec::with_capacity(alloc, workers)?;
        let column = Vec::with_capacity(alloc, workers)?;
        let told = Vec::with_capacity(alloc, workers)?;
        let ended = Vec::with_capacity(alloc, indexes)?;
        Ok(Ending {
            indexes,
            workers,
            seats,
            column,
            told,
            ended,
        })
    }

    /// Puts the tokens of a worker that has ended behind those that are there.
    pub fn put(&mut self, tokens: Tokens<J>)
        requires { length self.old.seats < self.old.workers }
        ensures { self.new ≡ record self.old { seats = self.old.seats ++ tokens ∷ [] } }
    {
        self.seats.push_reserved(tokens);
    }
}

/// Puts a contradiction, if there is one, behind those that are there.
fn push_some(told: &mut Vec<Strayed>, one: Option<Strayed>)
    requires { length told.old.items < vec_capacity told.old }
    ensures told { told.new.items ≡ told.old.items ++ option_to_list one }
    ensures room { vec_capacity told.new ≡ vec_capacity told.old }
{
    if let Some(numbers) = one {
        told.push_reserved(numbers);
    }
}

/// Moves each worker's last token behind those that are there, and what it was told of the last index.
fn take_column<J: Naming>(
    place: usize,
    workers: u32,
    seats: &mut [Tokens<J>],
    column: &mut Vec<Token<J>>,
    told: &mut Vec<Strayed>,
)
    requires of { All (AreOf (place + 1) workers) seats.old }
    requires tokens { AreTokensOf (new_line place workers) column.old.items }
    requires room { length column.old.items + length seats.old ≤ vec_capacity column.old }
    requires told { length told.old.items + length seats.old ≤ vec_capacity told.old }
    ensures column { column.new.items ≡ column.old.items ++ flat_map last_token seats.old }
    ensures seats { seats.new ≡ map shortened seats.old }
    ensures tokens { AreTokensOf (new_line place workers) column.new.items }
    ensures owners { map (λ token. token.worker) column.new.items ≡ map (λ token. token.worker) column.old.items ++ map (λ seat. seat.worker) seats.old }
    ensures room { vec_capacity column.new ≡ vec_capacity column.old }
    ensures told { told.new.items ≡ told.old.items ++ flat_map last_told seats.old }
    ensures told_room { vec_capacity told.new ≡ vec_capacity told.old }
{
    if let Some((tokens, others)) = seats.split_first_mut() {
        let (token, one) = tokens.take_last();
        column.push_reserved(token);
        push_some(told, one);
        take_column(place, workers, others, column, told);
    }
}

/// Ends the engine of the index at a place with the tokens of all workers, and what they were told of it, both of which it lets go.
fn end_one<D: Disk, J: Naming, R: Wait>(
    rt: &R,
    place: usize,
    workers: u32,
    table: Table<D, J>,
    column: &mut Vec<Token<J>>,
    told: &mut Vec<Strayed>,
) -> Ended<D, J>
    requires engine { (table.engine.index ≡ place) × (table.engine.workers ≡ workers) }
    requires tokens { AreTokensOf (new_line place workers) column.old.items }
    requires differ { WorkersDiffer column.old.items }
    ensures ended { HasEnded D.Disk J.schema J.base J.opened place workers told.old.items column.old.items result }
    ensures column { (column.new.items ≡ []) × (vec_capacity column.new ≡ vec_capacity column.old) }
    ensures told { (told.new.items ≡ []) × (vec_capacity told.new ≡ vec_capacity told.old) }
{
    let engine = table.into_engine();
    let (disk, note, answer) = engine.close(rt, column.as_mut_slice(), told.as_slice());
    column.clear();
    told.clear();
    Ended {
        disk,
        note: Some(note),
        answer,
    }
}

/// Ends all engines, the last one first, each with the last tokens that are left.
pub(crate) fn end_all<D: Disk, J: Naming, R: Wait>(
    rt: &R,
    mut tables: Vec<Table<D, J>>,
    workers: u32,
    mut seats: Vec<Tokens<J>>,
    mut column: Vec<Token<J>>,
    mut told: Vec<Strayed>,
    ended: Vec<Ended<D, J>>,
) -> Vec<Ended<D, J>>
    requires placed { ArePlaced workers (map (λ table. table.engine) tables.items) }
    requires seats { AreSeats (length tables.items) workers seats.items }
    requires column { (column.items ≡ []) × (length seats.items ≤ vec_capacity column) }
    requires told { (told.items ≡ []) × (length seats.items ≤ vec_capacity told) }
    requires room { (ended.items ≡ []) × (length tables.items ≤ vec_capacity ended) }
    ensures ended { HaveEnded D.Disk J.schema J.base J.opened (length tables.items) workers seats.items result.items }
    ensures room { vec_capacity result ≡ vec_capacity ended }
{
    match tables.pop() {
        None => {
            tables.destroy_empty();
            ended
        }
        Some(table) => {
            let place = tables.len();
            take_column(place, workers, seats.as_mut_slice(), &mut column, &mut told);
            let one = end_one(rt, place, workers, table, &mut column, &mut told);
            let mut ended = end_all(rt, tables, workers, seats, column, told, ended);
            ended.push_reserved(one);
            ended
        }
    }
}

impl<D: Disk, J: Naming> Engines<D, J> {
    /// Ends all engines with the tokens of their workers, which have ended: of each there is its disk, a note of the whole history, and
    /// what its end answered, in the order of the configuration. It waits for those who still read.
    pub fn close<R: Wait>(self, rt: &R, ending: Ending<D, J>) -> Vec<Ended<D, J>>
        requires { CanEnd self ending }
        ensures { HaveEnded D.Disk J.schema J.base J.opened (length self.confs) self.workers ending.seats result.items }
    {
        let Engines { tables, workers } = self;
        let Ending {
            indexes: _indexes,
            workers: _workers,
            seats,
            column,
            told,
            ended,
        } = ending;
        end_all(rt, tables, workers, seats, column, told, ended)
    }
}
