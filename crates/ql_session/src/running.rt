//! Running statements: what each needs is asked of the store, and what came of it is replied.
ghost use Rattle.std.specs.Prelude.{◌≡◌, ◌≤◌, false, length};
ghost use Rattle.std.specs.Option.{IsSomeAnd};
ghost use Rattle.reply_rows.specs.Written.{IsOpen};
ghost use Rattle.ql_answers.specs.Sessions.{CanHave, happened_by};
ghost use Rattle.ql_session.specs.Fitting.{Fits};
ghost use Rattle.ql_session.specs.steps.Running.{IsAt, RepliesPlan, Runs, RunsAll};

use crate::TableStore;
use doc_types::HitLists;
use ql_answers::{Event, Need, StatementMachine, put_refusal};
use ql_refusals::no_memory;
use ql_tree::Statement;
use reply_rows::Replies;
use srch_base::{NoMemory, Or};
use std::alloc::Global;
use step_history::Job;

/// Runs statements one after another, up to the first that is refused.
pub(crate) fn run_all<T: TableStore>(
    alloc: Global,
    machine: &mut StatementMachine,
    tables: &mut T,
    statements: &[Statement],
    replies: &mut Replies,
)
    requires open { replies.old.refused ≡ false }
    requires room { length statements.now ≤ replies.old.room }
    requires fits { Fits (T.confs tables.old) machine.old.state }
    ensures runs { RunsAll T.confs T.words tables.old machine.old.state statements.now tables.new machine.new.state replies.old replies.new }
    ensures fits { Fits (T.confs tables.new) machine.new.state }
    ensures confs { T.confs tables.new ≡ T.confs tables.old }
{
    match statements.split_first() {
        None => {}
        Some((statement, rest)) => {
            let more = !rest.is_empty();
            run(alloc, machine, tables, statement, more, replies);
            if !replies.is_refused() {
                run_all(alloc, machine, tables, rest, replies);
            }
        }
    }
}

/// Runs a statement.
fn run<T: TableStore>(
    alloc: Global,
    machine: &mut StatementMachine,
    tables: &mut T,
    statement: &Statement,
    more: bool,
    replies: &mut Replies,
)
    requires open { IsOpen replies.old }
    requires fits { Fits (T.confs tables.old) machine.old.state }
    ensures { Runs T.confs T.words tables.old machine.old.state statement.now more tables.new machine.new.state replies.old replies.new }
{
    match machine.need(alloc, statement, tables) {
        Ok(Need::Nothing) => acknowledge(alloc, machine, tables, statement, more, replies),
        Ok(Need::Read(place)) => read(alloc, machine, tables, statement, place, more, replies),
        Ok(Need::Commit(place)) => commit(alloc, machine, tables, statement, place, more, replies),
        Ok(Need::Reshape(place, job)) => {
            reshape(alloc, machine, tables, statement, place, job, more, replies)
        }
        Err(Or::NoMemory) => put_refusal(&no_memory(), replies),
        Err(Or::Fault(refusal)) => put_refusal(&refusal, replies),
    }
}

/// Replies to a statement that needs nothing of the store.
fn acknowledge<T: TableStore>(
    alloc: Global,
    machine: &mut StatementMachine,
    _tables: &T,
    statement: &Statement,
    more: bool,
    replies: &mut Replies,
)
    requires at { IsAt (T.confs _tables.now) statement.now machine.old Need.Nothing }
    requires open { IsOpen replies.old }
    ensures { Runs T.confs T.words _tables.now machine.old.state statement.now more _tables.now machine.new.state replies.old replies.new }
{
    let event: Event<'_, T::Chunk> = Event::Nothing;
    reply(alloc, machine, statement, &event, more, replies)
}

/// Reads the index that a statement needs, and replies to it.
fn read<T: TableStore>(
    alloc: Global,
    machine: &mut StatementMachine,
    tables: &mut T,
    statement: &Statement,
    place: u16,
    more: bool,
    replies: &mut Replies,
)
    requires at { IsAt (T.confs tables.old) statement.now machine.old (Need.Read place) }
    requires open { IsOpen replies.old }
    ensures { Runs T.confs T.words tables.old machine.old.state statement.now more tables.new machine.new.state replies.old replies.new }
{
    match tables.front(place) {
        Ok(front) => {
            let event = Event::Read(&front);
            reply(alloc, machine, statement, &event, more, replies)
        }
        Err(NoMemory) => {
            let event: Event<'_, T::Chunk> = Event::NoMemory;
            reply(alloc, machine, statement, &event, more, replies)
        }
    }
}

/// Commits what a statement wants to be committed, and replies to what came of it.
fn commit<T: TableStore>(
    alloc: Global,
    machine: &mut StatementMachine,
    tables: &mut T,
    statement: &Statement,
    place: u16,
    more: bool,
    replies: &mut Replies,
)
    requires at { IsAt (T.confs tables.old) statement.now machine.old (Need.Commit place) }
    requires open { IsOpen replies.old }
    requires fits { Fits (T.confs tables.old) machine.old.state }
    ensures { Runs T.confs T.words tables.old machine.old.state statement.now more tables.new machine.new.state replies.old replies.new }
{
    match tables.commit(alloc, place, machine.pending()) {
        Ok(outcome) => {
            let event: Event<'_, T::Chunk> = Event::Commit(outcome);
            reply(alloc, machine, statement, &event, more, replies)
        }
        Err(NoMemory) => {
            let event: Event<'_, T::Chunk> = Event::NoMemory;
            reply(alloc, machine, statement, &event, more, replies)
        }
    }
}

/// Does the job that a statement wants, and replies to what came of it.
fn reshape<T: TableStore>(
    alloc: Global,
    machine: &mut StatementMachine,
    tables: &mut T,
    statement: &Statement,
    place: u16,
    job: Job,
    more: bool,
    replies: &mut Replies,
)
    requires at { IsAt (T.confs tables.old) statement.now machine.old (Need.Reshape place job) }
    requires open { IsOpen replies.old }
    ensures { Runs T.confs T.words tables.old machine.old.state statement.now more tables.new machine.new.state replies.old replies.new }
{
    match tables.reshape(alloc, place, job) {
        Ok(outcome) => {
            let event: Event<'_, T::Chunk> = Event::Reshape(outcome);
            reply(alloc, machine, statement, &event, more, replies)
        }
        Err(NoMemory) => {
            let event: Event<'_, T::Chunk> = Event::NoMemory;
            reply(alloc, machine, statement, &event, more, replies)
        }
    }
}

/// Replies to what came of a statement; where memory for that is refused, this is the reply.
fn reply<C: HitLists>(
    alloc: Global,
    machine: &mut StatementMachine,
    statement: &Statement,
    event: &Event<'_, C>,
    more: bool,
    replies: &mut Replies,
)
    requires can { IsSomeAnd machine.old.plan (λ plan. CanHave plan (happened_by event.now)) }
    requires open { IsOpen replies.old }
    ensures { RepliesPlan machine.old (happened_by event.now) more machine.new.state replies.old replies.new }
{
    match machine.reply(alloc, statement, event, more, replies) {
        Ok(()) => {}
        Err(NoMemory) => put_refusal(&no_memory(), replies),
    }
}
