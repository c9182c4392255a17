//! What is replied to a plan by what happened, a function for each kind of event: OK with the number of rows, a refusal,
//! or a result set. Only events that the plan can have come here, so that no reply is made up for others. Result sets alone
//! take memory.
ghost use Rattle.std.specs.FinMap as finite;
ghost use Rattle.std.specs.Prelude.{◌≡◌, ℕ, IfOk, None, OnErr, OnOk, Some, false};
ghost use Rattle.reply_rows.specs.ResultSets.{sets_payloads};
ghost use Rattle.reply_rows.specs.Written.{IsOpen, then_reply};
ghost use Rattle.doc_types.specs.Snapshots.{all_living, live};
ghost use Rattle.ql_answers.specs.declared.plan.Plan.TheVariants.{Search};
ghost use Rattle.ql_answers.specs.Metas.{max_matches, meta_of};
ghost use Rattle.ql_answers.specs.Reading.{found_sets};
ghost use Rattle.ql_answers.specs.Replies.{Shows, replied};
ghost use Rattle.ql_answers.specs.Sessions.{CanHave, CanSearch, Committing, Nothing, Read, Reshaping, disk_count, happened_by, reply_to_commit, reply_to_job};
ghost use Rattle.ql_answers.specs.Showing.{index_status};
ghost use Rattle.ql_answers.specs.steps.Answering.{Says, SaysPlan, refusal_of};

use crate::event::Event;
use crate::found::put_found;
use crate::job_outcome::JobOutcome;
use crate::meta::Meta;
use crate::plan::{Counted, Plan, affected};
use crate::refusing::put_refusal;
use crate::showing::index_status;
use commit_outcomes::{CommitOutcome, Doubt};
use doc_types::{HitLists, Snapshot};
use ql_refusals::{
    Refusal, disk_failed, disk_in_doubt, duplicate_id, index_full, job_in_doubt, memory_in_doubt,
    no_memory, overtaken, rank_out_of_range, strayed, too_many_prefix_words,
};
use ql_select::Selection;
use reply_rows::Replies;
use srch_base::{NoMemory, Or};
use std::alloc::Global;
use table_search::{Asked, Found, Table, Unfound, find_tables, word_docs};

/// Replies to a plan, and gives what SHOW META tells from then on, where that is something else. The plan stays as it is.
pub(crate) fn say<C: HitLists>(
    alloc: Global,
    plan: &mut Plan,
    event: &Event<'_, C>,
    status: u16,
    replies: &mut Replies,
) -> Result<Option<Meta>, NoMemory>
    requires can { CanHave plan.old (happened_by event.now) }
    requires open { IsOpen replies.old }
    ensures stays { plan.new ≡ plan.old }
    ensures says { SaysPlan plan.old (happened_by event.now) status result replies.old replies.new }
{
    match event {
        Event::Nothing => say_nothing(alloc, plan, status, replies),
        Event::NoMemory => {
            put_refusal(&no_memory(), replies);
            Ok(None)
        }
        Event::Read(snapshot) => say_read(alloc, plan, snapshot, status, replies),
        Event::Commit(outcome) => {
            say_commit(plan, *outcome, status, replies);
            Ok(None)
        }
        Event::Reshape(outcome) => {
            say_job(plan, *outcome, status, replies);
            Ok(None)
        }
    }
}

fn say_nothing(
    alloc: Global,
    plan: &Plan,
    status: u16,
    replies: &mut Replies,
) -> Result<Option<Meta>, NoMemory>
    requires can { CanHave plan.now Nothing }
    requires open { IsOpen replies.old }
    ensures { SaysPlan plan.now Nothing status result replies.old replies.new }
{
    match plan {
        Plan::Agree(_) => {
            replies.put_ok(0, status);
            Ok(None)
        }
        Plan::Show(set) => {
            replies.put_set(alloc, set, status)?;
            Ok(None)
        }
        Plan::Keep { affected, .. } => {
            replies.put_ok(*affected, status);
            Ok(None)
        }
        Plan::Search { .. }
        | Plan::Status { .. }
        | Plan::Put { .. }
        | Plan::Commit { .. }
        | Plan::Reshape { .. } => unreachable!(),
    }
}

fn say_read<C: HitLists>(
    alloc: Global,
    plan: &mut Plan,
    snapshot: &Snapshot<C>,
    status: u16,
    replies: &mut Replies,
) -> Result<Option<Meta>, NoMemory>
    requires can { CanHave plan.old (Read snapshot.now) }
    requires open { IsOpen replies.old }
    ensures stays { plan.new ≡ plan.old }
    ensures says { SaysPlan plan.old (Read snapshot.now) status result replies.old replies.new }
{
    match plan {
        Plan::Search { selection, .. } => say_search(alloc, selection, snapshot, status, replies),
        Plan::Status { .. } => {
            say_status(alloc, snapshot, status, replies)?;
            Ok(None)
        }
        Plan::Agree(_)
        | Plan::Show(_)
        | Plan::Keep { .. }
        | Plan::Put { .. }
        | Plan::Commit { .. }
        | Plan::Reshape { .. } => unreachable!(),
    }
}

/// Replies to a SELECT with what it finds, or with the refusal of prefixes that have too many words, or of a document that has no
/// weight.
fn say_search<C: HitLists>(
    alloc: Global,
    selection: &mut Selection,
    snapshot: &Snapshot<C>,
    status: u16,
    replies: &mut Replies,
) -> Result<Option<Meta>, NoMemory>
    requires can { CanSearch selection.old.asked.question snapshot.now }
    requires open { IsOpen replies.old }
    ensures stays { selection.new ≡ selection.old }
    ensures says { (index : ℕ) → SaysPlan (Search index selection.old) (Read snapshot.now) status result replies.old replies.new }
{
    match find_tables(alloc, &mut selection.asked, snapshot) {
        Ok(found) => say_found(alloc, selection, &found, snapshot, status, replies),
        Err(Or::NoMemory) => Err(NoMemory),
        Err(Or::Fault(unfound)) => {
            put_refusal(&unfound_refusal(unfound), replies);
            Ok(None)
        }
    }
}

/// The refusal of a SELECT by the documents of its index.
fn unfound_refusal(unfound: Unfound) -> Refusal
    ensures { result ≡ refusal_of unfound }
{
    match unfound {
        Unfound::TooManyWords(count) => too_many_prefix_words(count),
        Unfound::NoWeight(id) => rank_out_of_range(id),
    }
}

/// Replies to a SELECT with what was found, and gives what SHOW META tells of it.
fn say_found<C: HitLists>(
    alloc: Global,
    selection: &Selection,
    found: &Found,
    snapshot: &Snapshot<C>,
    status: u16,
    replies: &mut Replies,
) -> Result<Option<Meta>, NoMemory>
    requires { IsOpen replies.old }
    ensures told { IfOk result (λ told. told ≡ Some (meta_of selection.now.asked found.now (all_living snapshot.now.layers))) }
    ensures ok { OnOk result (replies.new ≡ then_reply replies.old (sets_payloads status (found_sets selection.now found.now)) false) }
    ensures err { OnErr result (replies.new ≡ replies.old) }
{
    let meta = meta_of(alloc, &selection.asked, found, snapshot)?;
    put_found(alloc, selection, found, status, replies)?;
    Ok(Some(meta))
}

/// Replies to SHOW INDEX STATUS.
fn say_status<C: HitLists>(
    alloc: Global,
    snapshot: &Snapshot<C>,
    status: u16,
    replies: &mut Replies,
) -> Result<(), NoMemory>
    requires { IsOpen replies.old }
    ensures ok { OnOk result (replies.new ≡ replied replies.old status (Shows (index_status (finite.len (live snapshot.now)) (disk_count snapshot.now)))) }
    ensures err { OnErr result (replies.new ≡ replies.old) }
{
    let documents = u64::from(snapshot.live_count());
    let set = index_status(alloc, documents, u64::from(snapshot.disk_chunks()))?;
    replies.put_set(alloc, &set, status)
}

/// What SHOW META tells of a SELECT.
fn meta_of<C: HitLists>(
    alloc: Global,
    asked: &Asked,
    found: &Found,
    snapshot: &Snapshot<C>,
) -> Result<Meta, NoMemory>
    ensures { IfOk result (λ meta. meta ≡ meta_of asked.now found.now (all_living snapshot.now.layers)) }
{
    let total_found = found.total_found;
    Ok(Meta {
        total: total_found.min(u64::from(max_matches(asked))),
        total_found,
        words: word_docs(alloc, &asked.question.query, snapshot)?,
    })
}

/// How many rows or groups there are for the page.
fn max_matches(asked: &Asked) -> u32
    ensures { result ≡ max_matches asked.now }
{
    match &asked.table {
        Table::Rows => asked.question.page.max_matches,
        Table::Groups(table) => table.page.page.max_matches,
    }
}

fn say_commit(plan: &Plan, outcome: CommitOutcome, status: u16, replies: &mut Replies)
    requires can { CanHave plan.now (Committing outcome) }
    requires open { IsOpen replies.old }
    ensures { Says plan.now (Committing outcome) status None replies.old replies.new }
{
    match plan {
        Plan::Put { txn, counted, .. } => {
            reply_to_commit(*counted, txn.ops.len() as u64, outcome, status, replies);
        }
        Plan::Commit { .. } => reply_to_commit(Counted::Nothing, 0, outcome, status, replies),
        Plan::Agree(_)
        | Plan::Show(_)
        | Plan::Search { .. }
        | Plan::Status { .. }
        | Plan::Keep { .. }
        | Plan::Reshape { .. } => unreachable!(),
    }
}

/// What is replied to a commit that so many rows of a text asked for.
fn reply_to_commit(
    counted: Counted,
    rows: u64,
    outcome: CommitOutcome,
    status: u16,
    replies: &mut Replies,
)
    requires { IsOpen replies.old }
    ensures { replies.new ≡ replied replies.old status (reply_to_commit counted rows outcome) }
{
    match outcome {
        CommitOutcome::Committed { removed } => {
            replies.put_ok(affected(counted, rows, u64::from(removed)), status);
        }
        CommitOutcome::Duplicate { id } => put_refusal(&duplicate_id(id), replies),
        CommitOutcome::Full(full) => put_refusal(&index_full(full), replies),
        CommitOutcome::Refused => put_refusal(&disk_failed(), replies),
        CommitOutcome::InDoubt(Doubt::Disk) => put_refusal(&disk_in_doubt(), replies),
        CommitOutcome::InDoubt(Doubt::Memory) => put_refusal(&memory_in_doubt(), replies),
        CommitOutcome::Strayed(numbers) => put_refusal(&strayed(numbers), replies),
    }
}

fn say_job(plan: &Plan, outcome: JobOutcome, status: u16, replies: &mut Replies)
    requires can { CanHave plan.now (Reshaping outcome) }
    requires open { IsOpen replies.old }
    ensures { Says plan.now (Reshaping outcome) status None replies.old replies.new }
{
    match plan {
        Plan::Reshape { .. } => reply_to_job(outcome, status, replies),
        Plan::Agree(_)
        | Plan::Show(_)
        | Plan::Search { .. }
        | Plan::Status { .. }
        | Plan::Keep { .. }
        | Plan::Put { .. }
        | Plan::Commit { .. } => unreachable!(),
    }
}

/// What is replied to a job.
fn reply_to_job(outcome: JobOutcome, status: u16, replies: &mut Replies)
    requires { IsOpen replies.old }
    ensures { replies.new ≡ replied replies.old status (reply_to_job outcome) }
{
    match outcome {
        JobOutcome::Shaped => replies.put_ok(0, status),
        JobOutcome::Overtaken { shape } => put_refusal(&overtaken(shape), replies),
        JobOutcome::Full(full) => put_refusal(&index_full(full), replies),
        JobOutcome::Refused => put_refusal(&disk_failed(), replies),
        JobOutcome::InDoubt => put_refusal(&job_in_doubt(), replies),
        JobOutcome::Strayed(numbers) => put_refusal(&strayed(numbers), replies),
    }
}
