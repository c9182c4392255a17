//! How a value is shown to readers. `left_right` keeps two copies: what is appended is taken into the one that no reader reads,
//! and then the copies change places.
ghost use Rattle.std.specs.Prelude.{◌≡◌, MatchResult, OnErr, OnOk, IfOk, drop};
ghost use Rattle.std.specs.Arc.{arc_value};
ghost use Rattle.step_history.specs.History.{last_snapshot};
ghost use Rattle.step_tokens.specs.Shows.{IsShown};
ghost use Rattle.step_line.specs.steps.Queues.{longer, queued};

use crate::pending::Waiting;
use core::mem::replace_with;
use doc_types::Snapshot;
use image_chunk::AnyChunk;
use left_right::writer::Writer;
use srch_base::NoMemory;
use std::alloc::{AllocError, Global};
use std::sync::{Arc, Wait};
use step_book::{Book, Front, Naming, Turn};
use step_tokens::{Idle, Rises, Shown, Shows};

/// The writing end of an index.
pub type WritingEnd<J> = Writer<Shown, Shown, Idle, Rises<J>>;

/// Shows readers what was appended.
fn show<J: Naming, R: Wait>(end: WritingEnd<J>, rt: &R) -> (WritingEnd<J>, Result<(), AllocError>)
    requires { IsShown J.book J.schema J.base (queued end.desk.shown.value (drop end.behind end.log.items)) }
    ensures { MatchResult result.1 (λ _. result.0.desk.shown.value ≡ queued end.desk.shown.value (drop end.behind end.log.items)) (λ _. result.0.desk.shown.value ≡ end.desk.shown.value) }
{
    end.publish_as::<Shows, R>(rt)
}

/// Publishes a value. Where an earlier one was appended and not shown, it is passed over.
#[tactic(auto, using(crate::proofs::Lasts::queued_one))]
fn send<J: Naming, R: Wait>(end: &mut WritingEnd<J>, rt: &R, next: Shown) -> Result<(), NoMemory>
    requires { IsShown J.book J.schema J.base next }
    ensures ok { OnOk result (end.new.desk.shown.value ≡ next) }
    ensures err { OnErr result (end.new.desk.shown.value ≡ end.old.desk.shown.value) }
{
    match end.append(next) {
        Ok(()) => {}
        Err(_) => return Err(NoMemory),
    }
    replace_with(
        end,
        rt,
        |end: WritingEnd<J>, rt: &R| -> (WritingEnd<J>, Result<(), AllocError>)
            requires { IsShown J.book J.schema J.base (queued end.desk.shown.value (drop end.behind end.log.items)) }
        { show(end, rt) },
    )?;
    Ok(())
}

/// Publishes a step: the front with it, and the snapshot after it.
#[tactic(auto, using(crate::proofs::Lasts::last_one))]
fn show_step<J: Naming, R: Wait>(
    end: &mut WritingEnd<J>,
    rt: &R,
    waiting: &Waiting<J>,
) -> Result<(Front<J>, Arc<Snapshot<AnyChunk>, Global>), NoMemory>
    ensures next { IfOk result (λ r. r.0 ≡ longer waiting.now.from waiting.now.step) }
    ensures last { IfOk result (λ r. arc_value r.1 ≡ last_snapshot (J.base r.0.index) r.0.steps) }
    ensures shown { IfOk result (λ r. end.new.desk.shown.value ≡ record { index = r.0.index; snapshot = last_snapshot (J.base r.0.index) r.0.steps; book = J.book r.0.index; steps = r.0.steps }) }
    ensures err { OnErr result (end.new.desk.shown.value ≡ end.old.desk.shown.value) }
{
    let next = waiting.entered().again();
    let last = waiting.snapshot()?;
    let again = Arc::try_clone(&last)?;
    send(end, rt, Shown::new(again, &next))?;
    Ok((next, last))
}

/// What the line is once a step was published.
#[derive(Drop)]
pub(crate) struct Next<J: Naming> {
    pub(crate) front: Front<J>,
    pub(crate) snapshot: Arc<Snapshot<AnyChunk>, Global>,
    /// The right to add the step behind it.
    pub(crate) turn: Turn<J>,
}

/// Publishes a step that waits, once there is the right to add the one behind it.
pub(crate) fn show_next<J: Naming, R: Wait>(
    end: &mut WritingEnd<J>,
    rt: &R,
    book: &Book<J>,
    waiting: &mut Waiting<J>,
) -> Result<Next<J>, NoMemory>
    requires { book.now.index ≡ waiting.old.from.index }
    ensures next { IfOk result (λ r. r.front ≡ longer waiting.old.from waiting.old.step) }
    ensures turn { IfOk result (λ r. r.turn ≡ r.front) }
    ensures last { IfOk result (λ r. arc_value r.snapshot ≡ last_snapshot (J.base r.front.index) r.front.steps) }
    ensures shown { IfOk result (λ r. end.new.desk.shown.value ≡ record { index = r.front.index; snapshot = last_snapshot (J.base r.front.index) r.front.steps; book = J.book r.front.index; steps = r.front.steps }) }
    ensures err { OnErr result (end.new.desk.shown.value ≡ end.old.desk.shown.value) }
    ensures same { waiting.new ≡ waiting.old }
{
    let turn = waiting.turn(book);
    match turn {
        None => Err(NoMemory),
        Some(turn) => match show_step(end, rt, waiting) {
            Ok((front, snapshot)) => Ok(Next {
                front,
                snapshot,
                turn,
            }),
            Err(NoMemory) => {
                waiting.keep(turn);
                Err(NoMemory)
            }
        },
    }
}
