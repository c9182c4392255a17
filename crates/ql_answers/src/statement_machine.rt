//! The statement machine: what is kept between a client's statements, and the two calls that answer one.
//!
//! `need` says what a statement wants, or why it is refused; then the caller does it, and `reply` says what came of it. The
//! machine knows no store: what the reply uses of the configuration it keeps between the two calls.
ghost use Rattle.std.specs.Prelude.{◌≡◌, IsSome, Some};
ghost use Rattle.std.specs.Option.{IsSomeAnd};
ghost use Rattle.reply_rows.specs.Written.{IsOpen};
ghost use Rattle.ql_answers.specs.Sessions.{CanHave, at_rest, happened_by, pending_of};
ghost use Rattle.ql_answers.specs.Sessions.{Needs, Replied};
ghost use Rattle.ql_answers.specs.States.{new_state, status_of};
ghost use Rattle.ql_answers.specs.steps.Turning.{Answered, CanKeep, Turned};

use crate::event::{Event, Need};
use crate::indexes::Catalog;
use crate::plan::Plan;
use crate::planning::plan;
use crate::saying::say;
use crate::state::State;
use doc_types::{HitLists, Txn};
use ql_refusals::Refusal;
use ql_tree::Statement;
use reply_rows::Replies;
use srch_base::{NoMemory, Or};
use std::alloc::Global;
use std::marker::Model;

/// One client's statement machine: a session without a store. Contracts see it as a `Standing`.
pub struct StatementMachine {
    state: State,
    plan: Option<Plan>,
}

impl Model for StatementMachine {
    ghost use Rattle.std.specs.Coded.{codes};
    ghost use Rattle.query_tree.specs.contracts.query.Node as node;
    ghost use Rattle.rank_expr.specs.contracts.expr.Expr as expr;
    ghost use Rattle.ql_answers.specs.Sessions.{Standing};
    ghost use Rattle.ql_answers.specs.steps.Turning.{CanKeepAny};

    ghost Value = { Standing };

    ghost coded = { Prim.hlevel (codes, node.the_row.coded, expr.the_row.coded) };

    ghost view = { λ machine. record { state = machine.state; plan = machine.plan } };

    ghost invariant = { λ machine. CanKeepAny machine.state machine.plan };
}

// Not derived: so letting go of a machine is a call, and no caller's proof takes apart what its statement wants.
impl Drop for StatementMachine {
    fn drop(self) {
        let StatementMachine {
            state: _state,
            plan: _plan,
        } = self;
    }
}

impl StatementMachine {
    /// The machine of a session that begins: autocommit is 1.
    pub fn new() -> StatementMachine
        ensures { result ≡ at_rest new_state }
    {
        StatementMachine {
            state: State::new(),
            plan: None,
        }
    }

    /// The status of a packet, after which another statement of the packet follows or not.
    pub fn status(&self, more: bool) -> u16
        ensures { result ≡ status_of self.now.state more }
    {
        self.state.status(more)
    }

    /// What a statement wants. After `Ok` the machine waits for what came of it, and keeps what the reply uses of the
    /// configuration; after an `Err` nothing is wanted.
    pub fn need<T: Catalog>(
        &mut self,
        alloc: Global,
        statement: &Statement,
        catalog: &T,
    ) -> Result<Need, Or<Refusal>>
        ensures { Needs (T.confs catalog.now) self.old statement.now result self.new }
    {
        self.plan = None;
        let plan = plan(alloc, catalog, &self.state, statement)?;
        let need = plan.need();
        self.plan = Some(plan);
        Ok(need)
    }

    /// The transaction that the last `need` wants to be committed.
    pub fn pending(&self) -> &Txn
        requires { IsSomeAnd self.now.plan (λ plan. IsSome (pending_of self.now.state plan)) }
        ensures { IsSomeAnd self.now.plan (λ plan. pending_of self.now.state plan ≡ Some result.now) }
    {
        match &self.plan {
            Some(Plan::Put { txn, .. }) => txn,
            Some(Plan::Commit { .. }) => self.state.waiting(),
            _ => unreachable!(),
        }
    }

    /// Replies to the statement of the last `need`. `more` says that another statement of the packet follows.
    ///
    /// Result sets take memory, and operations that are pending from then on. After NoMemory the machine and the replies are as
    /// before.
    pub fn reply<C: HitLists>(
        &mut self,
        alloc: Global,
        _statement: &Statement,
        event: &Event<'_, C>,
        more: bool,
        replies: &mut Replies,
    ) -> Result<(), NoMemory>
        requires can { IsSomeAnd self.old.plan (λ plan. CanHave plan (happened_by event.now)) }
        requires open { IsOpen replies.old }
        ensures { Replied self.old (happened_by event.now) more result replies.old replies.new self.new }
    {
        match &mut self.plan {
            Some(plan) => answer(alloc, &mut self.state, plan, event, more, replies)?,
            None => unreachable!(),
        }
        self.plan = None;
        Ok(())
    }
}

/// Replies to a plan, and changes the state as what came of the plan says.
fn answer<C: HitLists>(
    alloc: Global,
    state: &mut State,
    plan: &mut Plan,
    event: &Event<'_, C>,
    more: bool,
    replies: &mut Replies,
) -> Result<(), NoMemory>
    requires keeps { CanKeep state.old plan.old }
    requires can { CanHave plan.old (happened_by event.now) }
    requires open { IsOpen replies.old }
    ensures { Answered plan.old (happened_by event.now) more result state.old state.new plan.new replies.old replies.new }
{
    turn(alloc, state, plan, event)?;
    let told = say(alloc, plan, event, state.status(more), replies)?;
    state.tell(told);
    Ok(())
}

/// Changes the state as what came of a plan says. Operations that are pending from now on leave the plan.
fn turn<C: HitLists>(
    alloc: Global,
    state: &mut State,
    plan: &mut Plan,
    event: &Event<'_, C>,
) -> Result<(), NoMemory>
    requires { CanKeep state.old plan.old }
    ensures { Turned plan.old (happened_by event.now) result state.old state.new plan.new }
{
    match plan {
        Plan::Agree(turn) => {
            if let Event::Nothing = event {
                state.turn(*turn);
            }
        }
        Plan::Keep { index, txn, .. } => {
            if let Event::Nothing = event {
                state.keep(alloc, *index, txn)?;
            }
        }
        Plan::Commit { turn, .. } => {
            if let Event::Commit(outcome) = event {
                state.finish(*turn, *outcome);
            }
        }
        Plan::Show(_)
        | Plan::Search { .. }
        | Plan::Status { .. }
        | Plan::Put { .. }
        | Plan::Reshape { .. } => {}
    }
    Ok(())
}
