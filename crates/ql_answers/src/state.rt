//! The state of a session: AUTOCOMMIT, its transaction, and what SHOW META tells.
ghost use Rattle.std.specs.Prelude.{◌≡◌, [], IsSome, None, OnErr, OnOk, Some};
ghost use Rattle.ql_answers.specs.States.{ended, finished, is_alone, is_open, kept, new_state, pending_txn, status_of, telling, turned};
ghost use Rattle.ql_answers.specs.Transactions.{write_fault};

use crate::meta::Meta;
use crate::pending::Pending;
use crate::turn::Turn;
use commit_outcomes::CommitOutcome;
use doc_types::Txn;
use srch_base::{Items, NoMemory};
use std::alloc::Global;
use std::mem;

/// What a session keeps between its statements.
#[derive(Drop)]
pub struct State {
    /// Whether AUTOCOMMIT is 1.
    pub autocommit: bool,
    /// Whether BEGIN opened a transaction.
    pub opened: bool,
    /// What waits for a commit.
    pub pending: Option<Pending>,
    /// What SHOW META tells.
    pub meta: Option<Meta>,
}

impl State {
    /// The state in which a session begins.
    pub(crate) fn new() -> State
        ensures { result ≡ new_state }
    {
        State {
            autocommit: true,
            opened: false,
            pending: None,
            meta: None,
        }
    }

    /// Whether a transaction is open: BEGIN opened it, or an operation is pending.
    pub(crate) fn is_open(&self) -> bool
        ensures { result ≡ is_open self.now }
    {
        self.opened || self.pending.is_some()
    }

    /// Whether each statement that writes is committed by itself.
    pub(crate) fn is_alone(&self) -> bool
        ensures { result ≡ is_alone self.now }
    {
        self.autocommit && !self.opened
    }

    /// The status that packets carry, after which another statement of the packet follows or not.
    pub(crate) fn status(&self, more: bool) -> u16
        ensures { result ≡ status_of self.now more }
    {
        let autocommit = if self.autocommit { 2 } else { 0 };
        let open = if self.is_open() { 1 } else { 0 };
        let follows = if more { 8 } else { 0 };
        autocommit + open + follows
    }

    /// The transaction is over.
    pub(crate) fn end(&mut self)
        ensures { self.new ≡ ended self.old }
    {
        self.opened = false;
        self.pending = None;
    }

    /// What a statement makes of the transaction.
    pub(crate) fn turn(&mut self, turn: Turn)
        ensures { self.new ≡ turned turn self.old }
    {
        match turn {
            Turn::Stays => {}
            Turn::Opens => {
                self.opened = true;
                self.pending = None;
            }
            Turn::Ends => self.end(),
            Turn::Sets(true) => {
                self.autocommit = true;
                self.end();
            }
            Turn::Sets(false) => self.autocommit = false,
        }
    }

    /// What is pending was to be committed, with this outcome. A commit that isn't acknowledged ends the transaction too.
    pub(crate) fn finish(&mut self, turn: Turn, outcome: CommitOutcome)
        ensures { self.new ≡ finished turn outcome self.old }
    {
        match outcome {
            CommitOutcome::Committed { .. } => self.turn(turn),
            CommitOutcome::Duplicate { .. }
            | CommitOutcome::Full(_)
            | CommitOutcome::Refused
            | CommitOutcome::InDoubt(_)
            | CommitOutcome::Strayed(_) => self.end(),
        }
    }

    /// SHOW META tells this from now on, if it is anything.
    pub(crate) fn tell(&mut self, told: Option<Meta>)
        ensures { self.new ≡ telling told self.old }
    {
        if let Some(meta) = told {
            self.meta = Some(meta);
        }
    }

    /// The transaction that is pending.
    pub(crate) fn waiting(&self) -> &Txn
        requires { IsSome self.now.pending }
        ensures { pending_txn self.now.pending ≡ Some result.now }
    {
        match &self.pending {
            Some(pending) => pending.txn(),
            None => unreachable!(),
        }
    }

    /// More operations are pending, which nothing forbids; the transaction that had them is left without any. After an `Err`
    /// all is as before.
    pub(crate) fn keep(&mut self, alloc: Global, place: u16, txn: &mut Txn) -> Result<(), NoMemory>
        requires { write_fault self.old place txn.old ≡ None }
        ensures ok { OnOk result ((self.new ≡ kept place txn.old.ops self.old) × (txn.new ≡ record { ops = [] })) }
        ensures err { OnErr result ((self.new ≡ self.old) × (txn.new ≡ txn.old)) }
    {
        match &mut self.pending {
            Some(pending) => pending.add(alloc, txn),
            None => {
                self.pending = Some(Pending::new(place, taken(alloc, txn)));
                Ok(())
            }
        }
    }
}

/// The operations of a transaction, which is left without any.
fn taken(alloc: Global, txn: &mut Txn) -> Txn
    ensures taken { result ≡ txn.old }
    ensures left { txn.new ≡ record { ops = [] } }
{
    let ops = mem::replace(&mut txn.ops, Items::new(Vec::new(alloc)));
    Txn { ops }
}
