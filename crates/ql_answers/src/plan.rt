//! What a statement wants, by its text, the configuration and the session's state alone.
ghost use Rattle.std.specs.Prelude.{◌≡◌};
ghost use Rattle.ql_answers.specs.Sessions.{need_of};
ghost use Rattle.ql_answers.specs.Transactions.{affected};

use crate::event::Need;
use crate::turn::Turn;
use doc_types::Txn;
use ql_select::Selection;
use reply_rows::ResultSet;
use step_history::Job;

/// What a statement wants of the outside, with what its reply needs beside that.
pub enum Plan {
    /// Nothing: it is answered OK, and the transaction turns so.
    Agree(Turn),
    /// Nothing: this is shown.
    Show(ResultSet),
    /// What a SELECT asks of an index.
    Search {
        index: u16,
        selection: Selection,
    },
    /// How many documents and disk chunks an index has.
    Status {
        index: u16,
    },
    /// Nothing: these operations are pending from now on, and so many rows are affected.
    Keep {
        index: u16,
        txn: Txn,
        affected: u64,
    },
    /// A commit of these operations by themselves.
    Put {
        index: u16,
        txn: Txn,
        counted: Counted,
    },
    /// A commit of what is pending; then the transaction turns so.
    Commit {
        index: u16,
        turn: Turn,
    },
    /// A job over an index.
    Reshape {
        index: u16,
        job: Job,
    },
}

/// What the rows are that a statement affects.
#[derive(Clone, Copy, PartialEq, Eq)]
pub enum Counted {
    /// The rows of its text.
    Rows,
    /// The ids that were there and are no more.
    Removed,
    /// None.
    Nothing,
}

// Not derived: so letting go of a plan is a call, and no caller's proof takes its kinds apart.
impl Drop for Plan {
    fn drop(self) {
        match self {
            Plan::Agree(_) => {}
            Plan::Show(_set) => {}
            Plan::Search {
                index: _,
                selection: _selection,
            } => {}
            Plan::Status { index: _ } => {}
            Plan::Keep {
                index: _,
                txn: _txn,
                affected: _,
            } => {}
            Plan::Put {
                index: _,
                txn: _txn,
                counted: _,
            } => {}
            Plan::Commit { index: _, turn: _ } => {}
            Plan::Reshape { index: _, job: _ } => {}
        }
    }
}

impl Plan {
    /// What it wants of the outside.
    pub(crate) fn need(&self) -> Need
        ensures { result ≡ need_of self.now }
    {
        match self {
            Plan::Agree(_) | Plan::Show(_) | Plan::Keep { .. } => Need::Nothing,
            Plan::Search { index, .. } | Plan::Status { index } => Need::Read(*index),
            Plan::Put { index, .. } | Plan::Commit { index, .. } => Need::Commit(*index),
            Plan::Reshape { index, job } => Need::Reshape(*index, *job),
        }
    }
}

/// How many rows are affected, of so many rows of the text and so many ids that were removed.
pub(crate) fn affected(counted: Counted, rows: u64, removed: u64) -> u64
    ensures { result ≡ affected counted rows removed }
{
    match counted {
        Counted::Rows => rows,
        Counted::Removed => removed,
        Counted::Nothing => 0,
    }
}
