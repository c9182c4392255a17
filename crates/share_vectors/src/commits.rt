//! Insertions into an index without columns, and what all workers know of them in the end.
ghost use Rattle.std.specs.Prelude.{◌≡◌, ◌==◌, [], false, map, IfOk};
ghost use Rattle.std.specs.List.{AllByRecursion};
ghost use Rattle.std.specs.Bool.{IsTrue};
ghost use Rattle.doc_types.specs.Transactions.{IsTxnOf};
ghost use Rattle.share_vectors.specs.Users.{IsUser, plain};
ghost use Rattle.snap_share.specs.Closings.{WorkersDiffer};
ghost use Rattle.snap_share.specs.Lines.{new_line};
ghost use Rattle.snap_share.specs.Tellings.{AreTokensOf};

use chunk_store::Disk;
use doc_types::{Doc, Schema, Txn, TxnOp};
use snap_share::{CommitFault, Committed, Engine, Naming, Token};
use srch_base::{Items, Name, NoMemory};
use std::alloc::Global;
use std::sync::Wait;

/// The columns: there are none.
pub(crate) fn schema(alloc: Global) -> Schema
    ensures { result ≡ plain }
{
    Schema {
        name: Name::new(Vec::new(alloc)),
        fields: Items::new(Vec::new(alloc)),
        attrs: Items::new(Vec::new(alloc)),
        zones: Items::new(Vec::new(alloc)),
        sp: false,
        min_prefix: 0,
    }
}

/// A transaction that inserts a document which has only an id.
fn insertion(alloc: Global, id: u64) -> Result<Txn, NoMemory>
    ensures { IfOk result (λ txn. IsTxnOf plain txn) }
{
    let doc = Doc {
        id,
        fields: Items::new(Vec::new(alloc)),
        values: Items::new(Vec::new(alloc)),
    };
    let mut ops = Vec::new(alloc);
    ops.push(TxnOp::Insert(doc))?;
    Ok(Txn {
        ops: Items::new(ops),
    })
}

/// Commits an insertion.
pub(crate) fn insert<D: Disk, J: Naming, R: Wait>(
    rt: &R,
    alloc: Global,
    engine: &Engine<D, J>,
    token: &mut Token<J>,
    id: u64,
) -> Result<Committed<J>, CommitFault<J>>
    requires { IsUser J.schema engine.now token.old }
    ensures user { IsUser J.schema engine.now token.new }
    ensures note { IfOk result (λ made. made.note.index ≡ engine.now.index) }
{
    match insertion(alloc, id) {
        Ok(txn) => engine.commit(rt, token.worker(), token, &txn),
        Err(NoMemory) => Err(CommitFault::NoMemory),
    }
}

/// Whether the worker has none of the tokens.
fn has_none<J: Naming>(worker: u32, tokens: &[Token<J>]) -> bool
    ensures { IsTrue result → AllByRecursion (λ other. (worker == other) ≡ false) (map (λ token. token.worker) tokens.now) }
{
    match tokens.split_first() {
        None => true,
        Some((token, others)) => worker != token.worker() && has_none(worker, others),
    }
}

/// Whether no two of the tokens are of one worker.
#[tactic(auto, using(crate::proofs::Differ::none_differ, crate::proofs::Differ::one_more_differs))]
fn workers_differ<J: Naming>(tokens: &[Token<J>]) -> bool
    ensures { IsTrue result → WorkersDiffer tokens.now }
{
    match tokens.split_first() {
        None => true,
        Some((token, others)) => has_none(token.worker(), others) && workers_differ(others),
    }
}

/// Ends an engine with its tokens: how many steps its history has, where that was told.
#[tactic(auto, using(crate::proofs::Differ::none_differ))]
pub(crate) fn end<D: Disk + Drop, J: Naming, R: Wait>(
    rt: &R,
    engine: Engine<D, J>,
    tokens: &mut [Token<J>],
) -> Option<u64>
    requires { AreTokensOf (new_line engine.index engine.workers) tokens.old }
{
    if !workers_differ(tokens) {
        let (none, _tokens) = tokens.split_at_mut(0);
        let (_disk, _note, _answer) = engine.close(rt, none, &[]);
        return None;
    }
    let (_disk, note, answer) = engine.close(rt, tokens, &[]);
    match answer {
        Ok(()) => Some(note.len()),
        Err(_) => None,
    }
}

/// Whether an engine ended with a history of so many commits, each token has seen all of them, and each worker made so many of them.
pub(crate) fn have_all<J: Naming>(
    steps: Option<u64>,
    tokens: &[Token<J>],
    all: u64,
    own: u64,
) -> bool {
    let mut right = steps == Some(all);
    for token in tokens {
        if token.len() != all || token.made() != own {
            right = false;
        }
    }
    right
}
