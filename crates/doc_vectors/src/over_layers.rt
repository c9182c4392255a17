//! Commits over layers, of which none are put together: what each comes to, and each row of each layer after it.
ghost use Rattle.std.specs.Prelude.{◌≡◌, ◌<◌, ◌^◌};
ghost use Rattle.doc_types.specs.Transactions.{IsTxnOf};
ghost use Rattle.doc_vectors.specs.steps.Plain.{plain};

use crate::outcomes::put_outcome;
use crate::scripts::txn;
use commit_outcomes::CommitOutcome;
use doc_types::{PlainChunk, Snapshot, Txn};
use layer_commit::{Refusal, commit};
use srch_base::{Items, Or};
use std::alloc::Global;

/// The most documents that may be there.
const LIMIT: u64 = 6;

/// A transaction, and what becomes of it: how many ids it removed, the number of the commit and the layers, where dead rows stand
/// in parentheses; or why it is refused, so that all is as before.
const COMMITS: &str = "
+1 +2 +3 ⇒ 0 removed, 1 / 1@1 2@1 3@1
+4 +2 +5 ⇒ 2 is there
+4 +4 ⇒ 4 is there
+5 +1 +2 ⇒ 1 is there
+1 +5 +6 ⇒ 1 is there
+5 +6 +3 ⇒ 3 is there
+4 -4 +4 ⇒ 1 removed, 2 / 1@1 2@1 3@1 / 4@2
-9 ⇒ 0 removed, 3 / 1@1 2@1 3@1 / 4@2
-2 -2 ⇒ 1 removed, 4 / 1@1 (2@1) 3@1 / 4@2
=2 =2 ⇒ 0 removed, 5 / 1@1 (2@1) 3@1 / 4@2 / 2@5
=1 ⇒ 0 removed, 6 / (1@1) (2@1) 3@1 / 4@2 / 2@5 / 1@6
-3 +3 ⇒ 1 removed, 7 / 4@2 / 2@5 / 1@6 / 3@7
+5 +1 ⇒ 1 is there
+9 +8 +7 ⇒ full at 4 needs 3
+8 +7 ⇒ 0 removed, 8 / 4@2 / 2@5 / 1@6 / 3@7 / 7@8 8@8
+9 ⇒ full at 6 needs 1
+9 +1 ⇒ 1 is there
=8 =7 -4 +9 ⇒ 1 removed, 9 / 2@5 / 1@6 / 3@7 / 7@9 8@9 9@9
-9 -3 -1 ⇒ 3 removed, 10 / 2@5 / 7@9 8@9 (9@9)
-7 =8 +7 ⇒ 1 removed, 11 / 2@5 / 7@11 8@11
* ⇒ 0 removed, 12
+1 * +1 ⇒ 0 removed, 13 / 1@13
-1 * -1 +2 ⇒ 1 removed, 14 / 2@14
=2 +2 ⇒ 2 is there
-2 =2 -2 ⇒ 2 removed, 15
-5 +5 +5 ⇒ 5 is there
+1 +2 +3 +4 +5 +6 +7 ⇒ full at 0 needs 7
+1 +2 +3 +4 +5 +6 * ⇒ 0 removed, 16
";

/// Commits a transaction, and gives what a store would.
fn commit_layers(
    alloc: Global,
    snapshot: &mut Snapshot<PlainChunk>,
    txn: &Txn,
) -> Option<CommitOutcome>
    requires { IsTxnOf plain txn.now }
{
    match commit(alloc, snapshot, txn, LIMIT) {
        Ok((next, removed)) => {
            *snapshot = next;
            Some(CommitOutcome::Committed { removed })
        }
        Err(Or::Fault(Refusal::Duplicate { id })) => Some(CommitOutcome::Duplicate { id }),
        Err(Or::Fault(Refusal::Full(full))) => Some(CommitOutcome::Full(full)),
        Err(Or::NoMemory) => None,
    }
}

/// Appends what becomes of a transaction.
fn put_commit(
    alloc: Global,
    snapshot: &mut Snapshot<PlainChunk>,
    text: &str,
    told: &mut String,
) -> Option<()> {
    let txn = txn(alloc, text)?;
    let outcome = commit_layers(alloc, snapshot, &txn)?;
    put_outcome(outcome, snapshot, told)
}

/// Whether of the transaction of a line becomes what stands behind it.
fn follows(
    alloc: Global,
    snapshot: &mut Snapshot<PlainChunk>,
    line: &str,
    told: &mut String,
) -> bool {
    told.clear();
    match line.split_once(" ⇒ ") {
        Some((text, wanted)) => {
            put_commit(alloc, snapshot, text, told).is_some() && told.as_str() == wanted
        }
        None => false,
    }
}

/// The first line of which something else becomes.
pub(crate) fn wrong_over_layers(alloc: Global, told: &mut String) -> Option<&'static str> {
    let mut snapshot = Snapshot {
        number: 0,
        shape: 0,
        layers: Items::new(Vec::new(alloc)),
    };
    for line in COMMITS.lines().skip(1) {
        if !follows(alloc, &mut snapshot, line, told) {
            return Some(line);
        }
    }
    None
}
