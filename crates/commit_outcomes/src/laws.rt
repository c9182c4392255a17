//! A law of the definitions. The function does nothing: its contract is the law.
ghost use Rattle.std.specs.Prelude.{◌≡◌, List};
ghost use Rattle.doc_types.specs.Snapshots.{SnapshotValue};
ghost use Rattle.doc_types.specs.declared.transactions.TxnOp.{TxnOp};
ghost use Rattle.commit_outcomes.specs.Outcomes.{Leaves, SameRows};
ghost use Rattle.commit_outcomes.specs.declared.outcome.CommitOutcome.{CommitOutcome};

/// The same operations over the same documents have one outcome and leave the same documents, however layers hold them.
pub fn a_commit_has_one_outcome()
    ensures outcome { (ops : List TxnOp) (old other new left : SnapshotValue) (a b : CommitOutcome) → SameRows old other → Leaves ops old a new → Leaves ops other b left → a ≡ b }
    ensures rows { (ops : List TxnOp) (old other new left : SnapshotValue) (a b : CommitOutcome) → SameRows old other → Leaves ops old a new → Leaves ops other b left → SameRows new left }
{}
