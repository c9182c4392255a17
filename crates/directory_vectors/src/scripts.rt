//! Scripts of commits and jobs over an index without columns.
ghost use Rattle.std.specs.Prelude.{◌≡◌, [], IfSome, All};
ghost use Rattle.directory_vectors.specs.Ready.{IsStepOf, plain};
ghost use Rattle.doc_types.specs.Transactions.{IsOpOf, IsTxnOf};

use crate::step::Step;
use doc_types::{Doc, Schema, Txn, TxnOp};
use srch_base::{Items, Name};
use std::alloc::Global;
use step_history::Job;

/// The steps, and what is there when the store is opened after each, worked out by hand: how many documents, commits that no chunk
/// has, and chunks, and the documents, each with the number of the commit that put it. `=7` puts an id, `+7` inserts it, `-7`
/// removes it, and `*` removes all. Two insert an id that is there, so that they are refused. `flush` and `optimize` are whole
/// jobs. `[` begins one, which `]` ends with what was there when it began, and `{` another one, which `}` ends; that one is overtaken.
pub(crate) const SCRIPT: &str = "no step ⇒ 0 0 0
=7 ⇒ 1 1 0; 7 born 1
=8 =9 ⇒ 3 2 0; 7 born 1; 8 born 2; 9 born 2
flush ⇒ 3 0 1; 7 born 1; 8 born 2; 9 born 2
-7 ⇒ 2 1 1; 8 born 2; 9 born 2
=8 ⇒ 2 2 1; 8 born 4; 9 born 2
[optimize ⇒ 2 2 1; 8 born 4; 9 born 2
{flush ⇒ 2 2 1; 8 born 4; 9 born 2
=6 -9 ⇒ 2 3 1; 6 born 5; 8 born 4
* =5 ⇒ 1 4 1; 5 born 6
] ⇒ 1 2 1; 5 born 6
} ⇒ 1 2 1; 5 born 6
+5 ⇒ 1 2 1; 5 born 6
=6 -5 ⇒ 1 3 1; 6 born 7
flush ⇒ 1 0 2; 6 born 7
+5 +6 ⇒ 1 0 2; 6 born 7
-6 ⇒ 0 1 2
flush ⇒ 0 0 2
optimize ⇒ 0 0 0
=3 ⇒ 1 1 0; 3 born 9
";

/// How many steps the script has.
pub(crate) const STEPS: usize = 19;

/// Ten documents, a job that is let fail, one document more, and the job again.
pub(crate) const TWICE: &str = "no step
=1 =2 =3 =4 =5 =6 =7 =8 =9 =10
flush
=11
flush
";

/// All but one of these documents are removed, and a job is made.
pub(crate) const REST: &str = "no step
-2 -3 -4 -5 -6 -7 -8 -9 -10
flush
";

/// The most operations of a commit.
const MOST: usize = 1_000;

/// What is there after the first steps of the script.
pub(crate) fn left_after(steps: usize) -> Option<&'static str> {
    let (_, left) = SCRIPT.lines().nth(steps)?.split_once(" ⇒ ")?;
    Some(left)
}

/// The columns: there are none.
pub(crate) fn schema(alloc: Global) -> Schema
    ensures { result ≡ plain }
{
    Schema {
        name: Name::new(Vec::new(alloc)),
        fields: Items::new(Vec::new(alloc)),
        attrs: Items::new(Vec::new(alloc)),
        zones: Items::new(Vec::new(alloc)),
        sp: false,
        min_prefix: 0,
    }
}

/// A document that has only an id.
fn doc(alloc: Global, id: u64) -> Doc
    ensures { (result.fields ≡ []) × (result.values ≡ []) }
{
    Doc {
        id,
        fields: Items::new(Vec::new(alloc)),
        values: Items::new(Vec::new(alloc)),
    }
}

/// The operation that a word stands for.
fn op(alloc: Global, word: &str) -> Option<TxnOp>
    ensures { IfSome result (λ op. IsOpOf plain op) }
{
    if word == "*" {
        return Some(TxnOp::Clear);
    }
    let (sign, number) = word.split_at_checked(1)?;
    let id = number.parse::<u64>().ok()?;
    match sign {
        "+" => Some(TxnOp::Insert(doc(alloc, id))),
        "=" => Some(TxnOp::Put(doc(alloc, id))),
        "-" => Some(TxnOp::Kill(id)),
        _ => None,
    }
}

/// The transaction of a commit.
fn txn(alloc: Global, words: &str) -> Option<Txn>
    ensures { IfSome result (λ txn. IsTxnOf plain txn) }
{
    let mut ops = Vec::new(alloc);
    for word in words.split(' ') {
        ops.push(op(alloc, word)?).ok()?;
    }
    if ops.len() > MOST {
        return None;
    }
    Some(Txn {
        ops: Items::new(ops),
    })
}

/// The step of a line.
fn step(alloc: Global, words: &str) -> Option<Step>
    ensures { IfSome result (IsStepOf plain) }
{
    match words {
        "flush" => Some(Step::Job(Job::Flush)),
        "optimize" => Some(Step::Job(Job::Optimize)),
        "[optimize" => Some(Step::Begin {
            second: false,
            job: Job::Optimize,
        }),
        "{flush" => Some(Step::Begin {
            second: true,
            job: Job::Flush,
        }),
        "]" => Some(Step::End { second: false }),
        "}" => Some(Step::End { second: true }),
        _ => Some(Step::Commit(txn(alloc, words)?)),
    }
}

/// The first steps of a script.
pub(crate) fn first_steps(alloc: Global, script: &str, count: usize) -> Option<Vec<Step>>
    ensures { IfSome result (λ steps. All (IsStepOf plain) steps.items) }
{
    let mut steps = Vec::new(alloc);
    for line in script.lines().skip(1).take(count) {
        let (words, _) = line.split_once(" ⇒ ").unwrap_or((line, ""));
        let made = step(alloc, words)?;
        steps.push(made).ok()?;
    }
    Some(steps)
}
