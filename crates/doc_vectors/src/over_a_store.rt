//! Commits of a store, which puts layers together: what each comes to, and each row of each layer after it.
ghost use Rattle.std.specs.Prelude.{◌≡◌};
ghost use Rattle.doc_vectors.specs.steps.Plain.{plain};

use crate::outcomes::{put_count, put_outcome};
use crate::scripts::{schema, txn};
use crate::store::PlainStore;
use std::alloc::Global;

/// A transaction and what becomes of it, as over layers. A layer more than half of whose rows are dead becomes one with those
/// behind it, and so does one with four times its living rows behind it.
pub(crate) const STORED: &str = "
+1 +2 +3 +4 +5 ⇒ 0 removed, 1 / 1@1 2@1 3@1 4@1 5@1
-1 -2 ⇒ 2 removed, 2 / (1@1) (2@1) 3@1 4@1 5@1
+3 ⇒ 3 is there
-3 ⇒ 1 removed, 3 / 4@1 5@1
=4 ⇒ 0 removed, 4 / (4@1) 5@1 / 4@4
-5 ⇒ 1 removed, 5 / 4@4
=4 ⇒ 0 removed, 6 / 4@6
+1 +2 ⇒ 0 removed, 7 / 4@6 / 1@7 2@7
+3 +5 +6 ⇒ 0 removed, 8 / 1@7 2@7 3@8 4@6 5@8 6@8
-2 ⇒ 1 removed, 9 / 1@7 (2@7) 3@8 4@6 5@8 6@8
-6 -5 +9 ⇒ 2 removed, 10 / 1@7 (2@7) 3@8 4@6 (5@8) (6@8) / 9@10
-3 -9 +1 ⇒ 1 is there
-1 -3 +9 ⇒ 9 is there
-1 =3 ⇒ 1 removed, 11 / 3@11 4@6 9@10
+10 +11 +12 +13 ⇒ 0 removed, 12 / 3@11 4@6 9@10 / 10@12 11@12 12@12 13@12
+22 ⇒ 0 removed, 13 / 3@11 4@6 9@10 / 10@12 11@12 12@12 13@12 / 22@13
+23 +24 +25 +26 ⇒ 0 removed, 14 / 3@11 4@6 9@10 / 10@12 11@12 12@12 13@12 / 22@13 23@14 24@14 25@14 26@14
* +1 ⇒ 0 removed, 15 / 1@15
* ⇒ 0 removed, 16
";

/// Ids that are inserted one by one, of which a commit is told by how many ids it removed, its number, the shape, which stays in
/// memory, and how many layers there are: four layers behind one of their size make one of them all.
pub(crate) const INSERTED: &str = "
+5 ⇒ 0 removed, 1 of shape 0 with 1
+5 ⇒ 5 is there
+9 ⇒ 0 removed, 2 of shape 0 with 2
+8 ⇒ 0 removed, 3 of shape 0 with 3
+7 ⇒ 0 removed, 4 of shape 0 with 4
+6 ⇒ 0 removed, 5 of shape 0 with 1
+4 ⇒ 0 removed, 6 of shape 0 with 2
+3 ⇒ 0 removed, 7 of shape 0 with 3
+2 ⇒ 0 removed, 8 of shape 0 with 4
+1 ⇒ 0 removed, 9 of shape 0 with 5
+20 ⇒ 0 removed, 10 of shape 0 with 2
+19 ⇒ 0 removed, 11 of shape 0 with 3
+18 ⇒ 0 removed, 12 of shape 0 with 4
+17 ⇒ 0 removed, 13 of shape 0 with 5
+16 ⇒ 0 removed, 14 of shape 0 with 6
+15 ⇒ 0 removed, 15 of shape 0 with 3
+14 ⇒ 0 removed, 16 of shape 0 with 4
+21 ⇒ 0 removed, 17 of shape 0 with 5
+22 ⇒ 0 removed, 18 of shape 0 with 6
+23 ⇒ 0 removed, 19 of shape 0 with 7
+24 ⇒ 0 removed, 20 of shape 0 with 4
+25 ⇒ 0 removed, 21 of shape 0 with 5
+26 ⇒ 0 removed, 22 of shape 0 with 6
+27 ⇒ 0 removed, 23 of shape 0 with 7
+28 ⇒ 0 removed, 24 of shape 0 with 8
+29 ⇒ 0 removed, 25 of shape 0 with 1
+9 ⇒ 9 is there
+30 ⇒ 0 removed, 26 of shape 0 with 2
";

/// What is told of layers.
pub(crate) enum Layers {
    /// Each row of each.
    Told,
    /// How many there are.
    Counted,
}

/// Appends what becomes of a transaction, with its layers or how many there are.
fn put_commit(
    alloc: Global,
    store: &mut PlainStore,
    text: &str,
    layers: &Layers,
    told: &mut String,
) -> Option<()>
    requires { store.old.schema ≡ plain }
    ensures { store.new.schema ≡ plain }
{
    let txn = txn(alloc, text)?;
    let outcome = store.commit(alloc, &txn).ok()?;
    match layers {
        Layers::Told => put_outcome(outcome, store.snapshot(), told),
        Layers::Counted => put_count(outcome, store.snapshot(), told),
    }
}

/// Whether of the transaction of a line becomes what stands behind it.
fn follows(
    alloc: Global,
    store: &mut PlainStore,
    line: &str,
    layers: &Layers,
    told: &mut String,
) -> bool
    requires { store.old.schema ≡ plain }
    ensures { store.new.schema ≡ plain }
{
    told.clear();
    match line.split_once(" ⇒ ") {
        Some((text, wanted)) => {
            put_commit(alloc, store, text, layers, told).is_some() && told.as_str() == wanted
        }
        None => false,
    }
}

/// The first line of a table that a new store doesn't follow.
pub(crate) fn wrong_of_a_store(
    alloc: Global,
    table: &'static str,
    layers: &Layers,
    told: &mut String,
) -> Option<&'static str> {
    let Ok(mut store) = PlainStore::new(alloc, &schema(alloc)) else {
        return Some("no store");
    };
    for line in table.lines().skip(1) {
        if !follows(alloc, &mut store, line, layers, told) {
            return Some(line);
        }
    }
    None
}
