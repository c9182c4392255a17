//! Laws that tie the definitions of this crate to each other. Each is a function with an empty body: its clauses are the law.
ghost use Rattle.std.specs.Prelude.{◌≡◌, ◌≢◌, ℕ, List, [], ◌∷◌, ◌++◌, All, None, Some, map, true, if◌then◌else◌};
ghost use Rattle.std.specs.FinMap as finite;
ghost use Rattle.doc_types.specs.Commits.{Accepted, Change, Clear, Duplicate, Entry, Kill, Put, after, after_change, change_of, verdict, with_change};
ghost use Rattle.doc_types.specs.Examples.{Contents, document, exchanged, exchanges, insertions, put_by, seventh, three};
ghost use Rattle.doc_types.specs.Numbers.{FitsNumbers, OpFits};
ghost use Rattle.doc_types.specs.Rows.{Rows, rows_of};
ghost use Rattle.doc_types.specs.declared.documents.Doc.{Doc};
ghost use Rattle.doc_types.specs.declared.transactions.TxnOp.{TxnOp};
ghost use Rattle.doc_types.specs.declared.transactions.TxnOp.TheVariants as operations;
ghost use Rattle.doc_types.specs.Schemas.{IsSchema};
ghost use Rattle.doc_types.specs.Snapshots.{LayerValue, live};
ghost use Rattle.doc_types.specs.Transactions.{IsTxnOf};

use crate::chunk::Chunk;
use crate::schema::Schema;
use crate::snapshot::Snapshot;
use crate::transactions::Txn;

/// The rows of a snapshot of one layer in which none is dead are the rows of that layer.
pub fn one_whole_layer<C: Chunk>(snapshot: &Snapshot<C>)
    ghost layer: { LayerValue }
    requires one { snapshot.now.layers ≡ layer ∷ [] }
    requires whole { layer.dead ≡ [] }
    ensures { live snapshot.now ≡ rows_of layer.rows }
{}

/// The rows after some commits and then others are those after all of them, in their order.
pub fn commits_in_a_row()
    ensures { (rows : Rows) (first later : List Entry) → after rows (first ++ later) ≡ after (after rows first) later }
{}

/// A clearing leaves no row.
pub fn nothing_is_left_by_clear()
    ensures { (number : ℕ) (rows : Rows) → after_change number rows Clear ≡ finite.empty }
{}

/// An insertion of an id that is there refuses the whole transaction.
pub fn a_live_id_is_refused()
    ensures { (rows : Rows) (doc : Doc) (ops : List TxnOp) → finite.contains_key rows doc.id ≡ true → verdict (operations.Insert doc ∷ ops) rows ≡ Duplicate doc.id }
{}

/// A put sets the row of its id, a kill removes it, and both leave the rows of all other ids.
pub fn a_change_is_of_one_id()
    ensures put { (number : ℕ) (rows : Rows) (doc : Doc) → finite.get (after_change number rows (Put doc)) doc.id ≡ Some (put_by number doc) }
    ensures killed { (number : ℕ) (rows : Rows) (id : ℕ) → finite.get (after_change number rows (Kill id)) id ≡ None }
    ensures put_others { (number : ℕ) (rows : Rows) (doc : Doc) (id : ℕ) → id ≢ doc.id → finite.get (after_change number rows (Put doc)) id ≡ finite.get rows id }
    ensures killed_others { (number : ℕ) (rows : Rows) (killed id : ℕ) → id ≢ killed → finite.get (after_change number rows (Kill killed)) id ≡ finite.get rows id }
{}

/// Each operation is tried over the rows after those before it. So a kill counts as removed where its id is there at its place,
/// and an id that is killed twice counts once.
pub fn operations_are_tried_in_order()
    ensures insert { (number : ℕ) (rows : Rows) (doc : Doc) (ops : List TxnOp) → verdict (operations.Insert doc ∷ ops) rows ≡ (if finite.contains_key rows doc.id then Duplicate doc.id else with_change (Put doc) 0 (verdict ops (after_change number rows (Put doc)))) }
    ensures put { (number : ℕ) (rows : Rows) (doc : Doc) (ops : List TxnOp) → verdict (operations.Put doc ∷ ops) rows ≡ with_change (Put doc) 0 (verdict ops (after_change number rows (Put doc))) }
    ensures kill { (number : ℕ) (rows : Rows) (id : ℕ) (ops : List TxnOp) → verdict (operations.Kill id ∷ ops) rows ≡ with_change (Kill id) (if finite.contains_key rows id then 1 else 0) (verdict ops (after_change number rows (Kill id))) }
    ensures clear { (number : ℕ) (rows : Rows) (ops : List TxnOp) → verdict (operations.Clear ∷ ops) rows ≡ with_change Clear 0 (verdict ops (after_change number rows Clear)) }
    ensures killed_twice { (rows : Rows) (id : ℕ) → verdict (operations.Kill id ∷ operations.Kill id ∷ []) rows ≡ Accepted (Kill id ∷ Kill id ∷ []) (if finite.contains_key rows id then 1 else 0) }
{}

/// A transaction that is accepted does what its operations are, in their order: an insertion is a put.
pub fn what_is_accepted_are_the_operations()
    ensures { (rows : Rows) (ops : List TxnOp) (changes : List Change) (removed : ℕ) → verdict ops rows ≡ Accepted changes removed → changes ≡ map change_of ops }
{}

/// An example: where the documents 1, 2 and 3 are there, insertions of 8, 1 and 9 are refused as a duplicate of 1. Where 2 is
/// killed before it is inserted, and 4 and 2 are killed then, two kills found their ids. After a kill of 2 and a put of 8 there
/// is 1 as it was, 8 as it was put, and no 2.
pub fn an_example_of_commits()
    ensures refused { (has : Contents) → verdict (insertions has) (three has) ≡ Duplicate 1 }
    ensures accepted { (has : Contents) → verdict (exchanges has) (three has) ≡ Accepted (exchanged has) 2 }
    ensures first { (has : Contents) → finite.get (after (three has) (seventh has ∷ [])) 1 ≡ Some (put_by 1 (document has 1)) }
    ensures second { (has : Contents) → finite.get (after (three has) (seventh has ∷ [])) 2 ≡ None }
    ensures eighth { (has : Contents) → finite.get (after (three has) (seventh has ∷ [])) 8 ≡ Some (put_by 7 (document has 8)) }
{}

/// The numbers of a chunk's rows fit: columns in 16 bits, the bytes of a word in 8, the spans of a row in 32. The words of a field
/// have positions from 1 to `MAX_POSITION`, and are no more than these.
pub fn numbers_of_rows_fit<C: Chunk>(chunk: &C)
    ensures { All (λ row. FitsNumbers row.doc) (C.content chunk.now) }
{}

/// The numbers of a transaction's documents fit, where it is of a schema.
pub fn numbers_of_operations_fit(schema: &Schema, txn: &Txn)
    requires limits { IsSchema schema.now }
    requires operations { IsTxnOf schema.now txn.now }
    ensures { All OpFits txn.now.ops }
{}
