//! Lengths of transactions by the layout of a log's payload, and copies that equal what they copy.

use crate::documents::{cut, rows_of};
use doc_types::{Doc, DocRow, Txn, TxnOp, txn_bytes};
use srch_base::Items;
use std::alloc::Global;

/// Transactions over the ten documents, and how many bytes they take in a log, worked out by hand: `+0` inserts the document of row 0,
/// `=0` puts it, `-5` deletes the id 5, and `*` clears all. One of no operation takes 4; one that puts a document 45 and, for each
/// word, 2 and its bytes, and 12 for each span.
pub(crate) const OF_DOCUMENTS: &str = "\
=0 ⇒ 64
 ⇒ 4
=1 ⇒ 65
=2 ⇒ 82
=3 ⇒ 95
=4 ⇒ 95
=5 ⇒ 86
=6 ⇒ 71
=7 ⇒ 113
=8 ⇒ 45
=9 ⇒ 87
* +0 +1 +2 +3 +4 +5 +6 +7 +8 +9 -5 ⇒ 777
";

/// One that puts `hello world` as the one field of a document without values, as a log's record of it has.
pub(crate) const OF_HELLO_WORLD: &str = "=0 ⇒ 35\n";

/// One of all four kinds of operations.
pub(crate) const OF_EACH_KIND: &str = "* +0 =1 -7 ⇒ 150\n";

/// The copy of a row, where it is the same.
fn copy_of(row: &DocRow) -> Option<DocRow> {
    match row.clone() {
        Ok(copy) if copy == *row => Some(copy),
        _ => None,
    }
}

/// The document of a row with this number, where its copy is the same.
fn doc_at(rows: &[DocRow], number: &str) -> Option<Doc> {
    let row = rows.get(number.parse::<usize>().ok()?)?;
    Some(copy_of(row)?.doc)
}

/// The operation that a word stands for.
fn op_of(rows: &[DocRow], word: &str) -> Option<TxnOp> {
    match word.split_at_checked(1) {
        Some(("*", _)) => Some(TxnOp::Clear),
        Some(("+", number)) => Some(TxnOp::Insert(doc_at(rows, number)?)),
        Some(("=", number)) => Some(TxnOp::Put(doc_at(rows, number)?)),
        Some(("-", number)) => Some(TxnOp::Kill(number.parse::<u64>().ok()?)),
        _ => None,
    }
}

/// The transaction of these words.
fn txn_of(alloc: Global, rows: &[DocRow], words: &str) -> Option<Txn> {
    let mut ops = Vec::new(alloc);
    for word in words.split_whitespace() {
        ops.push(op_of(rows, word)?).ok()?;
    }
    Some(Txn {
        ops: Items::new(ops),
    })
}

/// Whether a transaction takes so many bytes, and its copy is the same.
fn is_copied(txn: &Txn, bytes: u64) -> bool {
    match txn.clone() {
        Ok(copy) => copy == *txn && txn_bytes(txn) == bytes,
        Err(_) => false,
    }
}

/// Whether the transaction of a line does.
fn takes(alloc: Global, rows: &[DocRow], line: &str) -> Option<bool> {
    let (words, bytes) = cut(line, " ⇒ ");
    let bytes = bytes.parse::<u64>().ok()?;
    let txn = txn_of(alloc, rows, words)?;
    Some(is_copied(&txn, bytes))
}

/// None where one of a table doesn't; then its line is said.
fn all_take(alloc: Global, rows: &[DocRow], table: &str, said: &mut String) -> Option<()> {
    for line in table.lines() {
        if takes(alloc, rows, line) != Some(true) {
            said.push_str(line).ok()?;
            return None;
        }
    }
    Some(())
}

/// None where one of a table over its documents takes another number of bytes, or its copy isn't the same; then its line is said.
pub(crate) fn transactions_take(
    alloc: Global,
    documents: &str,
    fields: usize,
    attrs: u16,
    table: &str,
    said: &mut String,
) -> Option<()> {
    let rows = rows_of(alloc, documents, fields, attrs)?;
    all_take(alloc, rows.as_slice(), table, said)
}
