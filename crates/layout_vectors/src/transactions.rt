//! Transactions as texts.
use doc_types::{Doc, FieldTokens, Gap, TokenWord, Txn, TxnOp, Value};
use std::str;

fn put_word(token: &TokenWord, into: &mut String) -> Option<()> {
    let gap = match token.gap {
        Gap::None => "",
        Gap::Sentence => ".",
        Gap::Paragraph => "!",
    };
    let word = str::from_utf8(token.word.as_bytes()).ok()?;
    let position = token.position;
    write!(into, "{gap}{word}@{position} ").ok()
}

/// Tells words, or how many there are, and the last of them, where they are many.
fn put_words(words: &[TokenWord], into: &mut String) -> Option<()> {
    if words.len() > 20 {
        let count = words.len();
        write!(into, "{count} words up to ").ok()?;
        return put_word(words.last()?, into);
    }
    for token in words {
        put_word(token, into)?;
    }
    Some(())
}

fn put_field(field: &FieldTokens, into: &mut String) -> Option<()> {
    into.push_str(" {").ok()?;
    put_words(field.words.as_slice(), into)?;
    for span in field.spans.as_slice() {
        let (zone, first, last) = (span.zone, span.first, span.last);
        write!(into, "{zone}:{first}-{last} ").ok()?;
    }
    into.push('}').ok()
}

/// Tells what is done with a document, and the document.
fn put_doc(what: &str, doc: &Doc, into: &mut String) -> Option<()> {
    let id = doc.id;
    write!(into, "{what} {id} [").ok()?;
    for value in doc.values.as_slice() {
        let Value::Whole(number) = value;
        write!(into, "{number} ").ok()?;
    }
    into.push(']').ok()?;
    for field in doc.fields.as_slice() {
        put_field(field, into)?;
    }
    Some(())
}

fn put_op(op: &TxnOp, into: &mut String) -> Option<()> {
    match op {
        TxnOp::Insert(doc) => put_doc("insert", doc, into),
        TxnOp::Put(doc) => put_doc("put", doc, into),
        TxnOp::Kill(id) => write!(into, "kill {id}").ok(),
        TxnOp::Clear => into.push_str("clear").ok(),
    }
}

/// Tells a transaction by its operations.
pub(crate) fn put_told(txn: &Txn, into: &mut String) -> Option<()> {
    for op in txn.ops.as_slice() {
        put_op(op, into)?;
        into.push_str("; ").ok()?;
    }
    Some(())
}
