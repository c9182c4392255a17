//! Rows of documents, from the texts of their fields.
ghost use Rattle.std.specs.Prelude.{◌<◌, IfSome, OnSome, All, AllPairs, IsTrue};
ghost use Rattle.doc_types.specs.Chunks.{IsContent};
ghost use Rattle.doc_types.specs.declared.schema.Schema.{Schema};
ghost use Rattle.doc_types.specs.Schemas.{AreZones};
ghost use Rattle.doc_vectors.specs.steps.Columns.{AreFields, AreListed, HasShape, IsShort};

use charset_map::Charset;
use doc_tokens::tokens;
use doc_types::{Doc, DocRow, FieldTokens, Value};
use mark_scan::MarkRules;
use srch_base::{Items, Name};
use std::alloc::Global;

/// The most bytes of a field's text, and the most rows of a table.
const MOST_BYTES: usize = 200_000;

const MOST_ROWS: usize = 1_000;

/// The rules of a document: of `plain` texts, of those with markup, `html`, and of those in which also sentences and paragraphs are
/// looked for, `sp`. The zones are `th` and `i`.
fn rules(alloc: Global, how: &str) -> Option<MarkRules>
    ensures { IfSome result (λ rules. AreZones rules.zones) }
{
    let mut zones = Vec::new(alloc);
    zones.push(Name::from_slice(alloc, b"th").ok()?).ok()?;
    zones.push(Name::from_slice(alloc, b"i").ok()?).ok()?;
    let zones = Items::new(zones);
    Some(MarkRules {
        strip: how != "plain",
        sp: how == "sp",
        zones,
    })
}

/// The tokens of a text, unless it is long or they have many spans.
fn short(alloc: Global, charset: &Charset, rules: &MarkRules, text: &str) -> Option<FieldTokens>
    requires { AreZones rules.now.zones }
    ensures { IfSome result IsShort }
{
    if text.len() > MOST_BYTES {
        return None;
    }
    match tokens(alloc, charset, rules, text) {
        Ok(found) if found.spans.len() <= 1000 => Some(found),
        _ => None,
    }
}

/// The tokens of a text, or of `n×x`, which is x written n times.
fn field(alloc: Global, charset: &Charset, rules: &MarkRules, text: &str) -> Option<FieldTokens>
    requires { AreZones rules.now.zones }
    ensures { IfSome result IsShort }
{
    match text.split_once('×') {
        Some((count, piece)) => {
            let text = piece.repeat(alloc, count.parse::<usize>().ok()?).ok()?;
            short(alloc, charset, rules, text.as_str())
        }
        None => short(alloc, charset, rules, text),
    }
}

/// So many fields of a document, of texts with `|` between them; those that it doesn't have are empty.
fn fields(
    alloc: Global,
    charset: &Charset,
    rules: &MarkRules,
    texts: &str,
    count: usize,
) -> Option<Items<FieldTokens>>
    requires { AreZones rules.now.zones }
    ensures { IfSome result (AreFields count) }
{
    let mut texts = texts.split('|');
    let mut fields = Vec::new(alloc);
    for number in 0..count {
        let text = texts.next().unwrap_or("");
        fields.push(field(alloc, charset, rules, text)?).ok()?;
    }
    Some(Items::new(fields))
}

/// The values of a document.
fn values(alloc: Global, words: &str) -> Option<Items<Value>> {
    let mut values = Vec::new(alloc);
    for word in words.split_whitespace() {
        values.push(Value::Whole(word.parse::<i64>().ok()?)).ok()?;
    }
    Some(Items::new(values))
}

/// What stands before and behind the first place of a mark; all stands before one that isn't there.
pub(crate) fn cut<'t>(text: &'t str, mark: &str) -> (&'t str, &'t str) {
    text.split_once(mark).unwrap_or((text, ""))
}

/// The row of a line of a table: the id, the number of the commit, the rules and the values; then the fields.
fn row(alloc: Global, charset: &Charset, line: &str, count: usize) -> Option<DocRow>
    ensures { IfSome result (λ row. AreFields count row.doc.fields) }
{
    let (head, texts) = cut(line, "|");
    let (id, rest) = cut(head, " ");
    let (born, rest) = cut(rest, " ");
    let (how, words) = cut(rest, " ");
    let (id, born) = (id.parse::<u64>().ok()?, born.parse::<u64>().ok()?);
    let values = values(alloc, words)?;
    let fields = fields(alloc, charset, &rules(alloc, how)?, texts, count)?;
    Some(DocRow {
        doc: Doc { id, fields, values },
        born,
    })
}

/// Whether the id is above all ids of the rows.
fn goes_on(rows: &[DocRow], id: u64) -> bool
    requires { AllPairs (λ row later. row.doc.id < later.doc.id) rows.now }
    ensures { IsTrue result → All (λ row. row.doc.id < id) rows.now }
{
    match rows.last() {
        Some(row) => row.doc.id < id,
        None => true,
    }
}

/// Appends a row, unless its id doesn't ascend or it has another number of values.
fn push(rows: &mut Vec<DocRow>, row: DocRow, count: usize, attrs: u16) -> Option<()>
    requires row { AreFields count row.doc.fields }
    requires rows { AreListed count attrs rows.old.items }
    ensures { OnSome result (AreListed count attrs rows.new.items) }
{
    if row.doc.values.len() != usize::from(attrs) || !goes_on(rows.as_slice(), row.doc.id) {
        return None;
    }
    rows.push(row).ok()?;
    Some(())
}

/// Whether there is a schema of so many fields and values among those of the tables.
fn has_schema(count: usize, attrs: u16) -> bool
    ensures { IsTrue result → (schema : Schema) × HasShape schema count attrs }
{
    match count {
        1 => attrs == 0,
        3 => attrs == 2,
        32 => attrs == 0,
        _ => false,
    }
}

/// The rows of a table of documents of so many fields and values, unless they are many.
pub(crate) fn rows_of(
    alloc: Global,
    documents: &str,
    count: usize,
    attrs: u16,
) -> Option<Vec<DocRow>>
    ensures listed { IfSome result (λ rows. AreListed count attrs rows.items) }
    ensures content { IfSome result (λ rows. IsContent rows.items) }
{
    let charset = Charset::default_table(alloc).ok()?;
    let mut rows = Vec::new(alloc);
    for line in documents.lines() {
        push(&mut rows, row(alloc, &charset, line, count)?, count, attrs)?;
    }
    if rows.as_slice().len() > MOST_ROWS || !has_schema(count, attrs) {
        return None;
    }
    Some(rows)
}
