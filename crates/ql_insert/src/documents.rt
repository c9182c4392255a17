//! The documents that the rows of an INSERT become.
//!
//! A document begins blank, with empty fields and attributes of 0, and the row's values are put into its columns from left
//! to right. A field's text is read once, when it is put. Memory is taken for the document alone.
ghost use Rattle.std.specs.Prelude.{◌≡◌, ◌<◌, ◌^◌, pos, true, None, length, sum_by, slice_set, IfOk, IsTrue};
ghost use Rattle.std.specs.Str.{is_utf8};
ghost use Rattle.doc_types.specs.Documents.{IsField};
ghost use Rattle.doc_types.specs.Schemas.{AreZones};
ghost use Rattle.doc_tokens.specs.Tokens.{Gives};
ghost use Rattle.ql_insert.specs.Insertions.{Puts, blank, fold_of, holds, is_between, rows_fault, value_fault, values_fault};
ghost use Rattle.index_conf.specs.declared.conf.IndexConf.{IndexConf};
ghost use Rattle.doc_types.specs.declared.schema.Schema.{Schema};
ghost use Rattle.ql_insert.specs.steps.Documents.{Builds, BuildsAll, IsShaped, PutsOr};

use doc_tokens::{TooLong, tokens};
use doc_types::{AttrKind, Doc, FieldTokens, Schema, Txn, TxnOp, Value};
use index_conf::IndexConf;
use ql_columns::{IndexColumn, kind_of, name_of};
use ql_refusals::{Refusal, too_many_positions};
use ql_tree::Val;
use simdutf8::compat::from_utf8;
use srch_base::{Items, NoMemory, Or};
use std::alloc::Global;
use std::marker::Model;

/// A document whose columns are being filled.
#[derive(Drop)]
struct Draft {
    id: u64,
    fields: Vec<FieldTokens>,
    values: Vec<Value>,
}

impl Model for Draft {
    ghost use Rattle.doc_types.specs.declared.documents.Doc.{Doc};

    ghost Value = { Doc };

    ghost view = { λ draft. record { id = draft.id; fields = draft.fields.items; values = draft.values.items } };
}

impl Draft {
    /// A document of which nothing is given yet.
    fn blank(alloc: Global, schema: &Schema) -> Result<Draft, NoMemory>
        ensures blank { IfOk result (λ draft. draft ≡ blank schema.now) }
        ensures shaped { IfOk result (IsShaped schema.now) }
    {
        let mut fields = Vec::with_capacity(alloc, schema.fields.len())?;
        'fields: for _ in 0..schema.fields.len() {
            fields.push(FieldTokens {
                words: Items::new(Vec::new(alloc)),
                spans: Items::new(Vec::new(alloc)),
            })?;
        }
        let values = vec![in alloc; Value::Whole(0); schema.attrs.len()]?;
        Ok(Draft {
            id: 0,
            fields,
            values,
        })
    }

    /// Puts a value into its column. After an `Err` the document is of no more use.
    fn put(
        &mut self,
        alloc: Global,
        conf: &IndexConf,
        target: IndexColumn,
        value: &Val,
    ) -> Result<(), Or<Refusal>>
        requires zones { AreZones conf.now.rules.zones }
        requires good { value_fault conf.now.schema target value.now ≡ None }
        requires shaped { IsShaped conf.now.schema self.old }
        ensures { PutsOr conf.now target value.now self.old result self.new }
    {
        match value {
            Val::Number(number) => {
                self.put_number(&conf.schema, target, *number);
                Ok(())
            }
            Val::Text(text) => self.put_text(alloc, conf, target, text.as_bytes()),
        }
    }

    fn put_number(&mut self, schema: &Schema, target: IndexColumn, number: i128)
        requires good { value_fault schema.now target (Val.Number number) ≡ None }
        requires shaped { IsShaped schema.now self.old }
        ensures puts { (conf : IndexConf) → conf.schema ≡ schema.now → Puts conf target (Val.Number number) self.old self.new }
        ensures shaped { IsShaped schema.now self.new }
    {
        match target {
            IndexColumn::Id => self.id = id_of(number),
            IndexColumn::Attr(attr) => {
                let value = Value::Whole(whole_of(kind_of(schema, attr), number));
                if attr < self.values.len() {
                    self.values[attr] = value;
                }
            }
            IndexColumn::Field(_) => unreachable!(),
        }
    }

    fn put_text(
        &mut self,
        alloc: Global,
        conf: &IndexConf,
        target: IndexColumn,
        text: &[u8],
    ) -> Result<(), Or<Refusal>>
        requires zones { AreZones conf.now.rules.zones }
        requires good { value_fault conf.now.schema target (Val.Text text.now) ≡ None }
        requires shaped { IsShaped conf.now.schema self.old }
        ensures { PutsOr conf.now target (Val.Text text.now) self.old result self.new }
    {
        match target {
            IndexColumn::Field(field) => match field_tokens(alloc, conf, text) {
                Ok(tokens) => {
                    self.set_field(field, tokens);
                    Ok(())
                }
                Err(Or::NoMemory) => Err(Or::NoMemory),
                Err(Or::Fault(_)) => {
                    let name = name_of(&conf.schema, target);
                    Err(Or::Fault(too_many_positions(name)))
                }
            },
            IndexColumn::Id | IndexColumn::Attr(_) => unreachable!(),
        }
    }

    fn set_field(&mut self, field: usize, tokens: FieldTokens)
        requires { IsField tokens }
        ensures after { self.new ≡ record self.old { fields = slice_set self.old.fields field tokens } }
        ensures shaped { (schema : Schema) → IsShaped schema self.old → IsShaped schema self.new }
    {
        if field < self.fields.len() {
            self.fields[field] = tokens;
        }
    }

    fn into_doc(self) -> Doc
        ensures { result ≡ self }
    {
        let Draft { id, fields, values } = self;
        Doc {
            id,
            fields: Items::new(fields),
            values: Items::new(values),
        }
    }
}

/// The id that a number within its range is.
fn id_of(number: i128) -> u64
    requires { is_between (pos 1) (pos 18446744073709551615) number ≡ true }
    ensures { number ≡ pos result }
{
    number as u64
}

/// The value of a number that an attribute of the kind holds.
fn whole_of(kind: AttrKind, number: i128) -> i64
    requires { holds kind number ≡ true }
    ensures { result ≡ number }
{
    match kind {
        AttrKind::Uint | AttrKind::Timestamp | AttrKind::Bool | AttrKind::Bigint => number as i64,
    }
}

/// The tokens of a field's text.
fn field_tokens(alloc: Global, conf: &IndexConf, text: &[u8]) -> Result<FieldTokens, Or<TooLong>>
    requires zones { AreZones conf.now.rules.zones }
    requires utf8 { is_utf8 text.now ≡ true }
    ensures tokens { Gives (fold_of conf.now) conf.now.rules text.now result }
    ensures field { IfOk result IsField }
{
    if text.len() > u32::MAX as usize {
        return Err(Or::NoMemory);
    }
    match from_utf8(text) {
        Ok(text) => tokens(alloc, &conf.charset, &conf.rules, text),
        Err(_) => unreachable!(),
    }
}

/// Whether there are fewer than 2^32 spans in the fields.
fn has_few_spans(fields: &[FieldTokens]) -> bool
    ensures { IsTrue result → sum_by (λ tokens. length tokens.spans) fields.now < 2 ^ 32 }
{
    let mut spans: usize = 0;
    'fields: for field in fields {
        let more = field.spans.len();
        if more > u32::MAX as usize - spans {
            return false;
        }
        spans += more;
    }
    true
}

/// The document of a row whose number of values, kinds and ranges are good.
pub(crate) fn document(
    alloc: Global,
    conf: &IndexConf,
    targets: &[IndexColumn],
    row: &[Val],
) -> Result<Doc, Or<Refusal>>
    requires zones { AreZones conf.now.rules.zones }
    requires size { length row.now ≡ length targets.now }
    requires good { values_fault conf.now.schema targets.now row.now ≡ None }
    ensures { Builds conf.now targets.now row.now result }
{
    let mut draft = Draft::blank(alloc, &conf.schema)?;
    'values: for (place, value) in row.iter().enumerate() {
        draft.put(alloc, conf, targets[place], value)?;
    }
    let doc = draft.into_doc();
    if !has_few_spans(doc.fields.as_slice()) {
        return Err(Or::NoMemory);
    }
    Ok(doc)
}

/// The insertions of rows whose numbers of values, kinds and ranges are good.
pub(crate) fn insertions(
    alloc: Global,
    conf: &IndexConf,
    targets: &[IndexColumn],
    rows: &[Items<Val>],
) -> Result<Txn, Or<Refusal>>
    requires zones { AreZones conf.now.rules.zones }
    requires good { rows_fault conf.now.schema targets.now rows.now ≡ None }
    ensures { BuildsAll conf.now targets.now rows.now result }
{
    let mut ops = Vec::with_capacity(alloc, rows.len())?;
    'rows: for row in rows {
        let doc = document(alloc, conf, targets, row.as_slice())?;
        ops.push(TxnOp::Insert(doc))?;
    }
    if ops.len() > u32::MAX as usize {
        return Err(Or::NoMemory);
    }
    let ops = Items::new(ops);
    Ok(Txn { ops })
}
