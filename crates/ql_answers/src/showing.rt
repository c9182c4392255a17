//! What SHOW, DESCRIBE and SELECT of a variable show; docs/cases/statements.md has each as a client sees it. Clients ask
//! for variables, databases and warnings when they connect: what isn't there is shown as an empty text or as no row, and
//! they go on.
ghost use Rattle.std.specs.Prelude.{◌≡◌, ◌+◌, ◌++◌, [], ◌∷◌, IfOk, OnOk, codes, map};
ghost use Rattle.ql_answers.specs.Replies.{pair};
ghost use Rattle.ql_answers.specs.Showing.{current_database, databases, description, description_rows, docs_row, index_status, keyword_row, kind_text, meta_rows, meta_set, numbered, tables, variable, variable_value, variables, warnings, word_rows};

use crate::indexes::Catalog;
use crate::meta::Meta;
use crate::text_sets::{put_pair, single_row, text_set};
use doc_types::{AttrKind, Schema};
use itoa::Buffer;
use mysql_wire::Cell;
use ql_columns::ID;
use reply_rows::ResultSet;
use srch_base::{Items, NoMemory};
use std::alloc::Global;
use table_search::WordDocs;

/// SELECT of a system variable.
pub(crate) fn variable(
    alloc: Global,
    name: &[u8],
    limit: Option<u64>,
) -> Result<ResultSet, NoMemory>
    ensures { IfOk result (λ set. set ≡ variable name.now limit) }
{
    let column = variable_column(alloc, name)?;
    let rows = match limit {
        Some(0) => Items::new(Vec::new(alloc)),
        _ => single_row(alloc, variable_value(name))?,
    };
    text_set(alloc, &[column.as_slice()], rows)
}

fn variable_column(alloc: Global, name: &[u8]) -> Result<Vec<u8>, NoMemory>
    ensures { IfOk result (λ column. column.items ≡ codes "@@" ++ name.now) }
{
    let mut column = Vec::new(alloc);
    column.extend_from_slice(b"@@")?;
    column.extend_from_slice(name)?;
    Ok(column)
}

/// The one variable that has a value.
const VERSION_COMMENT: &[u8] = b"version_comment";

/// Clients ask for the version's comment when they connect.
fn variable_value(name: &[u8]) -> &'static [u8]
    ensures { result.now ≡ variable_value name.now }
{
    if name == VERSION_COMMENT {
        b"searchd"
    } else {
        b""
    }
}

/// SELECT DATABASE().
pub(crate) fn current_database(alloc: Global) -> Result<ResultSet, NoMemory>
    ensures { IfOk result (λ set. set ≡ current_database) }
{
    let rows = single_row(alloc, b"")?;
    text_set(alloc, &[b"database()"], rows)
}

/// SHOW DATABASES.
pub(crate) fn databases(alloc: Global) -> Result<ResultSet, NoMemory>
    ensures { IfOk result (λ set. set ≡ databases) }
{
    text_set(alloc, &[b"Database"], Items::new(Vec::new(alloc)))
}

/// SHOW WARNINGS.
pub(crate) fn warnings(alloc: Global) -> Result<ResultSet, NoMemory>
    ensures { IfOk result (λ set. set ≡ warnings) }
{
    let rows = Items::new(Vec::new(alloc));
    text_set(alloc, &[b"Level", b"Code", b"Message"], rows)
}

/// SHOW VARIABLES.
pub(crate) fn variables(alloc: Global, autocommit: bool) -> Result<ResultSet, NoMemory>
    ensures { IfOk result (λ set. set ≡ variables autocommit) }
{
    let value: &[u8] = if autocommit { b"1" } else { b"0" };
    let mut rows = Vec::new(alloc);
    put_pair(alloc, b"autocommit", value, &mut rows)?;
    text_set(alloc, &[b"Variable_name", b"Value"], Items::new(rows))
}

/// SHOW INDEX STATUS: how many documents live, and how many chunks are on the disk.
pub(crate) fn index_status(
    alloc: Global,
    documents: u64,
    chunks: u64,
) -> Result<ResultSet, NoMemory>
    ensures { IfOk result (λ set. set ≡ index_status documents chunks) }
{
    let rows = status_rows(alloc, documents, chunks)?;
    text_set(alloc, &[b"Variable_name", b"Value"], rows)
}

fn status_rows(alloc: Global, documents: u64, chunks: u64) -> Result<Items<Items<Cell>>, NoMemory>
    ensures { IfOk result (λ rows. rows ≡ (index_status documents chunks).rows) }
{
    let mut number = Buffer::new();
    let mut rows = Vec::new(alloc);
    put_pair(alloc, b"index_type", b"rt", &mut rows)?;
    let shown = number.format(documents).as_bytes();
    put_pair(alloc, b"indexed_documents", shown, &mut rows)?;
    let shown = number.format(chunks).as_bytes();
    put_pair(alloc, b"disk_chunks", shown, &mut rows)?;
    Ok(Items::new(rows))
}

/// SHOW TABLES.
pub(crate) fn tables<T: Catalog>(alloc: Global, catalog: &T) -> Result<ResultSet, NoMemory>
    ensures { IfOk result (λ set. set ≡ tables (T.confs catalog.now)) }
{
    let rows = index_rows(alloc, catalog)?;
    text_set(alloc, &[b"Index", b"Type"], rows)
}

fn index_rows<T: Catalog>(alloc: Global, catalog: &T) -> Result<Items<Items<Cell>>, NoMemory>
    ensures { IfOk result (λ rows. rows ≡ map (λ conf. pair conf.schema.name (codes "rt")) (T.confs catalog.now)) }
{
    let mut rows = Vec::new(alloc);
    'indexes: for index in 0..catalog.count() {
        let conf = catalog.conf(index);
        put_pair(alloc, conf.schema.name.as_bytes(), b"rt", &mut rows)?;
    }
    Ok(Items::new(rows))
}

/// DESCRIBE.
pub(crate) fn description(alloc: Global, schema: &Schema) -> Result<ResultSet, NoMemory>
    ensures { IfOk result (λ set. set ≡ description schema.now) }
{
    let rows = description_rows(alloc, schema)?;
    text_set(alloc, &[b"Field", b"Type"], rows)
}

fn description_rows(alloc: Global, schema: &Schema) -> Result<Items<Items<Cell>>, NoMemory>
    ensures { IfOk result (λ rows. rows ≡ description_rows schema.now) }
{
    let mut rows = Vec::new(alloc);
    put_pair(alloc, ID, b"bigint", &mut rows)?;
    'fields: for field in schema.fields.as_slice() {
        put_pair(alloc, field.as_bytes(), b"field", &mut rows)?;
    }
    'attrs: for attr in schema.attrs.as_slice() {
        put_pair(alloc, attr.0.as_bytes(), kind_text(attr.1), &mut rows)?;
    }
    Ok(Items::new(rows))
}

/// The kind of an attribute, as the configuration names it.
fn kind_text(kind: AttrKind) -> &'static [u8]
    ensures { result.now ≡ kind_text kind }
{
    match kind {
        AttrKind::Uint => b"uint",
        AttrKind::Bool => b"bool",
        AttrKind::Bigint => b"bigint",
        AttrKind::Timestamp => b"timestamp",
    }
}

/// SHOW META: a row for each number, and two for each word. Before the first SELECT there is none.
pub(crate) fn meta(alloc: Global, told: &Option<Meta>) -> Result<ResultSet, NoMemory>
    ensures { IfOk result (λ set. set ≡ meta_set told.now) }
{
    let rows = match told {
        Some(meta) => meta_rows(alloc, meta)?,
        None => Items::new(Vec::new(alloc)),
    };
    text_set(alloc, &[b"Variable_name", b"Value"], rows)
}

fn meta_rows(alloc: Global, meta: &Meta) -> Result<Items<Items<Cell>>, NoMemory>
    ensures { IfOk result (λ rows. rows ≡ meta_rows meta.now) }
{
    let mut number = Buffer::new();
    let mut rows = Vec::new(alloc);
    let shown = number.format(meta.total).as_bytes();
    put_pair(alloc, b"total", shown, &mut rows)?;
    let shown = number.format(meta.total_found).as_bytes();
    put_pair(alloc, b"total_found", shown, &mut rows)?;
    put_words(alloc, meta.words.as_slice(), 0, &mut rows)?;
    Ok(Items::new(rows))
}

/// Appends two rows for each word, numbered on from this. It calls itself once for each word, of which a query has at most 255.
fn put_words(
    alloc: Global,
    words: &[WordDocs],
    from: u64,
    rows: &mut Vec<Items<Cell>>,
) -> Result<(), NoMemory>
    ensures { OnOk result (rows.new.items ≡ rows.old.items ++ word_rows from words.now) }
{
    match words.split_first() {
        None => Ok(()),
        Some((first, rest)) => {
            put_word(alloc, first, from, rows)?;
            let next = next_number(from)?;
            put_words(alloc, rest, next, rows)
        }
    }
}

fn next_number(number: u64) -> Result<u64, NoMemory>
    ensures { IfOk result (λ next. next ≡ number + 1) }
{
    number.checked_add(1).ok_or(NoMemory)
}

/// Appends the two rows of a word.
fn put_word(
    alloc: Global,
    word: &WordDocs,
    number: u64,
    rows: &mut Vec<Items<Cell>>,
) -> Result<(), NoMemory>
    ensures { OnOk result (rows.new.items ≡ rows.old.items ++ keyword_row number word.now ∷ [] ++ docs_row number word.now ∷ []) }
{
    let mut docs = Buffer::new();
    put_numbered(alloc, b"keyword[", number, word.word.as_bytes(), rows)?;
    let counted = docs.format(word.docs).as_bytes();
    put_numbered(alloc, b"docs[", number, counted, rows)
}

/// Appends a row of a text under a name with a number.
fn put_numbered(
    alloc: Global,
    name: &[u8],
    number: u64,
    text: &[u8],
    rows: &mut Vec<Items<Cell>>,
) -> Result<(), NoMemory>
    ensures { OnOk result (rows.new.items ≡ rows.old.items ++ pair (numbered name.now number) text.now ∷ []) }
{
    let name = numbered(alloc, name, number)?;
    put_pair(alloc, name.as_slice(), text, rows)
}

/// A name with a number in brackets, of which the first stands in the name.
fn numbered(alloc: Global, name: &[u8], number: u64) -> Result<Vec<u8>, NoMemory>
    ensures { IfOk result (λ text. text.items ≡ numbered name.now number) }
{
    let mut digits = Buffer::new();
    let mut text = Vec::new(alloc);
    text.extend_from_slice(name)?;
    text.extend_from_slice(digits.format(number).as_bytes())?;
    text.extend_from_slice(b"]")?;
    Ok(text)
}
