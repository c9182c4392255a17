//! A selftest: the documents are written by statements, 100 a transaction, and then asked for. Half of them go to the disk before the
//! others are written, and all of them into one chunk before they are asked for: so what is found has been in both kinds of layers.
ghost use Rattle.std.specs.Prelude.{◌≡◌, ◌+◌, ◌<◌, ◌≤◌, ◌^◌, ◌++◌, [], ◌∷◌, IfOk, length};
ghost use Rattle.ql_session.specs.Fitting.{Fits};
ghost use Rattle.ql_session.specs.Statements.{States};
ghost use Rattle.ql_tree.specs.declared.statement.Statement.{Statement};
ghost use Rattle.ql_write.specs.Canonical.{canonical_text};
ghost use Rattle.self_test.specs.Asking.{AreTold, Leads, SeesChunks};
ghost use Rattle.self_test.specs.Conversations.{ConversesOr, CountsOr, SumsOr, before_document, behind_document, insert, job, loading, merged_chunks, transactions};
ghost use Rattle.ql_answers.specs.States.{new_state};
ghost use Rattle.self_test.specs.Documents.{documents_from};
ghost use Rattle.self_test.specs.Texts.{count_select};
ghost use Rattle.self_test.specs.steps.Replies.{IsChecked, RowsOr};

use crate::Astray;
use crate::asking::Client;
use crate::generator::{Document, documents};
use crate::laws::{inserts_are_read, texts_are_read_as_statements};
use crate::summary::{Count, Summary};
use crate::texts::{write_count, write_insert};
use ql_session::TableStore;
use srch_base::{NoMemory, Or};
use std::alloc::Global;

/// How many documents a transaction writes.
const PER_TRANSACTION: u32 = 100;

/// The status of a reply while a transaction is open, and otherwise. AUTOCOMMIT is 1.
const IN_TRANSACTION: u16 = 3;

const AUTOCOMMIT: u16 = 2;

/// Writes the documents of a number to the index `t`, the only one of a store, which has none, and asks a session what it finds of
/// them.
pub fn run<T: TableStore>(
    alloc: Global,
    tables: &mut T,
    number: u32,
    docs: u32,
) -> Result<Summary, Or<Astray>>
    requires one { length (T.confs tables.old) ≡ 1 }
    ensures comes { ConversesOr T.confs T.words (documents_from number docs) result tables.old tables.new }
    ensures confs { T.confs tables.new ≡ T.confs tables.old }
    ensures leads { Leads T.confs T.words tables.old tables.new }
{
    match documents(alloc, number, docs) {
        Ok(documents) => found(alloc, tables, &documents),
        Err(_) => Err(Or::NoMemory),
    }
}

/// Writes documents, and asks what is found of them.
fn found<T: TableStore>(
    alloc: Global,
    tables: &mut T,
    documents: &[Document],
) -> Result<Summary, Or<Astray>>
    requires few { length documents.now < 2 ^ 32 }
    requires one { length (T.confs tables.old) ≡ 1 }
    ensures converses { ConversesOr T.confs T.words documents.now result tables.old tables.new }
    ensures confs { T.confs tables.new ≡ T.confs tables.old }
    ensures leads { Leads T.confs T.words tables.old tables.new }
{
    match Client::new(alloc) {
        Ok(mut client) => converse(&mut client, tables, &mut String::new(alloc), documents),
        Err(NoMemory) => Err(Or::NoMemory),
    }
}

/// Has a client write documents and ask for them.
#[tactic(auto, using(crate::proofs::Leading::leads_then))]
fn converse<T: TableStore>(
    client: &mut Client,
    tables: &mut T,
    text: &mut String,
    documents: &[Document],
) -> Result<Summary, Or<Astray>>
    requires few { length documents.now < 2 ^ 32 }
    requires one { length (T.confs tables.old) ≡ 1 }
    requires begins { client.old.session ≡ new_state }
    ensures converses { ConversesOr T.confs T.words documents.now result tables.old tables.new }
    ensures confs { T.confs tables.new ≡ T.confs tables.old }
    ensures leads { Leads T.confs T.words tables.old tables.new }
{
    match load(client, tables, text, documents) {
        Ok(()) => count_all(client, tables, text, documents.len() as u64),
        Err(fault) => Err(fault),
    }
}

/// Writes documents with the ids from 1 on: the first half of them goes to the disk before the others are written, and in the end all
/// into one chunk.
#[tactic(auto, using(crate::proofs::Leading::leads_then))]
fn load<T: TableStore>(
    client: &mut Client,
    tables: &mut T,
    text: &mut String,
    documents: &[Document],
) -> Result<(), Or<Astray>>
    requires few { length documents.now < 2 ^ 32 }
    requires fits { Fits (T.confs tables.old) client.old.session }
    ensures told { AreTold T.confs T.words (loading documents.now) result client.old.session tables.old client.new.session tables.new }
    ensures fits { Fits (T.confs tables.new) client.new.session }
    ensures confs { T.confs tables.new ≡ T.confs tables.old }
    ensures leads { Leads T.confs T.words tables.old tables.new }
{
    texts_are_read_as_statements();
    let half = documents.len() / 2;
    let (first, others) = documents.split_at(half);
    match write_half(client, tables, text, 0, first, "FLUSH RAMCHUNK `t`") {
        Ok(()) => write_half(
            client,
            tables,
            text,
            half as u32,
            others,
            "OPTIMIZE INDEX `t`",
        ),
        Err(fault) => Err(fault),
    }
}

/// Writes documents with the ids behind this one, commits them, and has a job done.
#[tactic(auto, using(crate::proofs::Leading::leads_then))]
fn write_half<T: TableStore>(
    client: &mut Client,
    tables: &mut T,
    text: &mut String,
    before: u32,
    documents: &[Document],
    order: &str,
) -> Result<(), Or<Astray>>
    requires few { before + length documents.now < 2 ^ 32 }
    requires fits { Fits (T.confs tables.old) client.old.session }
    ensures told { (statement : Statement) → order.now ≡ canonical_text statement → States order.now (statement ∷ []) → AreTold T.confs T.words (transactions before documents.now ++ job statement ∷ []) result client.old.session tables.old client.new.session tables.new }
    ensures fits { Fits (T.confs tables.new) client.new.session }
    ensures confs { T.confs tables.new ≡ T.confs tables.old }
    ensures leads { Leads T.confs T.words tables.old tables.new }
{
    match write(client, tables, text, before, documents) {
        Ok(()) => client.tell(tables, order, 0, AUTOCOMMIT, Astray::JobFailed),
        Err(fault) => Err(fault),
    }
}

/// Writes documents with the ids behind this one, and commits them.
#[tactic(auto, using(crate::proofs::Leading::leads_then))]
fn write<T: TableStore>(
    client: &mut Client,
    tables: &mut T,
    text: &mut String,
    before: u32,
    documents: &[Document],
) -> Result<(), Or<Astray>>
    requires few { before + length documents.now < 2 ^ 32 }
    requires fits { Fits (T.confs tables.old) client.old.session }
    ensures told { AreTold T.confs T.words (transactions before documents.now) result client.old.session tables.old client.new.session tables.new }
    ensures fits { Fits (T.confs tables.new) client.new.session }
    ensures confs { T.confs tables.new ≡ T.confs tables.old }
    ensures leads { Leads T.confs T.words tables.old tables.new }
{
    let last = documents.len() as u32;
    let mut number = 0;
    let mut rest = documents;
    'documents: while let Some((document, more)) = rest.split_first() {
        match write_next(client, tables, text, before, last, number, document) {
            Ok(()) => {}
            Err(fault) => return Err(fault),
        }
        number += 1;
        rest = more;
    }
    Ok(())
}

/// Writes the document behind so many others of `last` ones, with the beginning and the end of its transaction where these are there.
#[tactic(auto, using(crate::proofs::Leading::leads_then))]
fn write_next<T: TableStore>(
    client: &mut Client,
    tables: &mut T,
    text: &mut String,
    before: u32,
    last: u32,
    number: u32,
    document: &Document,
) -> Result<(), Or<Astray>>
    requires few { before + number + 1 < 2 ^ 32 }
    requires fits { Fits (T.confs tables.old) client.old.session }
    ensures told { AreTold T.confs T.words (before_document number ++ insert (before + (number + 1)) document.now ∷ behind_document last (number + 1)) result client.old.session tables.old client.new.session tables.new }
    ensures fits { Fits (T.confs tables.new) client.new.session }
    ensures confs { T.confs tables.new ≡ T.confs tables.old }
    ensures leads { Leads T.confs T.words tables.old tables.new }
{
    match begin(client, tables, number) {
        Ok(()) => match write_one(client, tables, text, before + (number + 1), document) {
            Ok(()) => commit(client, tables, last, number + 1),
            Err(fault) => Err(fault),
        },
        Err(fault) => Err(fault),
    }
}

/// Writes one document in a transaction.
fn write_one<T: TableStore>(
    client: &mut Client,
    tables: &mut T,
    text: &mut String,
    id: u32,
    document: &Document,
) -> Result<(), Or<Astray>>
    requires fits { Fits (T.confs tables.old) client.old.session }
    ensures told { AreTold T.confs T.words (insert id document.now ∷ []) result client.old.session tables.old client.new.session tables.new }
    ensures fits { Fits (T.confs tables.new) client.new.session }
    ensures confs { T.confs tables.new ≡ T.confs tables.old }
    ensures leads { Leads T.confs T.words tables.old tables.new }
{
    inserts_are_read();
    match write_insert(text, id, document) {
        Ok(()) => client.tell(tables, text.as_str(), 1, IN_TRANSACTION, Astray::Unexpected),
        Err(_) => Err(Or::NoMemory),
    }
}

/// Begins a transaction before its first document, behind so many others.
#[tactic(auto, using(crate::proofs::Letters::begin_is))]
fn begin<T: TableStore>(client: &mut Client, tables: &mut T, number: u32) -> Result<(), Or<Astray>>
    requires fits { Fits (T.confs tables.old) client.old.session }
    ensures told { AreTold T.confs T.words (before_document number) result client.old.session tables.old client.new.session tables.new }
    ensures fits { Fits (T.confs tables.new) client.new.session }
    ensures confs { T.confs tables.new ≡ T.confs tables.old }
    ensures leads { Leads T.confs T.words tables.old tables.new }
{
    texts_are_read_as_statements();
    if number % PER_TRANSACTION == 0 {
        client.tell(tables, "BEGIN", 0, IN_TRANSACTION, Astray::Unexpected)
    } else {
        Ok(())
    }
}

/// Commits a transaction after its last document.
#[tactic(auto, using(crate::proofs::Letters::commit_is))]
fn commit<T: TableStore>(
    client: &mut Client,
    tables: &mut T,
    last: u32,
    number: u32,
) -> Result<(), Or<Astray>>
    requires fits { Fits (T.confs tables.old) client.old.session }
    ensures told { AreTold T.confs T.words (behind_document last number) result client.old.session tables.old client.new.session tables.new }
    ensures fits { Fits (T.confs tables.new) client.new.session }
    ensures confs { T.confs tables.new ≡ T.confs tables.old }
    ensures leads { Leads T.confs T.words tables.old tables.new }
{
    texts_are_read_as_statements();
    if number % PER_TRANSACTION == 0 || number == last {
        client.tell(tables, "COMMIT", 0, AUTOCOMMIT, Astray::Unexpected)
    } else {
        Ok(())
    }
}

/// Asks for all that is counted, and then how many chunks there are: those that OPTIMIZE leaves, or a job failed.
#[tactic(auto, using(crate::proofs::Leading::leads_then))]
fn count_all<T: TableStore>(
    client: &mut Client,
    tables: &mut T,
    text: &mut String,
    documents: u64,
) -> Result<Summary, Or<Astray>>
    requires fits { Fits (T.confs tables.old) client.old.session }
    requires one { length (T.confs tables.old) ≡ 1 }
    ensures sums { SumsOr T.confs T.words documents result client.old.session tables.old tables.new }
    ensures confs { T.confs tables.new ≡ T.confs tables.old }
    ensures leads { Leads T.confs T.words tables.old tables.new }
{
    match count(client, tables, text, Count::Words) {
        Ok(words) => match count(client, tables, text, Count::Pairs) {
            Ok(pairs) => match count(client, tables, text, Count::Groups) {
                Ok(groups) => match chunks(tables) {
                    Ok(chunks) => checked(Summary {
                        documents,
                        words,
                        pairs,
                        groups,
                        chunks,
                    }),
                    Err(NoMemory) => Err(Or::NoMemory),
                },
                Err(fault) => Err(fault),
            },
            Err(fault) => Err(fault),
        },
        Err(fault) => Err(fault),
    }
}

/// Asks how many rows there are of all that is counted.
fn count<T: TableStore>(
    client: &mut Client,
    tables: &mut T,
    text: &mut String,
    count: Count,
) -> Result<u64, Or<Astray>>
    requires fits { Fits (T.confs tables.old) client.old.session }
    ensures counts { CountsOr T.confs T.words count result client.old.session tables.old client.new.session tables.new }
    ensures fits { Fits (T.confs tables.new) client.new.session }
    ensures confs { T.confs tables.new ≡ T.confs tables.old }
    ensures leads { Leads T.confs T.words tables.old tables.new }
{
    let mut sum = 0;
    'numbers: for number in 0..count.many() {
        match count_one(client, tables, text, count, number) {
            Ok(rows) => sum += u64::from(rows),
            Err(fault) => return Err(fault),
        }
    }
    Ok(sum)
}

/// Asks how many rows there are of the word, the phrase or the group with this number.
fn count_one<T: TableStore>(
    client: &mut Client,
    tables: &mut T,
    text: &mut String,
    count: Count,
    number: u8,
) -> Result<u32, Or<Astray>>
    requires below { number < 50 }
    requires fits { Fits (T.confs tables.old) client.old.session }
    ensures rows { RowsOr T.confs T.words (count_select count number) result client.old.session tables.old client.new.session tables.new }
    ensures fits { Fits (T.confs tables.new) client.new.session }
    ensures confs { T.confs tables.new ≡ T.confs tables.old }
    ensures leads { Leads T.confs T.words tables.old tables.new }
{
    texts_are_read_as_statements();
    match write_count(text, count, number) {
        Ok(()) => client.count_rows(tables, text.as_str()),
        Err(_) => Err(Or::NoMemory),
    }
}

/// What is answered by a summary: itself, where it has the chunks that OPTIMIZE leaves.
fn checked(summary: Summary) -> Result<Summary, Or<Astray>>
    ensures { IsChecked summary result }
{
    if summary.chunks == merged(summary.documents) {
        Ok(summary)
    } else {
        Err(Or::Fault(Astray::JobFailed))
    }
}

/// How many chunks OPTIMIZE leaves of so many documents: one, or none where there are none.
fn merged(documents: u64) -> u64
    ensures { result ≡ merged_chunks documents }
{
    if documents == 0 { 0 } else { 1 }
}

/// How many chunks of the index are on the disk, by what a read of it sees.
fn chunks<T: TableStore>(tables: &mut T) -> Result<u64, NoMemory>
    requires one { length (T.confs tables.old) ≡ 1 }
    ensures chunks { IfOk result (λ chunks. SeesChunks T.confs T.words chunks tables.old tables.new) }
    ensures confs { T.confs tables.new ≡ T.confs tables.old }
    ensures leads { Leads T.confs T.words tables.old tables.new }
{
    let snapshot = tables.front(0)?;
    Ok(u64::from(snapshot.disk_chunks()))
}
