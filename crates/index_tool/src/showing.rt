//! What the files of an index hold is shown: they are read as the daemon reads them at its opening, and then their lines are printed.
//! Nothing is written or synced, so the store is left with each image that it might have left before.
ghost use Rattle.std.specs.Prelude.{◌≡◌, ℕ, List, [], Option, IfOk, OnOk};
ghost use Rattle.std.specs.List.{AllZip};
ghost use Rattle.chunk_store.specs.Calls.{OnlyReads};
ghost use Rattle.chunk_store.specs.CrashModel.{KeepsAll};
ghost use Rattle.chunk_store.specs.Images.{Image};
ghost use Rattle.doc_types.specs.Chunks.{AreWordsOf};
ghost use Rattle.doc_types.specs.Schemas.{IsSchema};
ghost use Rattle.store_reads.specs.Reads.{HasStoreCause};
ghost use Rattle.index_tool.specs.ToolLines.{each_chunk};
ghost use Rattle.index_tool.specs.steps.Pieces.{counts_of};
ghost use Rattle.index_tool.specs.steps.Reads.{IsRead, ReadsFiles, ShowsMode};
ghost use Rattle.index_tool.specs.steps.Shown.{AreAscending, counts_found, entries_found, lines_of, rows_found};
ghost use Rattle.index_tool.specs.steps.Sides.{PrintsLines};
ghost use Rattle.index_tool.specs.steps.Words.{mode_said};

use crate::asking::Mode;
use crate::chunks::{Part, print_chunks, words_are_known};
use crate::folding::fold_word;
use crate::host::ToolHost;
use crate::lines::{Counts, put_index};
use crate::printing::{Stop, print_line};
use chunk_store::Disk;
use doc_types::{Layer, Schema, Snapshot};
use image_chunk::AnyChunk;
use index_conf::IndexConf;
use root_slots::ChunkEntry;
use srch_base::NoMemory;
use std::alloc::Global;
use std::thread::Threads;
use store_reads::{Found, StoreFault, read_directory, read_root};

/// Reads what the files of an index hold: None where no slot is open.
pub(crate) fn read_files<D: Disk, R: Threads>(
    rt: &R,
    alloc: Global,
    disk: &mut D,
    schema: &Schema,
) -> Result<Option<Found>, StoreFault>
    requires { IsSchema schema.now }
    ensures reads { ReadsFiles schema.now (D.told disk.old) result }
    ensures dead { IfOk result AreAscending }
    ensures looks { OnlyReads D.Disk disk.old disk.new }
    ensures keeps { KeepsAll D.may_leave disk.old disk.new }
    ensures cause { HasStoreCause (D.faults disk.old) (D.faults disk.new) result }
{
    match read_root(alloc, disk) {
        Ok((root, Some(state))) => match read_directory(rt, alloc, disk, schema, root, state) {
            Ok(found) => Ok(Some(found)),
            Err(fault) => Err(fault),
        },
        Ok((_root, None)) => Ok(None),
        Err(fault) => Err(fault),
    }
}

/// Prints what is asked of the files of an index that hold this.
pub(crate) fn show<H: ToolHost>(
    alloc: Global,
    mode: Mode<'_>,
    index: &IndexConf,
    found: &Option<Found>,
    host: &mut H,
) -> Result<(), Stop>
    requires { AreAscending found.now }
    ensures { (told : Option Image) → IsRead index.now.schema told found.now → ShowsMode H.ToolHost (mode_said mode.entry) index.now told result host.old host.new }
{
    words_known(found);
    let mut line = Vec::new(alloc);
    match mode {
        Mode::Check => match show_index(index, found, &mut line, host) {
            Ok(()) => show_chunks(alloc, Part::Summary, found, &mut line, host),
            Err(stop) => Err(stop),
        },
        Mode::Dictionary => show_chunks(alloc, Part::Words, found, &mut line, host),
        Mode::Hits(text) => match fold_word(alloc, &index.charset, text) {
            Ok(Some(word)) => {
                let (schema, word) = (&index.schema, word.as_bytes());
                show_chunks(alloc, Part::Hits { schema, word }, found, &mut line, host)
            }
            Ok(None) => Ok(()),
            Err(NoMemory) => Err(Stop::NoMemory),
        },
    }
}

/// The words of the chunks that were found are those of their rows.
fn words_known(found: &Option<Found>)
    ensures { (words : List (List (List ℕ))) × AllZip AreWordsOf (rows_found found.now) words }
{
    if let Some(found) = found {
        let snapshot: &Snapshot<AnyChunk> = &found.snapshot;
        words_are_known(snapshot.layers.as_slice());
    }
}

/// Prints the line of an index.
fn show_index<H: ToolHost>(
    index: &IndexConf,
    found: &Option<Found>,
    line: &mut Vec<u8>,
    host: &mut H,
) -> Result<(), Stop>
    requires { line.old.items ≡ [] }
    ensures prints { PrintsLines H.ToolHost result (counts_of index.now.schema.name (counts_found found.now)) host.old host.new }
    ensures empty { OnOk result (line.new.items ≡ []) }
{
    match put_index(index.schema.name.as_bytes(), counts_in(found), line) {
        Ok(()) => print_line(line, host),
        Err(NoMemory) => Err(Stop::NoMemory),
    }
}

/// How much was found.
fn counts_in(found: &Option<Found>) -> Counts
    ensures { result ≡ counts_found found.now }
{
    match found {
        Some(found) => Counts {
            documents: found.documents,
            chunks: found.files.state.chunks.as_slice().len() as u64,
            records: found.records,
        },
        None => Counts {
            documents: 0,
            chunks: 0,
            records: 0,
        },
    }
}

/// Prints the lines of the chunks.
fn show_chunks<H: ToolHost>(
    alloc: Global,
    part: Part<'_>,
    found: &Option<Found>,
    line: &mut Vec<u8>,
    host: &mut H,
) -> Result<(), Stop>
    requires begins { line.old.items ≡ [] }
    requires dead { AreAscending found.now }
    ensures { (words : List (List (List ℕ))) → AllZip AreWordsOf (rows_found found.now) words → PrintsLines H.ToolHost result (each_chunk (lines_of part.entry) (entries_found found.now) (rows_found found.now) words) host.old host.new }
{
    match found {
        Some(found) => {
            let snapshot: &Snapshot<AnyChunk> = &found.snapshot;
            let layers: &[Layer<AnyChunk>] = snapshot.layers.as_slice();
            let entries: &[ChunkEntry] = found.files.state.chunks.as_slice();
            print_chunks(alloc, part, entries, layers, line, host)
        }
        None => Ok(()),
    }
}
