//! The lines of chunks, one chunk after the other as the root names them.
ghost use Rattle.std.specs.Prelude.{◌≡◌, ◌<◌, ℕ, List, [], OnOk, All, AllPairs};
ghost use Rattle.std.specs.List.{AllZip};
ghost use Rattle.doc_types.specs.Chunks.{AreWordsOf};
ghost use Rattle.index_tool.specs.ToolLines.{chunk_line, each_chunk, word_line, word_lines};
ghost use Rattle.index_tool.specs.steps.Shown.{lines_of, rows_on_disk};
ghost use Rattle.index_tool.specs.steps.Sides.{BuffersLines, PrintsLines};

use crate::hits::{Wanted, print_hits};
use crate::host::ToolHost;
use crate::lines::{put_chunk, put_word};
use crate::printing::{Stop, print_full, print_line, print_rest};
use doc_types::{Chunk, HitLists, Layer, Schema};
use root_slots::ChunkEntry;
use srch_base::NoMemory;
use std::alloc::Global;

/// What is shown of each chunk.
#[derive(Clone, Copy)]
pub(crate) enum Part<'a> {
    /// One line of all of it.
    Summary,
    /// A line of each word.
    Words,
    /// A line of each place of a word in the fields of a schema.
    Hits { schema: &'a Schema, word: &'a [u8] },
}

/// Prints the lines of the chunks that are on the disk, each by the root's entry of it.
pub(crate) fn print_chunks<H: ToolHost, C: HitLists>(
    alloc: Global,
    part: Part<'_>,
    entries: &[ChunkEntry],
    layers: &[Layer<C>],
    line: &mut Vec<u8>,
    host: &mut H,
) -> Result<(), Stop>
    requires begins { line.old.items ≡ [] }
    requires dead { All (λ entry. AllPairs (λ row later. row < later) entry.dead) entries.now }
    ensures { (words : List (List (List ℕ))) → AllZip AreWordsOf (rows_on_disk layers.now) words → PrintsLines H.ToolHost result (each_chunk (lines_of part.entry) entries.now (rows_on_disk layers.now) words) host.old host.new }
{
    match layers.split_first() {
        Some((layer, others)) => {
            if !layer.disk {
                return print_chunks(alloc, part, entries, others, line, host);
            }
            match entries.split_first() {
                Some((entry, entries)) => match print_layer(alloc, part, entry, layer, line, host) {
                    Ok(()) => print_chunks(alloc, part, entries, others, line, host),
                    Err(stop) => Err(stop),
                },
                None => Ok(()),
            }
        }
        None => Ok(()),
    }
}

/// Prints the lines of the chunk of a layer.
fn print_layer<H: ToolHost, C: HitLists>(
    alloc: Global,
    part: Part<'_>,
    entry: &ChunkEntry,
    layer: &Layer<C>,
    line: &mut Vec<u8>,
    host: &mut H,
) -> Result<(), Stop>
    requires begins { line.old.items ≡ [] }
    requires dead { AllPairs (λ row later. row < later) entry.now.dead }
    ensures prints { (words : List (List ℕ)) → AreWordsOf layer.now.rows words → PrintsLines H.ToolHost result (lines_of part.entry entry.now layer.now.rows words) host.old host.new }
    ensures empty { OnOk result (line.new.items ≡ []) }
{
    let chunk: &C = &layer.chunk;
    print_chunk(alloc, part, entry, chunk, line, host)
}

/// Prints the lines of a chunk.
fn print_chunk<H: ToolHost, C: HitLists>(
    alloc: Global,
    part: Part<'_>,
    entry: &ChunkEntry,
    chunk: &C,
    line: &mut Vec<u8>,
    host: &mut H,
) -> Result<(), Stop>
    requires begins { line.old.items ≡ [] }
    requires dead { AllPairs (λ row later. row < later) entry.now.dead }
    ensures prints { PrintsLines H.ToolHost result (lines_of part.entry entry.now (C.content chunk.now) (C.words_of chunk.now)) host.old host.new }
    ensures empty { OnOk result (line.new.items ≡ []) }
{
    match part {
        Part::Summary => print_summary(entry, chunk, line, host),
        Part::Words => print_words(entry, chunk, line, host),
        Part::Hits { schema, word } => {
            let wanted = Wanted {
                schema,
                word,
                entry,
            };
            print_hits(alloc, wanted, chunk, line, host)
        }
    }
}

/// Prints the line of a chunk.
fn print_summary<H: ToolHost, C: Chunk>(
    entry: &ChunkEntry,
    chunk: &C,
    line: &mut Vec<u8>,
    host: &mut H,
) -> Result<(), Stop>
    requires { line.old.items ≡ [] }
    ensures prints { PrintsLines H.ToolHost result (chunk_line entry.now (C.content chunk.now) (C.words_of chunk.now)) host.old host.new }
    ensures empty { OnOk result (line.new.items ≡ []) }
{
    match put_chunk(entry, chunk, line) {
        Ok(()) => print_line(line, host),
        Err(NoMemory) => Err(Stop::NoMemory),
    }
}

/// Prints a line of each word of a chunk.
fn print_words<H: ToolHost, C: Chunk>(
    entry: &ChunkEntry,
    chunk: &C,
    line: &mut Vec<u8>,
    host: &mut H,
) -> Result<(), Stop>
    requires { line.old.items ≡ [] }
    ensures prints { PrintsLines H.ToolHost result (word_lines entry.now (C.content chunk.now) (C.words_of chunk.now)) host.old host.new }
    ensures empty { OnOk result (line.new.items ≡ []) }
{
    match buffer_words(entry, chunk, line, host) {
        Ok(()) => print_rest(line, host),
        Err(stop) => Err(stop),
    }
}

/// Puts these lines into the buffer, which is printed whenever it is full.
fn buffer_words<H: ToolHost, C: Chunk>(
    entry: &ChunkEntry,
    chunk: &C,
    line: &mut Vec<u8>,
    host: &mut H,
) -> Result<(), Stop>
    ensures { BuffersLines H.ToolHost result (word_lines entry.now (C.content chunk.now) (C.words_of chunk.now)) (line.old.items, host.old) (line.new.items, host.new) }
{
    'numbers: for number in 0..chunk.words() {
        match buffer_word(entry, chunk, chunk.word_at(number), line, host) {
            Ok(()) => {}
            Err(stop) => return Err(stop),
        }
    }
    Ok(())
}

/// Puts the line of a word of a chunk into the buffer.
fn buffer_word<H: ToolHost, C: Chunk>(
    entry: &ChunkEntry,
    chunk: &C,
    word: &[u8],
    line: &mut Vec<u8>,
    host: &mut H,
) -> Result<(), Stop>
    ensures { BuffersLines H.ToolHost result (word_line entry.now (C.content chunk.now) word.now) (line.old.items, host.old) (line.new.items, host.new) }
{
    match put_word(entry, chunk, word, line) {
        Ok(()) => print_full(line, host),
        Err(NoMemory) => Err(Stop::NoMemory),
    }
}

/// The words of each chunk are those of its rows. That is known of a chunk where it is looked at; this function looks at each one, and
/// does nothing else.
pub(crate) fn words_are_known<C: Chunk>(layers: &[Layer<C>])
    ensures { (words : List (List (List ℕ))) × AllZip AreWordsOf (rows_on_disk layers.now) words }
{
    if let Some((layer, others)) = layers.split_first() {
        let chunk: &C = &layer.chunk;
        let _words = chunk.words();
        words_are_known(others);
    }
}
