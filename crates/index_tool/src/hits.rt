//! The places of a word in a chunk: the dictionary finds the word, and then its posting list alone is read.
ghost use Rattle.std.specs.Prelude.{◌≡◌, ◌<◌, ℕ, [], OnOk, AllPairs};
ghost use Rattle.std.specs.List.{flat_map};
ghost use Rattle.doc_types.specs.Chunks.{first_place};
ghost use Rattle.doc_types.specs.declared.documents.DocRow.{DocRow};
ghost use Rattle.index_tool.specs.ToolLines.{hit_line, hit_lines};
ghost use Rattle.index_tool.specs.steps.Sides.{BuffersLines, PrintsLines};

use crate::host::ToolHost;
use crate::lines::put_hit;
use crate::printing::{Stop, print_full, print_rest};
use doc_types::{Cursor, HitLists, Schema};
use layer_commit::is_dead;
use root_slots::ChunkEntry;
use srch_base::{NoMemory, Steps};
use std::alloc::Global;
use std::marker::Brand;
use std::sync::ledger::{Blank, Ledger};

/// What is looked for in a chunk: a word, in fields with these names, in a file as the root names it.
#[derive(Clone, Copy)]
pub(crate) struct Wanted<'a> {
    pub(crate) schema: &'a Schema,
    pub(crate) word: &'a [u8],
    pub(crate) entry: &'a ChunkEntry,
}

/// Prints a line of each place of a word in the rows of a chunk that aren't dead.
pub(crate) fn print_hits<H: ToolHost, C: HitLists>(
    alloc: Global,
    wanted: Wanted<'_>,
    chunk: &C,
    line: &mut Vec<u8>,
    host: &mut H,
) -> Result<(), Stop>
    requires begins { line.old.items ≡ [] }
    requires dead { AllPairs (λ row later. row < later) wanted.entry.now.dead }
    ensures prints { PrintsLines H.ToolHost result (hit_lines wanted.entry.schema.now wanted.entry.word.now wanted.entry.entry.now (C.content chunk.now)) host.old host.new }
    ensures empty { OnOk result (line.new.items ≡ []) }
{
    match chunk.start(wanted.word) {
        Some(cursor) => {
            let blank = Blank::new(1);
            match buffer_from::<Brand, H, C>(alloc, wanted, chunk, cursor, blank, line, host) {
                Ok(()) => print_rest(line, host),
                Err(stop) => Err(stop),
            }
        }
        None => Ok(()),
    }
}

/// Puts these lines into the buffer, which is printed whenever it is full, from a cursor before all rows that have the word. The steps
/// of opening are counted, as chunks ask it, and not used.
fn buffer_from<L: Ledger, H: ToolHost, C: HitLists>(
    alloc: Global,
    wanted: Wanted<'_>,
    chunk: &C,
    cursor: Cursor,
    blank: Blank,
    line: &mut Vec<u8>,
    host: &mut H,
) -> Result<(), Stop>
    requires name { blank.name ≡ L.name }
    requires parts { blank.parts ≡ L.parts }
    requires some { 0 < blank.parts }
    requires dead { AllPairs (λ row later. row < later) wanted.entry.now.dead }
    requires belongs { C.belongs chunk.now cursor }
    requires first { C.place chunk.now cursor ≡ first_place wanted.word.now (C.content chunk.now) }
    ensures { BuffersLines H.ToolHost result (hit_lines wanted.entry.schema.now wanted.entry.word.now wanted.entry.entry.now (C.content chunk.now)) (line.old.items, host.old) (line.new.items, host.new) }
{
    let mut steps = Steps::<L>::new(blank);
    let mut hits = Vec::new(alloc);
    let mut here = cursor;
    'rows: while let Some(row) = chunk.row(&here) {
        if is_dead(wanted.entry.dead.as_slice(), row) {
            chunk.advance(&mut here);
            continue;
        }
        hits.clear();
        match chunk.open(&here, &mut hits, &mut steps) {
            Ok(()) => {}
            Err(NoMemory) => return Err(Stop::NoMemory),
        }
        match buffer_row(wanted, chunk.id(row), hits.as_slice(), line, host) {
            Ok(()) => {}
            Err(stop) => return Err(stop),
        }
        chunk.advance(&mut here);
    }
    Ok(())
}

/// Puts a line of each of these places in the row of an id into the buffer.
fn buffer_row<H: ToolHost>(
    wanted: Wanted<'_>,
    id: u64,
    hits: &[(u16, u32)],
    line: &mut Vec<u8>,
    host: &mut H,
) -> Result<(), Stop>
    ensures { (row : DocRow) → row.doc.id ≡ id → BuffersLines H.ToolHost result (flat_map (hit_line wanted.entry.schema.now wanted.entry.entry.now row) hits.now) (line.old.items, host.old) (line.new.items, host.new) }
{
    'hits: for hit in hits {
        match buffer_hit(wanted, id, *hit, line, host) {
            Ok(()) => {}
            Err(stop) => return Err(stop),
        }
    }
    Ok(())
}

/// Puts the line of a place in the row of an id into the buffer.
fn buffer_hit<H: ToolHost>(
    wanted: Wanted<'_>,
    id: u64,
    hit: (u16, u32),
    line: &mut Vec<u8>,
    host: &mut H,
) -> Result<(), Stop>
    ensures { (row : DocRow) → row.doc.id ≡ id → BuffersLines H.ToolHost result (hit_line wanted.entry.schema.now wanted.entry.entry.now row hit) (line.old.items, host.old) (line.new.items, host.new) }
{
    match put_hit(wanted.schema, wanted.entry, id, hit, line) {
        Ok(()) => print_full(line, host),
        Err(NoMemory) => Err(Stop::NoMemory),
    }
}
