//! Runs of the program on a host in memory, by the rows of a table: what is asked, with which stores and doors, and what a run
//! comes to. What doesn't hold is answered by none, and said in the text that each function is lent.
ghost use Rattle.std.specs.Prelude.{◌≤◌, length, All, IfSome};
ghost use Rattle.chunk_store.specs.contracts.memory_disk.MemoryDiskDisk.TheImpl as memory_words;
ghost use Rattle.store_keep.specs.Opens.{HidesNothing};

use crate::disks::{put_left, stores_of};
use crate::lines::{add_number, doors_of, is_served};
use crate::table_door::TableDoor;
use crate::table_host::TableHost;
use crate::told::put_told;
use chunk_store::MemoryDisk;
use client_doors::Lent;
use program_host::MemoryHost;
use searchd_top::searchd;
use srch_base::{ListDoor, Text};
use std::alloc::Global;
use std::sync::Wait;
use std::thread::Threads;

/// The files of each host: a path, and the text, each of whose lines ends in `;`. The first four are configurations of indexes that
/// have their names or `shop` as their paths, and then two of one index with another column; the others are none.
const FILES: &str = "one: index one {;type = rt;path = one;rt_field = title;};
rt: index rt {;type = rt;path = rt;rt_field = title;};
shop: index rt {;type = rt;path = shop;rt_field = title;rt_field = content;rt_attr_uint = gid;rt_attr_bigint = price;};
both: index one {;type = rt;path = one;rt_field = title;};index two {;type = rt;path = two;rt_field = title;};
first: index one {;type = rt;path = one;rt_field = body;};index two {;type = rt;path = two;rt_field = title;};
second: index one {;type = rt;path = one;rt_field = title;};index two {;type = rt;path = two;rt_field = body;};
section: indx one {;};
key: index one {;type = rt;path = one;rt_feld = title;};
path: index one {;type = rt;rt_field = title;};
nothing: ";

/// The file of a line.
fn file_of(alloc: Global, line: &str) -> Option<(Text, Vec<u8>)> {
    let (path, text) = line.split_once(": ")?;
    let path = Text::from_slice(alloc, path.as_bytes()).ok()?;
    Some((path, text.replace(alloc, ";", "\n").ok()?.into_bytes()))
}

/// The lines of the files.
fn lines_of_files() -> &'static str {
    FILES
}

/// The files of a host.
fn files(alloc: Global) -> Option<Vec<(Text, Vec<u8>)>> {
    let mut files = Vec::new(alloc);
    for line in lines_of_files().lines() {
        files.push(file_of(alloc, line)?).ok()?;
    }
    Some(files)
}

/// So many doors without lines.
fn doors_without_lines(alloc: Global, count: usize) -> Option<Vec<ListDoor>> {
    let mut doors = Vec::new(alloc);
    for _ in 0..count {
        doors
            .push(ListDoor::new(alloc, Vec::new(alloc)).ok()?)
            .ok()?;
    }
    Some(doors)
}

/// The numbers of calls, with blanks between.
fn numbers_of(alloc: Global, calls: &str) -> Option<Vec<u32>> {
    let mut numbers = Vec::new(alloc);
    for call in calls.split(" ") {
        if !call.is_empty() {
            add_number(&mut numbers, call)?;
        }
    }
    Some(numbers)
}

/// The words of a command line, with blanks between.
fn words_of(alloc: Global, text: &str) -> Option<Vec<String>> {
    let mut words = Vec::new(alloc);
    for word in text.split(" ") {
        words.push(String::from_str(alloc, word).ok()?).ok()?;
    }
    Some(words)
}

/// The fields of a row behind what it is of, and what it says that the run comes to.
#[derive(Clone, Copy)]
struct Row<'a> {
    words: &'a str,
    stores: &'a str,
    calls: &'a str,
    doors: &'a str,
    wanted: &'a str,
}

/// The fields of a row, or none where it lacks one.
fn fields_of(row: &str) -> Option<Row<'_>> {
    let (_, rest) = row.split_once(" | ")?;
    let (words, rest) = rest.split_once(" | ")?;
    let (stores, rest) = rest.split_once(" | ")?;
    let (calls, rest) = rest.split_once(" | ")?;
    let (doors, wanted) = rest.split_once(" ⇒ ")?;
    Some(Row {
        words,
        stores,
        calls,
        doors,
        wanted,
    })
}

/// A host over memory with the stores of a row, whose calls of the row's numbers fail. It has so many doors, which none
/// sees.
fn base_of(
    alloc: Global,
    row: &Row<'_>,
    doors: usize,
    stores: Vec<(Text, MemoryDisk)>,
) -> Option<MemoryHost>
    requires { All (λ store. HidesNothing memory_words.ghosts store.1) stores.items }
    ensures { IfSome result (λ host. length host.stores_back ≤ length host.stores_given) }
{
    let failing = numbers_of(alloc, row.calls)?;
    let doors = doors_without_lines(alloc, doors)?;
    MemoryHost::new(alloc, files(alloc)?, stores, doors, failing).ok()
}

/// The host of a row, where the run before left this store.
fn host_of(alloc: Global, row: &Row<'_>, before: Option<&MemoryDisk>) -> Option<TableHost>
    ensures { IfSome result (λ host. length host.base.stores_back ≤ length host.base.stores_given) }
{
    let doors = doors_of(alloc, row.doors)?;
    let stores = stores_of(alloc, row.stores, before)?;
    let base = base_of(alloc, row, doors.len(), stores)?;
    Some(TableHost {
        alloc,
        base,
        doors,
        lent: Lent::new(),
        back: Vec::new(alloc),
    })
}

/// What the runs of a test share: the host of the last one, and what is said of it.
#[derive(Drop)]
pub(crate) struct Runs {
    pub(crate) alloc: Global,
    host: Option<TableHost>,
    pub(crate) said: String,
}

impl Runs {
    /// None was made yet.
    pub(crate) fn new(alloc: Global) -> Runs {
        Runs {
            alloc,
            host: None,
            said: String::new(alloc),
        }
    }

    /// The first store that came back in the last run.
    pub(crate) fn store_back(&self) -> Option<&MemoryDisk> {
        self.host.as_ref()?.base.stores_back().first()
    }
}

/// Runs the words of a command line over a host. Gives the exit status.
fn run_words<R: Threads + Wait + Sync>(
    rt: &R,
    alloc: Global,
    words: &str,
    host: &mut TableHost,
) -> Option<u8>
    requires { length host.old.base.stores_back ≤ length host.old.base.stores_given }
{
    let words = words_of(alloc, words)?;
    Some(searchd(rt, alloc, words.as_slice(), host).code())
}

/// None where the doors that came back aren't served as the words say.
fn are_served(alloc: Global, words: &str, back: &[TableDoor], said: &mut String) -> Option<()> {
    let mut back = back.iter();
    for words in words.split(" / ") {
        if let Some(door) = back.next() {
            is_served(alloc, words, door, said)?;
        }
    }
    Some(())
}

/// None where a run came to something else than its row says; then that is said.
fn is_wanted(
    alloc: Global,
    row: &Row<'_>,
    code: Option<u8>,
    host: &TableHost,
    said: &mut String,
) -> Option<()> {
    said.push_str(" came to: ").ok()?;
    put_told(said, code?, host)?;
    let before = said.as_str().strip_suffix(row.wanted)?;
    if !before.ends_with(" came to: ") {
        return None;
    }
    are_served(alloc, row.doors, host.back.as_slice(), said)
}

/// Runs a row of a table, with the store that the run before left. None where the run came to something else than the row says.
///
/// What the row is of, ` | `, the words, ` | `, the stores as `stores_of` reads them, ` | `, the calls of the host that fail, ` | `, the doors
/// as `doors_of` reads them, and ` ⇒ ` with what `put_told` tells.
pub(crate) fn run_row<R: Threads + Wait + Sync>(rt: &R, runs: &mut Runs, row: &str) -> Option<()> {
    runs.said.clear();
    runs.said.push_str(row).ok()?;
    let row = fields_of(row)?;
    let mut host = host_of(runs.alloc, &row, runs.store_back())?;
    let code = run_words(rt, runs.alloc, row.words, &mut host);
    let holds = is_wanted(runs.alloc, &row, code, &host, &mut runs.said);
    runs.host = Some(host);
    holds
}

/// None where a crash leaves other files than these of the first store that came back, whatever its pick; no files stand for any.
fn are_left(runs: &mut Runs, files: &str) -> Option<()> {
    if files.is_empty() {
        return Some(());
    }
    let store = runs.host.as_ref()?.base.stores_back().first()?;
    for pick in 0..4 {
        put_left(runs.alloc, store, pick, &mut runs.said)?;
        if !runs.said.as_str().ends_with(files) {
            return None;
        }
    }
    Some(())
}

/// Goes through a table: a line with the files that each run leaves, or nothing, and the rows. None where one comes to something else;
/// then that is said.
pub(crate) fn run_table<R: Threads + Wait + Sync>(
    rt: &R,
    runs: &mut Runs,
    table: &str,
) -> Option<()> {
    let (files, rows) = table.split_once("\n")?;
    for row in rows.lines() {
        run_row(rt, runs, row)?;
        are_left(runs, files)?;
    }
    Some(())
}
