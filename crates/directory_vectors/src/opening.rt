//! A disk comes up after a crash, its store is opened, and what is there is compared with what is wanted.
ghost use Rattle.doc_types.specs.Schemas.{IsSchema};
ghost use Rattle.index_conf.specs.Soundness.{IsSound};

use crate::directories::{ONE_FIELD, SIX_COLUMNS};
use crate::running::run;
use crate::spelling::{put_files, write_out};
use chunk_store::MemoryDisk;
use conf_text::read_conf;
use doc_types::Schema;
use index_conf::Conf;
use std::alloc::Global;
use std::sync::Wait;
use std::thread::Threads;

/// The indexes of the tables: one with one field, and one with two fields and four attributes.
const INDEXES: &str = "index one {\ntype = rt\npath = a\nrt_field = title\n}\n\
index two {\ntype = rt\npath = b\nrt_field = title\nrt_field = body\nrt_attr_uint = gid\n\
rt_attr_bigint = price\nrt_attr_bool = flag\nrt_attr_timestamp = seen\n}\n";

/// The disk after a crash behind its first calls, once its store was opened again. What opening tells is said.
pub(crate) fn reopened<R: Threads + Wait>(
    rt: &R,
    alloc: Global,
    disk: &MemoryDisk,
    at: (u64, u8),
    schema: &Schema,
    said: &mut String,
) -> Option<MemoryDisk>
    requires { IsSchema schema.now }
{
    said.clear();
    let left = disk.after_crash(at.0, at.1).ok()?;
    Some(run(rt, alloc, left, schema, &[], said))
}

/// None where something else was said than is wanted, which may be one of several texts with ` | ` between; then that follows.
pub(crate) fn is_wanted(wanted: &str, said: &mut String) -> Option<()> {
    for text in wanted.split(" | ") {
        if said.as_str() == text {
            return Some(());
        }
    }
    said.push_str(" in place of ").ok()?;
    said.push_str(wanted).ok()?;
    None
}

/// None where opening tells something else after such a crash; then that is said.
pub(crate) fn gives<R: Threads + Wait>(
    rt: &R,
    alloc: Global,
    disk: &MemoryDisk,
    at: (u64, u8),
    schema: &Schema,
    wanted: &str,
    said: &mut String,
) -> Option<()>
    requires { IsSchema schema.now }
{
    let _left = reopened(rt, alloc, disk, at, schema, said)?;
    is_wanted(wanted, said)
}

/// None where the directory of a line is told otherwise than the line says.
fn is_told<R: Threads + Wait>(
    rt: &R,
    alloc: Global,
    schema: &Schema,
    line: &str,
    said: &mut String,
) -> Option<()>
    requires { IsSchema schema.now }
{
    let (directory, wanted) = line.split_once(" ⇒ ")?;
    let (_, files) = directory.split_once(" | ")?;
    let mut disk = MemoryDisk::new(alloc, Vec::new(alloc));
    put_files(alloc, files, &mut disk)?;
    gives(rt, alloc, &disk, (disk.calls(), 0), schema, wanted, said)
}

/// None where a line of a table is such a line.
fn is_table<R: Threads + Wait>(
    rt: &R,
    alloc: Global,
    schema: &Schema,
    table: &str,
    said: &mut String,
) -> Option<()>
    requires { IsSchema schema.now }
{
    let mut whole = String::new(alloc);
    for line in table.lines().skip(1) {
        whole.clear();
        write_out(line, &mut whole)?;
        is_told(rt, alloc, schema, whole.as_str(), said)?;
    }
    Some(())
}

/// None where one of the tables is such a table.
fn are_tables<R: Threads + Wait>(
    rt: &R,
    alloc: Global,
    conf: &Conf,
    said: &mut String,
) -> Option<()>
    requires { IsSound conf.now }
{
    let one = conf.indexes.as_slice().get(0)?;
    let two = conf.indexes.as_slice().get(1)?;
    is_table(rt, alloc, &one.schema, ONE_FIELD, said)?;
    is_table(rt, alloc, &two.schema, SIX_COLUMNS, said)
}

/// None where a directory is told otherwise than its line says; then that is said.
pub(crate) fn are_told<R: Threads + Wait>(rt: &R, alloc: Global, said: &mut String) -> Option<()> {
    let conf = read_conf(alloc, INDEXES.as_bytes()).ok()?;
    are_tables(rt, alloc, &conf, said)
}
