//! A check: the stores of all indexes are opened, and a line of each is printed.
ghost use Rattle.std.specs.Prelude.{◌≡◌, ◌+◌, ◌≤◌, ◌++◌, Some, IfOk, OnOk, decimal, length, map};
ghost use Rattle.index_conf.specs.Soundness.{IsSound};
ghost use Rattle.command_line.specs.Modes.{check};
ghost use Rattle.program_host.specs.Statuses.{NamesIndex};
ghost use Rattle.searchd_top.specs.Checks.{ChecksIndexes, check_line, check_lines};
ghost use Rattle.searchd_top.specs.Requests.{store_requests};
ghost use Rattle.searchd_top.specs.Runs.{Runs};
ghost use Rattle.searchd_top.specs.steps.Openings.{disks_of, holdings_of};
ghost use Rattle.searchd_top.specs.steps.Sides.{AreTexts, DoesBy, HandsBack, PrintsOut};

use crate::configuring::configure;
use crate::opening::{give_up, hand_back, open_stores};
use crate::printing::print_output;
use chunk_store::Disk;
use index_conf::{Conf, IndexConf};
use itoa::Buffer;
use program_host::{Host, Status, Stream};
use srch_base::NoMemory;
use std::alloc::Global;
use std::thread::Threads;
use store_keep::Opened;

/// Reads the configuration, and checks its indexes.
pub(crate) fn run_check<H: Host, R: Threads>(
    rt: &R,
    alloc: Global,
    file: &str,
    host: &mut H,
) -> Status
    requires { length (H.stores_back host.old) ≤ length (H.stores_given host.old) }
    ensures runs { Runs H.Host H.Store.Disk H.Entry.Door H.Entry.Line.Link (Some (check file.now)) result host.old host.new }
    ensures asked { ¬ (result ≡ Status.Usage) }
    ensures names { NamesIndex result }
    ensures errors { H.printed host.new Stream.Err ≡ H.printed host.old Stream.Err }
    ensures quiet { H.print_faults host.new Stream.Err ≡ H.print_faults host.old Stream.Err }
{
    match configure(alloc, file, host) {
        Ok(conf) => check(rt, alloc, &conf, host),
        Err(status) => status,
    }
}

/// Opens the stores of these indexes, hands them back, and prints what each has. No line is printed before all are open.
fn check<H: Host, R: Threads>(rt: &R, alloc: Global, conf: &Conf, host: &mut H) -> Status
    requires sound { IsSound conf.now }
    requires paths { AreTexts conf.now.indexes }
    requires stores { length (H.stores_back host.old) ≤ length (H.stores_given host.old) }
    ensures checks { DoesBy H.Host host.old host.new (ChecksIndexes H.Store.Disk conf.now.indexes (store_requests conf.now.indexes) result) }
    ensures asked { ¬ (result ≡ Status.Usage) }
    ensures names { NamesIndex result }
    ensures errors { H.printed host.new Stream.Err ≡ H.printed host.old Stream.Err }
    ensures quiet { H.print_faults host.new Stream.Err ≡ H.print_faults host.old Stream.Err }
{
    let indexes = conf.indexes.as_slice();
    let mut opened = Vec::new(alloc);
    match open_stores(rt, alloc, indexes, &mut opened, host) {
        Ok(()) => print_checked(alloc, indexes, opened, host),
        Err(stop) => give_up(opened, stop, host),
    }
}

/// Hands the stores of indexes back, and prints what each has.
fn print_checked<H: Host>(
    alloc: Global,
    indexes: &[IndexConf],
    opened: Vec<Opened<H::Store>>,
    host: &mut H,
) -> Status
    requires { length (H.stores_back host.old) + length opened.items ≤ length (H.stores_given host.old) }
    ensures back { HandsBack H.Host (disks_of opened.items) host.old host.new }
    ensures prints { PrintsOut H.Host result (check_lines indexes.now (map holdings_of opened.items)) host.old host.new }
    ensures asked { ¬ (result ≡ Status.Usage) }
    ensures names { NamesIndex result }
    ensures errors { H.printed host.new Stream.Err ≡ H.printed host.old Stream.Err }
    ensures quiet { H.print_faults host.new Stream.Err ≡ H.print_faults host.old Stream.Err }
{
    let lines = lines_of(alloc, indexes, &opened);
    hand_back(opened, host);
    match lines {
        Ok(lines) => print_output(&lines, host),
        Err(NoMemory) => Status::NoMemory,
    }
}

/// A line of each index, by its store.
fn lines_of<S: Disk>(
    alloc: Global,
    indexes: &[IndexConf],
    opened: &[Opened<S>],
) -> Result<Vec<u8>, NoMemory>
    ensures { IfOk result (λ lines. lines.items ≡ check_lines indexes.now (map holdings_of opened.now)) }
{
    let mut lines = Vec::new(alloc);
    put_lines(indexes, opened, &mut lines)?;
    Ok(lines)
}

/// Appends a line of each index.
fn put_lines<S: Disk>(
    indexes: &[IndexConf],
    opened: &[Opened<S>],
    lines: &mut Vec<u8>,
) -> Result<(), NoMemory>
    ensures { OnOk result (lines.new.items ≡ lines.old.items ++ check_lines indexes.now (map holdings_of opened.now)) }
{
    if let Some((index, indexes)) = indexes.split_first()
        && let Some((store, opened)) = opened.split_first()
    {
        put_line(index, store, lines)?;
        put_lines(indexes, opened, lines)?;
    }
    Ok(())
}

/// Appends the line of an index: what was found as its store was opened.
fn put_line<S: Disk>(
    index: &IndexConf,
    store: &Opened<S>,
    lines: &mut Vec<u8>,
) -> Result<(), NoMemory>
    ensures { OnOk result (lines.new.items ≡ lines.old.items ++ check_line index.now.schema.name (holdings_of store.now)) }
{
    lines.extend_from_slice(index.schema.name.as_bytes())?;
    lines.extend_from_slice(b": ")?;
    put_number(u64::from(store.documents()), lines)?;
    lines.extend_from_slice(b" documents, ")?;
    put_number(u64::from(store.disk_chunks()), lines)?;
    lines.extend_from_slice(b" disk chunks, ")?;
    put_number(store.records(), lines)?;
    lines.extend_from_slice(b" log records\n")?;
    Ok(())
}

/// Appends a number.
fn put_number(number: u64, lines: &mut Vec<u8>) -> Result<(), NoMemory>
    ensures { OnOk result (lines.new.items ≡ lines.old.items ++ decimal number) }
{
    let mut digits = Buffer::new();
    lines.extend_from_slice(digits.format(number).as_bytes())?;
    Ok(())
}
