//! The top call: the words are looked at first, then the configuration is read, then the store of the index is looked at. The first
//! refusal decides the status, and its line is printed to the errors.
ghost use Rattle.std.specs.Prelude.{◌≡◌, ◌↔◌, ◌≤◌, Some, None, length, map, string_bytes};
ghost use Rattle.std.specs.Str.{IsUtf8};
ghost use Rattle.doc_types.specs.Schemas.{IsSchema};
ghost use Rattle.program_host.specs.Printing.{IsReported, Reports};
ghost use Rattle.index_tool.specs.Asking.{asked};
ghost use Rattle.index_tool.specs.Runs.{Runs};
ghost use Rattle.index_tool.specs.Statuses.{NamesIndex, line_of, shown};
ghost use Rattle.index_tool.specs.steps.Reads.{Looks};
ghost use Rattle.index_tool.specs.steps.Sides.{KeepsLent};
ghost use Rattle.index_tool.specs.steps.Words.{mode_said, read_by, said, shown_by};

use crate::asking::{Asked, Mode, read_words};
use crate::configuring::{configure, index_named};
use crate::host::ToolHost;
use crate::printing::Stop;
use crate::showing::{read_files, show};
use crate::status::ToolStatus;
use index_conf::IndexConf;
use program_host::Stream;
use srch_base::Failed;
use std::alloc::Global;
use std::thread::Threads;
use store_reads::StoreFault;
use store_steps::Damage;

/// Does what the words ask. `words` are those after the program's name.
///
/// `--config F --check I` reads the configuration in the file F, looks at the store of its index I, and prints what that holds: a line
/// of the index, and one of each chunk. `--config F --dumpdict I` prints a line of each word of each chunk, and `--config F
/// --dumphitlist I W` one of each place where the word that W is folded to stands in the rows of the chunks that aren't dead.
///
/// All files are read before a line is printed, and a directory that is damaged prints none. What the logs have besides is counted by
/// the check and isn't in the other two. The store that the host gives is handed back, with each image that a crash might have left of
/// it before.
pub fn indextool<H: ToolHost, R: Threads>(
    rt: &R,
    alloc: Global,
    words: &[String],
    host: &mut H,
) -> ToolStatus
    requires { length (H.stores_back host.old) ≤ length (H.stores_given host.old) }
    ensures usage { (result ≡ ToolStatus.Usage) ↔ (asked (map string_bytes words.now) ≡ None) }
    ensures runs { Runs H.ToolHost H.Store.Disk (asked (map string_bytes words.now)) result host.old host.new }
    ensures reports { IsReported (line_of (asked (map string_bytes words.now)) result) (H.printed host.old Stream.Err) (H.printed host.new Stream.Err) (H.print_faults host.old Stream.Err) (H.print_faults host.new Stream.Err) }
{
    match read_words(words) {
        Some(asked) => {
            let status = run(rt, alloc, asked, host);
            report(status, asked.index, host);
            status
        }
        None => {
            report(ToolStatus::Usage, "", host);
            ToolStatus::Usage
        }
    }
}

/// Reads the configuration, and looks at the index that was asked for.
fn run<H: ToolHost, R: Threads>(rt: &R, alloc: Global, asked: Asked<'_>, host: &mut H) -> ToolStatus
    requires { length (H.stores_back host.old) ≤ length (H.stores_given host.old) }
    ensures usage { ¬ (result ≡ ToolStatus.Usage) }
    ensures runs { Runs H.ToolHost H.Store.Disk (Some (said asked.entry)) result host.old host.new }
    ensures names { NamesIndex asked.entry.index.now result }
    ensures errors { H.printed host.new Stream.Err ≡ H.printed host.old Stream.Err }
    ensures quiet { H.print_faults host.new Stream.Err ≡ H.print_faults host.old Stream.Err }
{
    match configure(alloc, asked.config, host) {
        Ok(conf) => match index_named(conf.indexes.as_slice(), asked.index) {
            Some(index) => look(rt, alloc, asked.mode, index, host),
            None => ToolStatus::UnknownIndex,
        },
        Err(status) => status,
    }
}

/// Looks at the store of an index, and hands it back.
fn look<H: ToolHost, R: Threads>(
    rt: &R,
    alloc: Global,
    mode: Mode<'_>,
    index: &IndexConf,
    host: &mut H,
) -> ToolStatus
    requires schema { IsSchema index.now.schema }
    requires path { IsUtf8 index.now.path }
    requires stores { length (H.stores_back host.old) ≤ length (H.stores_given host.old) }
    ensures usage { ¬ (result ≡ ToolStatus.Usage) }
    ensures looks { Looks H.ToolHost H.Store.Disk (mode_said mode.entry) index.now result host.old host.new }
    ensures errors { H.printed host.new Stream.Err ≡ H.printed host.old Stream.Err }
    ensures quiet { H.print_faults host.new Stream.Err ≡ H.print_faults host.old Stream.Err }
{
    let mut store = match host.open_store(path_of(index)) {
        Ok(store) => store,
        Err(fault) => return ToolStatus::from(fault),
    };
    let read = read_files(rt, alloc, &mut store, &index.schema);
    host.give_back(store);
    match read {
        Ok(found) => status_shown(show(alloc, mode, index, &found, host)),
        Err(fault) => status_of(fault),
    }
}

/// Where the files of an index are. It is a text, as all of a configuration is.
fn path_of(index: &IndexConf) -> &str
    requires { IsUtf8 index.now.path }
    ensures { result.now ≡ index.now.path }
{
    str::from_utf8(index.path.as_bytes()).unwrap()
}

/// What the run ends with once lines were printed.
fn status_shown(shown: Result<(), Stop>) -> ToolStatus
    ensures { result ≡ shown_by shown }
{
    match shown {
        Ok(()) => ToolStatus::Done,
        Err(Stop::NoMemory) => ToolStatus::NoMemory,
        Err(Stop::HostFault) => ToolStatus::HostFault,
    }
}

/// What the run ends with where the store can't be read.
fn status_of(fault: StoreFault) -> ToolStatus
    ensures { result ≡ read_by fault }
{
    match fault {
        StoreFault::NoMemory => ToolStatus::NoMemory,
        StoreFault::DiskFault => ToolStatus::HostFault,
        StoreFault::Damaged(Damage { file, place, kind }) => {
            ToolStatus::Damaged { file, place, kind }
        }
    }
}

/// Prints the status's line to the errors. A print that fails changes nothing else.
fn report<H: ToolHost>(status: ToolStatus, index: &str, host: &mut H)
    requires { NamesIndex index.now status }
    ensures prints { Reports (shown index.now status).printed (H.printed host.old) (H.printed host.new) (H.print_faults host.old Stream.Err) (H.print_faults host.new Stream.Err) }
    ensures quiet { H.print_faults host.new Stream.Out ≡ H.print_faults host.old Stream.Out }
    ensures lent { KeepsLent H.ToolHost host.old host.new }
{
    if let ToolStatus::Done = status {
        return;
    }
    match host.print(Stream::Err, &status.line(index.as_bytes())) {
        Ok(()) | Err(Failed) => {}
    }
}
