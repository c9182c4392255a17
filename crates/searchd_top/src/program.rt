//! The top call: the words of the command line are looked at first, then the configuration is read, then the mode does its work over
//! the indexes. The first refusal decides the status, and its line is printed to the errors.
ghost use Rattle.std.specs.Prelude.{◌≡◌, ◌↔◌, ◌≤◌, None, length, map, string_bytes};
ghost use Rattle.command_line.specs.Modes.{mode};
ghost use Rattle.program_host.specs.Statuses.{NamesIndex, line_of};
ghost use Rattle.program_host.specs.Printing.{IsReported, Reports};
ghost use Rattle.searchd_top.specs.Runs.{Runs};
ghost use Rattle.searchd_top.specs.steps.Sides.{KeepsLent};

use crate::checking::run_check;
use crate::self_testing::run_selftest;
use crate::serving::{run_serve, run_session};
use command_line::{Mode, read_mode};
use program_host::{Host, Status, Stream};
use srch_base::{Door, Failed, NoMemory};
use std::alloc::Global;
use std::sync::Wait;
use std::thread::Threads;

/// Does what the words ask. `words` are those after the program's name.
///
/// `session --config F` reads the configuration in the file F, opens the store of each index, and serves one line over the standard
/// streams. `serve --config F --listen A --workers N --sessions M` does so with N workers at once over a listener, each of which serves
/// at most M lines. A line may end in any way: the status is about the configuration, the host, its stores and doors alone.
///
/// `check --config F` opens the store of each index, and once all are open prints a line of each to the output: how many
/// documents, chunks and records of its log it has. A store without an index is made one without documents.
///
/// `selftest --number S --docs N` writes N documents that S stands for to a session in memory, half of them to the disk first and all
/// into one chunk in the end, asks for them, and prints what was found to the output.
///
/// Each store and door that the host gives is handed back.
pub fn searchd<H: Host, R: Threads + Wait + Sync>(
    rt: &R,
    alloc: Global,
    words: &[String],
    host: &mut H,
) -> Status
where
    <H::Entry as Door>::Line: Send,
    requires stores { length (H.stores_back host.old) ≤ length (H.stores_given host.old) }
    requires doors { length (H.doors_back host.old) ≤ length (H.doors_given host.old) }
    ensures usage { (result ≡ Status.Usage) ↔ (mode (map string_bytes words.now) ≡ None) }
    ensures runs { Runs H.Host H.Store.Disk H.Entry.Door H.Entry.Line.Link (mode (map string_bytes words.now)) result host.old host.new }
    ensures names { NamesIndex result }
    ensures prints { IsReported (line_of result) (H.printed host.old Stream.Err) (H.printed host.new Stream.Err) (H.print_faults host.old Stream.Err) (H.print_faults host.new Stream.Err) }
{
    let status = run(rt, alloc, words, host);
    report(&status, host);
    status
}

/// Runs the mode that the words ask for. Words that ask for none are Usage.
fn run<H: Host, R: Threads + Wait + Sync>(
    rt: &R,
    alloc: Global,
    words: &[String],
    host: &mut H,
) -> Status
where
    <H::Entry as Door>::Line: Send,
    requires stores { length (H.stores_back host.old) ≤ length (H.stores_given host.old) }
    requires doors { length (H.doors_back host.old) ≤ length (H.doors_given host.old) }
    ensures usage { (result ≡ Status.Usage) ↔ (mode (map string_bytes words.now) ≡ None) }
    ensures runs { Runs H.Host H.Store.Disk H.Entry.Door H.Entry.Line.Link (mode (map string_bytes words.now)) result host.old host.new }
    ensures names { NamesIndex result }
    ensures errors { H.printed host.new Stream.Err ≡ H.printed host.old Stream.Err }
    ensures quiet { H.print_faults host.new Stream.Err ≡ H.print_faults host.old Stream.Err }
{
    let mode = match read_mode(alloc, words) {
        Ok(mode) => mode,
        Err(NoMemory) => return Status::NoMemory,
    };
    match mode {
        Some(Mode::Session { config }) => run_session(rt, alloc, config, host),
        Some(
            Mode::Serve {
                config,
                listen,
                workers,
                sessions,
            },
        ) => run_serve(rt, alloc, config, listen, workers, sessions, host),
        Some(Mode::Check { config }) => run_check(rt, alloc, config, host),
        Some(Mode::Selftest { number, docs }) => run_selftest(rt, alloc, number, docs, host),
        None => Status::Usage,
    }
}

/// Prints the status's line to the errors. A print that fails changes nothing else.
fn report<H: Host>(status: &Status, host: &mut H)
    requires { NamesIndex status.now }
    ensures prints { Reports (line_of status.now) (H.printed host.old) (H.printed host.new) (H.print_faults host.old Stream.Err) (H.print_faults host.new Stream.Err) }
    ensures quiet { H.print_faults host.new Stream.Out ≡ H.print_faults host.old Stream.Out }
    ensures asks { H.requests host.new ≡ H.requests host.old }
    ensures lent { KeepsLent H.Host host.old host.new }
    ensures count { H.faults host.new ≡ H.faults host.old }
{
    if let Status::Done = status {
        return;
    }
    match host.print(Stream::Err, &status.line()) {
        Ok(()) | Err(Failed) => {}
    }
}
