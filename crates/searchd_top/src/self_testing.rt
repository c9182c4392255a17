//! A selftest: documents in an index in memory are asked for, and what was found is printed once the index has ended.
ghost use Rattle.std.specs.Prelude.{◌≡◌, ◌≤◌, Some, IfErr, IfOk, string_bytes};
ghost use Rattle.command_line.specs.Modes.{selftest};
ghost use Rattle.self_test.specs.Summaries.{lines_of};
ghost use Rattle.program_host.specs.Statuses.{NamesIndex};
ghost use Rattle.searchd_top.specs.Runs.{Runs};
ghost use Rattle.searchd_top.specs.Selftests.{HasEnded, IsUnprinted};

use crate::printing::print_output;
use program_host::{Host, Status, Stream};
use self_test::{SelftestFault, Summary, run_over_engine};
use srch_base::{Name, NoMemory};
use std::alloc::Global;
use std::sync::Wait;
use std::thread::Threads;

/// The name of the index that a selftest is run over.
const INDEX: &[u8] = b"t";

/// Runs a selftest over an index in memory, and prints what it says to the output. Where the history of the index strayed, a job failed,
/// or memory was refused, nothing is printed there.
pub(crate) fn run_selftest<H: Host, R: Threads + Wait>(
    rt: &R,
    alloc: Global,
    number: u32,
    docs: u32,
    host: &mut H,
) -> Status
    requires few { docs ≤ 100000 }
    ensures runs { Runs H.Host H.Store.Disk H.Entry.Door H.Entry.Line.Link (Some (selftest number docs)) result host.old host.new }
    ensures asked { ¬ (result ≡ Status.Usage) }
    ensures names { NamesIndex result }
    ensures errors { H.printed host.new Stream.Err ≡ H.printed host.old Stream.Err }
    ensures quiet { H.print_faults host.new Stream.Err ≡ H.print_faults host.old Stream.Err }
{
    match selftest_lines(rt, alloc, number, docs) {
        Ok(lines) => print_output(lines.as_bytes(), host),
        Err(status) => status,
    }
}

/// The lines of a selftest, or how it ended without them.
fn selftest_lines<R: Threads + Wait>(
    rt: &R,
    alloc: Global,
    number: u32,
    docs: u32,
) -> Result<String, Status>
    requires { docs ≤ 100000 }
    ensures ended { IfOk result (λ lines. HasEnded number docs (string_bytes lines)) }
    ensures ends { IfErr result (IsUnprinted number docs) }
    ensures asked { IfErr result (λ status. ¬ (status ≡ Status.Usage)) }
    ensures names { IfErr result NamesIndex }
{
    match run_over_engine(rt, alloc, number, docs) {
        Ok(summary) => match lines(alloc, &summary) {
            Ok(lines) => Ok(lines),
            Err(NoMemory) => Err(Status::NoMemory),
        },
        Err(SelftestFault::NoMemory) => Err(Status::NoMemory),
        Err(SelftestFault::Strayed(strayed)) => match Name::from_slice(alloc, INDEX) {
            Ok(index) => Err(Status::Strayed { index, strayed }),
            Err(NoMemory) => Err(Status::NoMemory),
        },
        Err(SelftestFault::JobFailed) => Err(Status::JobFailed),
    }
}

/// The lines of a summary.
fn lines(alloc: Global, summary: &Summary) -> Result<String, NoMemory>
    ensures { IfOk result (λ lines. string_bytes lines ≡ lines_of summary.now) }
{
    match format!(in alloc; "{summary}") {
        Ok(lines) => Ok(lines),
        Err(_) => Err(NoMemory),
    }
}
