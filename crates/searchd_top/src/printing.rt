//! Lines to the output.
ghost use Rattle.std.specs.Prelude.{◌≡◌, ℕ, List};
ghost use Rattle.srch_base.specs.Told.{then_bytes};
ghost use Rattle.program_host.specs.Statuses.{NamesIndex};
ghost use Rattle.searchd_top.specs.steps.Sides.{KeepsLent, PrintsOut};

use program_host::{Host, Status, Stream};
use srch_base::Failed;

/// Prints lines to the output. Where that fails, the host has.
pub(crate) fn print_output<H: Host>(lines: &[u8], host: &mut H) -> Status
    ensures prints { PrintsOut H.Host result lines.now host.old host.new }
    ensures lent { KeepsLent H.Host host.old host.new }
    ensures asks { H.requests host.new ≡ H.requests host.old }
    ensures count { H.faults host.new ≡ H.faults host.old }
    ensures asked { ¬ (result ≡ Status.Usage) }
    ensures names { NamesIndex result }
    ensures errors { H.printed host.new Stream.Err ≡ H.printed host.old Stream.Err }
    ensures quiet { H.print_faults host.new Stream.Err ≡ H.print_faults host.old Stream.Err }
{
    match host.print(Stream::Out, lines) {
        Ok(()) => Status::Done,
        Err(Failed) => Status::HostFault,
    }
}
