//! The configuration of a run is read.
ghost use Rattle.std.specs.Prelude.{[], ◌∷◌};
ghost use Rattle.searchd_top.specs.steps.Sides.{Asks, Configures};

use conf_text::{ConfFault, MAX_CONF_BYTES, read_conf};
use index_conf::Conf;
use program_host::{Host, Request, Status};
use srch_base::Or;
use std::alloc::Global;

/// The configuration in a file.
pub(crate) fn configure<H: Host>(alloc: Global, file: &str, host: &mut H) -> Result<Conf, Status>
    ensures configures { Configures (H.text host.old file.now) result (H.faults host.old) (H.faults host.new) }
    ensures asks { Asks H.Host host.old host.new (Request.ReadText file.now ∷ []) }
{
    let text = match host.read_text(file, MAX_CONF_BYTES as u32) {
        Ok(text) => text,
        Err(fault) => return Err(Status::from(fault)),
    };
    match read_conf(alloc, text.as_slice()) {
        Ok(conf) => Ok(conf),
        Err(Or::NoMemory) => Err(Status::NoMemory),
        Err(Or::Fault(ConfFault { line, kind })) => Err(Status::Config { line, kind }),
    }
}
