//! The configuration of a run is read, and the index that was asked for found in it.
ghost use Rattle.std.specs.Prelude.{◌≡◌, ◌≢◌, [], ◌∷◌, All, Contains, MatchOption};
ghost use Rattle.index_tool.specs.steps.Sides.{Asks, Configures};

use crate::host::ToolHost;
use crate::status::ToolStatus;
use conf_text::{ConfFault, MAX_CONF_BYTES, read_conf};
use index_conf::{Conf, IndexConf};
use program_host::Request;
use srch_base::Or;
use std::alloc::Global;

/// The configuration in a file.
pub(crate) fn configure<H: ToolHost>(
    alloc: Global,
    file: &str,
    host: &mut H,
) -> Result<Conf, ToolStatus>
    ensures configures { Configures (H.text host.old file.now) result (H.faults host.old) (H.faults host.new) }
    ensures asks { Asks H.ToolHost host.old host.new (Request.ReadText file.now ∷ []) }
{
    let text = match host.read_text(file, MAX_CONF_BYTES as u32) {
        Ok(text) => text,
        Err(fault) => return Err(ToolStatus::from(fault)),
    };
    match read_conf(alloc, text.as_slice()) {
        Ok(conf) => Ok(conf),
        Err(Or::NoMemory) => Err(ToolStatus::NoMemory),
        Err(Or::Fault(ConfFault { line, kind })) => Err(ToolStatus::Config { line, kind }),
    }
}

/// The index of a name.
pub(crate) fn index_named<'a>(indexes: &'a [IndexConf], name: &str) -> Option<&'a IndexConf>
    ensures { MatchOption result (All (λ index. index.schema.name ≢ name.now) indexes.entry.now) (λ index. Contains indexes.entry.now index.now × (index.now.schema.name ≡ name.now)) }
{
    indexes
        .iter()
        .find(|index| index.schema.name.as_bytes() == name.as_bytes())
}
