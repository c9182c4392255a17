//! Lines to the output. Each is put into a buffer that is used again, and what that has is printed when it is full and at a chunk's end:
//! so many lines go by one print, and printing takes no memory that grows with what is printed.
ghost use Rattle.std.specs.Prelude.{◌≡◌, [], OnOk};
ghost use Rattle.index_tool.specs.steps.Sides.{BuffersLines, PrintsLines};

use crate::host::ToolHost;
use program_host::Stream;
use srch_base::{Failed, NoMemory};

/// From so many bytes on the buffer is full.
const FULL: usize = 4_096;

/// Why not all lines are printed.
#[derive(Clone, Copy, PartialEq, Eq, Drop)]
pub(crate) enum Stop {
    NoMemory,
    HostFault,
}

impl From<NoMemory> for Stop {
    ghost use Rattle.index_tool.specs.declared.printing.Stop.TheVariants.{NoMemory};

    ghost from_gives = { λ _ stop. stop ≡ NoMemory };

    fn from(_: NoMemory) -> Self {
        Stop::NoMemory
    }
}

/// Prints what a buffer has, and empties it.
pub(crate) fn print_line<H: ToolHost>(line: &mut Vec<u8>, host: &mut H) -> Result<(), Stop>
    ensures prints { PrintsLines H.ToolHost result line.old.items host.old host.new }
    ensures empty { line.new.items ≡ [] }
{
    let printed = host.print(Stream::Out, line.as_slice());
    line.clear();
    match printed {
        Ok(()) => Ok(()),
        Err(Failed) => Err(Stop::HostFault),
    }
}

/// Prints what a buffer has if it is full.
pub(crate) fn print_full<H: ToolHost>(line: &mut Vec<u8>, host: &mut H) -> Result<(), Stop>
    ensures { BuffersLines H.ToolHost result [] (line.old.items, host.old) (line.new.items, host.new) }
{
    if line.len() < FULL {
        return Ok(());
    }
    print_line(line, host)
}

/// Prints what a buffer has, if it has anything.
pub(crate) fn print_rest<H: ToolHost>(line: &mut Vec<u8>, host: &mut H) -> Result<(), Stop>
    ensures prints { PrintsLines H.ToolHost result line.old.items host.old host.new }
    ensures empty { OnOk result (line.new.items ≡ []) }
{
    if line.is_empty() {
        return Ok(());
    }
    print_line(line, host)
}
