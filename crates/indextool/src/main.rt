//! The program `indextool`: the top call of the tool over files and the standard streams.
#![tactic(auto)]

mod host;

use host::RealToolHost;
use index_tool::{ToolHost, ToolStatus, ToolStream, indextool};
use real_host::words_of;
use srch_base::{Failed, NoMemory};
use std::process::ExitCode;

fn main(rt: HostRuntime) -> ExitCode {
    let alloc = rt.alloc();
    let words = words_of(&rt);
    let (output, errors) = (rt.stdout(), rt.stderr());
    let mut host = RealToolHost::new(rt, alloc, output, errors);
    let status = match words {
        Ok(words) => indextool(&rt, alloc, words.as_slice(), &mut host),
        Err(NoMemory) => without_memory(&mut host),
    };
    ExitCode::from(status.code())
}

/// Says that the words couldn't be held.
fn without_memory<H: ToolHost>(host: &mut H) -> ToolStatus {
    match host.print(ToolStream::Err, &ToolStatus::NoMemory.line(b"")) {
        Ok(()) | Err(Failed) => ToolStatus::NoMemory,
    }
}
