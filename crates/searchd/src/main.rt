//! The program `searchd`: the top call over files, the standard streams and the network.
#![tactic(auto)]

ghost use Rattle.std.specs.Prelude.{◌≡◌};

use program_host::{Host, Status, Stream};
use real_host::{RealHost, words_of};
use searchd_top::searchd;
use srch_base::{Failed, NoMemory};
use std::process::ExitCode;

fn main(rt: HostRuntime) -> ExitCode {
    let alloc = rt.alloc();
    let words = words_of(&rt);
    let (input, output, errors) = (rt.stdin(), rt.stdout(), rt.stderr());
    let mut host = RealHost::new(rt, alloc, input, output, errors);
    let status = match words {
        Ok(words) => searchd(&rt, alloc, words.as_slice(), &mut host),
        Err(NoMemory) => without_memory(&mut host),
    };
    if let Status::HostFault = status {
        say_why(&rt, &host);
    }
    ExitCode::from(status.code())
}

/// Says behind the line of a host fault why the host failed, for the operator. A print that fails changes nothing.
fn say_why(rt: &HostRuntime, host: &RealHost) {
    if let Some(cause) = host.cause() {
        match eprintln!(rt; "searchd: {cause}") {
            Ok(()) | Err(_) => {}
        }
    }
}

/// Says that the words couldn't be held.
fn without_memory<H: Host>(host: &mut H) -> Status
    ensures { result ≡ Status.NoMemory }
{
    match host.print(Stream::Err, &Status::NoMemory.line()) {
        Ok(()) | Err(Failed) => Status::NoMemory,
    }
}
