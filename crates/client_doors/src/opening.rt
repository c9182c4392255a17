//! Doors at their beginning.
ghost use Rattle.std.specs.Prelude.{◌≡◌, length, All, IfOk};
ghost use Rattle.client_doors.specs.Fresh.{IsFresh};

use crate::client_door::{ClientDoor, Source};
use std::alloc::Global;
use std::io::{self, Stdin, Stdout};
use std::net::TcpListener;
use std::sync::Arc;

/// The door over the standard streams.
pub fn standard_door(input: Stdin, output: Stdout) -> ClientDoor
    ensures { IsFresh result }
{
    ClientDoor::new(Source::Standard { input, output })
}

/// A door over a listener that others share.
fn shared_door(clock: HostRuntime, listener: &Arc<TcpListener, Global>) -> io::Result<ClientDoor>
    ensures { IfOk result IsFresh }
{
    let listener = Arc::try_clone(listener)?;
    Ok(ClientDoor::new(Source::Listener { listener, clock }))
}

/// So many doors over a listener.
fn shared_doors(
    clock: HostRuntime,
    alloc: Global,
    listener: &Arc<TcpListener, Global>,
    n: u32,
) -> io::Result<Vec<ClientDoor>>
    ensures { IfOk result (λ doors. (length doors.items ≡ n) × All IsFresh doors.items) }
{
    let mut doors = Vec::new(alloc);
    for _ in 0..n {
        doors.push(shared_door(clock, listener)?)?;
    }
    Ok(doors)
}

/// So many doors over one listener at an address.
pub fn listening_doors(
    rt: HostRuntime,
    alloc: Global,
    listen: &str,
    n: u32,
) -> io::Result<Vec<ClientDoor>>
    ensures { IfOk result (λ doors. (length doors.items ≡ n) × All IsFresh doors.items) }
{
    let listener = Arc::new(alloc, TcpListener::bind(&rt, listen)?)?;
    shared_doors(rt, alloc, &listener, n)
}
