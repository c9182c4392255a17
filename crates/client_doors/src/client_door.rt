//! The door of one worker: over the standard streams it gives one connection, and has then ended; over a listener, which it shares
//! with the doors of the other workers, it gives one client after the other and never ends.
//!
//! What a door gave and what came back to it is a meaning of the door, for contracts alone. It takes no memory, so a door never fails
//! for want of any.
ghost use Rattle.std.specs.Prelude.{◌≡◌, [], false};

use crate::client_line::ClientLine;
use crate::client_stream::ClientStream;
use crate::lent::Lent;
use srch_base::{Door, Failed};
use std::alloc::Global;
use std::io::{self, Stdin, Stdout};
use std::net::{SocketAddr, TcpListener};
use std::sync::Arc;

/// Where the clients of a door come from.
#[derive(Drop)]
pub(crate) enum Source {
    /// One client, over the standard streams.
    Standard {
        input: Stdin,
        output: Stdout,
    },
    /// The one client of the standard streams was given.
    Nothing,
    Listener {
        listener: Arc<TcpListener, Global>,
        clock: HostRuntime,
    },
}

/// The door of one worker.
#[derive(Drop)]
pub struct ClientDoor {
    source: Source,
    lines: Lent<ClientLine>,
    ended: bool,
    faults: u64,
    refusal: Option<io::Error>,
}

impl Source {
    /// The next client, none where there will be no further one.
    fn next(&mut self) -> io::Result<Option<ClientStream>> {
        match self {
            Source::Standard { input, output } => {
                let stream = ClientStream::Standard {
                    input: *input,
                    output: *output,
                };
                *self = Source::Nothing;
                Ok(Some(stream))
            }
            Source::Nothing => Ok(None),
            Source::Listener { listener, clock } => {
                Ok(Some(ClientStream::accept(listener, clock)?))
            }
        }
    }
}

impl ClientDoor {
    ghost use Rattle.client_doors.specs.Lending.{things_back, things_given};

    pub(crate) fn new(source: Source) -> ClientDoor
        ensures gave { things_given result.lines ≡ [] }
        ensures back { things_back result.lines ≡ [] }
        ensures ended { result.ended ≡ false }
        ensures faults { result.faults ≡ 0 }
    {
        ClientDoor {
            source,
            lines: Lent::new(),
            ended: false,
            faults: 0,
            refusal: None,
        }
    }

    /// The address at which the door's clients connect, none over the standard streams.
    pub fn address(&self) -> io::Result<Option<SocketAddr>> {
        match &self.source {
            Source::Listener { listener, .. } => Ok(Some(listener.local_addr()?)),
            Source::Standard { .. } | Source::Nothing => Ok(None),
        }
    }

    /// Why the door failed last, none where it hasn't.
    pub fn refusal(&self) -> Option<io::Error> {
        self.refusal
    }
}

impl Door for ClientDoor {
    ghost use Rattle.client_doors.specs.Lending.{things_back, things_given};

    type Line = ClientLine;

    ghost given = { λ door. things_given door.lines };

    ghost returned = { λ door. things_back door.lines };

    ghost ended = { λ door. door.ended };

    ghost faults = { λ door. door.faults };

    fn next(&mut self) -> Result<Option<ClientLine>, Failed> {
        if self.ended {
            return Ok(None);
        }
        match self.source.next() {
            Ok(Some(stream)) => {
                let line = ClientLine::new(stream);
                self.lines.give_one(&line);
                Ok(Some(line))
            }
            Ok(None) => {
                self.ended = true;
                Ok(None)
            }
            Err(error) => {
                self.faults = self.faults.saturating_add(1);
                self.refusal = Some(error);
                Err(Failed)
            }
        }
    }

    fn done(&mut self, line: ClientLine) {
        self.lines.take_one_back(&line);
    }
}
