//! The connection to one client.
ghost use Rattle.std.specs.Prelude.{◌≡◌, false};

use crate::client_stream::ClientStream;
use crate::retrying;
use srch_base::{Failed, Link};

/// The connection to one client.
///
/// A read takes what is there. A read or a write that a signal interrupts is made again. The connection records no bytes.
#[derive(Drop)]
pub struct ClientLine {
    stream: ClientStream,
    /// Whether the client has sent anything yet.
    begun: bool,
    ended: bool,
    read_faults: u64,
    write_faults: u64,
}

impl ClientLine {
    /// The connection from its beginning: nothing was read or written over it.
    pub(crate) fn new(stream: ClientStream) -> ClientLine
        ensures open { result.ended ≡ false }
        ensures reads { result.read_faults ≡ 0 }
        ensures writes { result.write_faults ≡ 0 }
    {
        ClientLine {
            stream,
            begun: false,
            ended: false,
            read_faults: 0,
            write_faults: 0,
        }
    }
}

impl Link for ClientLine {
    ghost use Rattle.std.specs.Prelude.{None};

    ghost read_bytes = { λ _. None };

    ghost written_bytes = { λ _. None };

    ghost input_ended = { λ line. line.ended };

    ghost read_faults = { λ line. line.read_faults };

    ghost write_faults = { λ line. line.write_faults };

    fn read(&mut self, into: &mut [u8]) -> Result<usize, Failed> {
        match retrying::read(&mut self.stream, into) {
            Ok(count) => {
                if count > 0 && !self.begun {
                    self.begun = true;
                    self.stream.begin();
                }
                self.ended = self.ended || count == 0 && !into.is_empty();
                Ok(count)
            }
            Err(_) => {
                self.read_faults = self.read_faults.saturating_add(1);
                Err(Failed)
            }
        }
    }

    fn write(&mut self, piece: &[u8]) -> Result<usize, Failed> {
        match retrying::write(&mut self.stream, piece) {
            Ok(count) if count > 0 || piece.is_empty() => Ok(count),
            _ => {
                self.write_faults = self.write_faults.saturating_add(1);
                Err(Failed)
            }
        }
    }
}
