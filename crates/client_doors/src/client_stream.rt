//! The two ways to a client: the standard streams, and a socket. Neither goes through a buffer: a reply is on its way when its
//! write returns.
ghost use Rattle.std.specs.Prelude.{◌≤◌, length, IfOk};

use std::io::{self, ErrorKind, Read, Stdin, Stdout, Write};
use std::net::{TcpListener, TcpStream};
use std::thread;
use std::time::Duration;

/// How long a client over TCP may keep a read or a write waiting, in seconds; after that the call fails.
pub const PATIENCE_SECONDS: u64 = 600;

/// How long a client over TCP that has sent nothing yet may keep a read waiting, in seconds. It is MySQL's default `connect_timeout`.
pub const GREETING_SECONDS: u64 = 10;

/// How long a door waits before it tries again to take a connection for which the system had no room, in milliseconds.
pub const PAUSE_MILLISECONDS: u64 = 100;

/// The errors by which Linux says that a table of files or the memory for sockets is full: `ENFILE`, `EMFILE` and `ENOBUFS` of accept(2).
const FULL: [i32; 3] = [23, 24, 105];

/// The way to a client and back.
#[derive(Drop)]
pub enum ClientStream {
    /// The client writes to standard input, and reads standard output.
    Standard { input: Stdin, output: Stdout },
    Tcp(TcpStream),
}

impl ClientStream {
    /// The next client of a listener. One that has gone away again before it could be served is passed over, and so is a fault of the
    /// network on the way to it, which the system tells where it takes a connection. Where the system has no room for a further one, in
    /// its tables of files or in memory, the client waits at the listener until it has.
    pub(crate) fn accept(listener: &TcpListener, clock: &HostRuntime) -> io::Result<ClientStream> {
        'clients: for _ in 0..u64::MAX {
            let (stream, _peer) = match listener.accept() {
                Ok(accepted) => accepted,
                Err(error) if is_of_one_client(error.kind()) => continue 'clients,
                Err(error) if is_want_of_room(&error) => {
                    thread::sleep(clock, Duration::from_millis(PAUSE_MILLISECONDS));
                    continue 'clients;
                }
                Err(error) => return Err(error),
            };
            if prepare(&stream).is_ok() {
                return Ok(ClientStream::Tcp(stream));
            }
        }
        Err(io::Error::from(ErrorKind::TimedOut))
    }

    /// Waits longer for the client from now on, which has begun to send. Where the system refuses that, it is waited for as before.
    pub(crate) fn begin(&self) {
        if let ClientStream::Tcp(stream) = self {
            match stream.set_read_timeout(Some(Duration::from_secs(PATIENCE_SECONDS))) {
                Ok(()) | Err(_) => {}
            }
        }
    }
}

/// Whether a failure to take a connection is of that connection alone, so that the next one may be taken.
fn is_of_one_client(kind: ErrorKind) -> bool {
    match kind {
        ErrorKind::ConnectionAborted
        | ErrorKind::ConnectionReset
        | ErrorKind::HostUnreachable
        | ErrorKind::Interrupted
        | ErrorKind::NetworkDown
        | ErrorKind::NetworkUnreachable
        | ErrorKind::TimedOut => true,
        _ => false,
    }
}

/// Whether a failure to take a connection ends by itself: once others have gone, or memory is there again.
fn is_want_of_room(error: &io::Error) -> bool {
    match error.raw_os_error() {
        Some(code) => FULL.contains(&code) || error.kind() == ErrorKind::OutOfMemory,
        None => false,
    }
}

/// What is written to a socket is sent at once (`TCP_NODELAY`), since a reply is written in one piece and its client waits for it.
/// A client that has gone away without a word doesn't keep its worker for ever, and one that never says a word hardly at all.
fn prepare(stream: &TcpStream) -> io::Result<()> {
    stream.set_nodelay(true)?;
    stream.set_read_timeout(Some(Duration::from_secs(GREETING_SECONDS)))?;
    stream.set_write_timeout(Some(Duration::from_secs(PATIENCE_SECONDS)))
}

impl Read for ClientStream {
    fn read(&mut self, into: &mut [u8]) -> io::Result<usize> {
        match self {
            ClientStream::Standard { input, .. } => input.read(into),
            ClientStream::Tcp(stream) => stream.read(into),
        }
    }
}

impl Write for ClientStream {
    fn write(&mut self, piece: &[u8]) -> io::Result<usize> {
        match self {
            ClientStream::Standard { output, .. } => output.write(piece),
            ClientStream::Tcp(stream) => stream.write(piece),
        }
    }

    fn flush(&mut self) -> io::Result<()> {
        match self {
            ClientStream::Standard { output, .. } => output.flush(),
            ClientStream::Tcp(stream) => stream.flush(),
        }
    }
}
