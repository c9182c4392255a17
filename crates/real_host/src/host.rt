//! The host of the program: files, the standard streams, stores over folders, and doors over these streams or over a listener. What a
//! file holds and where a print goes is trusted; what is proved is the count of faults, what is requested, given and handed back, and
//! how much of a file is read.
ghost use Rattle.std.specs.Prelude.{◌≡◌, ◌≤◌, ◌+◌, ◌++◌, [], ◌∷◌, Some, length, IfOk};
ghost use Rattle.std.specs.List.{All};
ghost use Rattle.client_doors.specs.Fresh.{IsFresh};
ghost use Rattle.client_doors.specs.Lending.{things_back, things_given};

use crate::causes::Causes;
use crate::host_disk::HostDisk;
use crate::streams::Streams;
use crate::texts::read_file;
use client_doors::{ClientDoor, Lent, listening_doors, standard_door};
use program_host::{Host, Requests, Stream};
use srch_base::{Failed, OpenFault};
use std::alloc::Global;
use std::io::{self, ErrorKind, Stderr, Stdin, Stdout};

/// The host of the program. It knows no text beforehand and doesn't record what is printed, but it records what is requested. Beside
/// what contracts speak of it keeps why it failed first.
#[derive(Drop)]
pub struct RealHost {
    outside: HostRuntime,
    alloc: Global,
    input: Stdin,
    output: Stdout,
    streams: Streams,
    requests: Requests,
    stores: Lent<HostDisk>,
    doors: Lent<ClientDoor>,
    /// Whether doors were given.
    serves: bool,
    causes: Causes,
}

impl RealHost {
    pub fn new(
        outside: HostRuntime,
        alloc: Global,
        input: Stdin,
        output: Stdout,
        errors: Stderr,
    ) -> RealHost
        ensures gave_stores { things_given result.stores ≡ [] }
        ensures took_stores { things_back result.stores ≡ [] }
        ensures gave_doors { things_given result.doors ≡ [] }
        ensures took_doors { things_back result.doors ≡ [] }
        ensures requests { result.requests ≡ Some [] }
    {
        RealHost {
            outside,
            alloc,
            input,
            output,
            streams: Streams::new(output, errors),
            requests: Requests::new(alloc),
            stores: Lent::new(),
            doors: Lent::new(),
            serves: false,
            causes: Causes::new(alloc),
        }
    }

    /// Why the host failed first: what it did, to what, and what the system answered. None where it hasn't failed, or memory was refused
    /// for the words.
    pub fn cause(&self) -> Option<&str> {
        self.causes.first()
    }
}

impl Host for RealHost {
    ghost use Rattle.std.specs.Prelude.{None};
    ghost use Rattle.real_host.specs.Streams.{faults_of};

    type Store = HostDisk;

    type Entry = ClientDoor;

    ghost text = { λ _ _. None };

    ghost printed = { λ _ _. None };

    ghost stores_given = { λ host. things_given host.stores };

    ghost stores_back = { λ host. things_back host.stores };

    ghost doors_given = { λ host. things_given host.doors };

    ghost doors_back = { λ host. things_back host.doors };

    ghost faults = { λ host. host.causes.faults };

    ghost print_faults = { λ host. faults_of host.streams };

    ghost requests = { λ host. host.requests };

    fn read_text(&mut self, path: &str, limit: u32) -> Result<Vec<u8>, OpenFault> {
        self.requests.add_text(path);
        match read_file(self.alloc, &self.outside, path, limit) {
            Ok(bytes) => Ok(bytes),
            Err(error) => Err(self.causes.count("reading", path, error)),
        }
    }

    fn print(&mut self, to: Stream, line: &[u8]) -> Result<(), Failed> {
        match self.streams.print(to, line) {
            Ok(()) => Ok(()),
            Err(Failed) => {
                self.causes
                    .note("printing", "lines", self.streams.refusal());
                Err(Failed)
            }
        }
    }

    /// The store over the folder of this path, which is made where it isn't there. Fails where its parent isn't there, or a store over
    /// it is out already, also of another program.
    fn open_store(&mut self, path: &str) -> Result<HostDisk, OpenFault> {
        self.requests.add_store(path);
        match HostDisk::open(self.outside, self.alloc, path) {
            Ok(store) => {
                self.stores.give_one(&store);
                Ok(store)
            }
            Err(error) => Err(self.causes.count("opening the folder", path, error)),
        }
    }

    fn give_back(&mut self, store: HostDisk)
        requires { length (things_back self.old.stores) + 1 ≤ length (things_given self.old.stores) }
        ensures took { things_back self.new.stores ≡ things_back self.old.stores ++ store ∷ [] }
        ensures gave { things_given self.new.stores ≡ things_given self.old.stores }
        ensures rest { self.new ≡ record self.old { stores = self.new.stores; causes = self.new.causes } }
        ensures count { self.new.causes.faults ≡ self.old.causes.faults }
    {
        self.stores.take_one_back(&store);
        if !self.serves {
            store.note_failure(&mut self.causes);
        }
    }

    /// Fails but for doors over a listener, or for one over the standard streams, where no door was given before.
    fn doors(&mut self, listen: Option<&str>, n: u32) -> Result<Vec<ClientDoor>, OpenFault> {
        self.requests.add_doors(listen, n);
        match self.open_doors(listen, n) {
            Ok(doors) => {
                self.doors.give(doors.as_slice());
                self.serves = true;
                Ok(doors)
            }
            Err(error) => Err(
                self.causes
                    .count("listening at", listen.unwrap_or("no address"), error),
            ),
        }
    }

    fn give_doors(&mut self, doors: Vec<ClientDoor>)
        requires { length (things_back self.old.doors) + length doors.items ≤ length (things_given self.old.doors) }
        ensures took { things_back self.new.doors ≡ things_back self.old.doors ++ doors.items }
        ensures gave { things_given self.new.doors ≡ things_given self.old.doors }
        ensures rest { self.new ≡ record self.old { doors = self.new.doors; causes = self.new.causes } }
        ensures count { self.new.causes.faults ≡ self.old.causes.faults }
    {
        self.doors.take_back(doors.as_slice());
        note_refusals(doors.as_slice(), &mut self.causes);
    }
}

impl RealHost {
    /// So many doors over a listener at an address, or one over the standard streams.
    fn open_doors(&self, listen: Option<&str>, n: u32) -> io::Result<Vec<ClientDoor>>
        ensures { IfOk result (λ doors. (length doors.items ≡ n) × All IsFresh doors.items) }
    {
        match listen {
            Some(address) => listening_doors(self.outside, self.alloc, address, n),
            None if n == 1 && !self.serves => {
                let mut doors = Vec::new(self.alloc);
                doors.push(standard_door(self.input, self.output))?;
                Ok(doors)
            }
            None => Err(io::Error::from(ErrorKind::AddrInUse)),
        }
    }
}

/// Notes why doors failed.
fn note_refusals(doors: &[ClientDoor], causes: &mut Causes)
    ensures { causes.new.faults ≡ causes.old.faults }
{
    'doors: for door in doors {
        if let Some(refusal) = door.refusal() {
            causes.note("taking", "a connection", Some(refusal));
        }
    }
}
