//! The host of the tool: files, the standard streams, and folders that are looked at alone. What a file holds and where a print goes is
//! trusted; what is proved is the count of faults, what is requested, given and handed back, and how much of a file is read.
ghost use Rattle.std.specs.Prelude.{◌≡◌, ◌≤◌, ◌+◌, ◌++◌, [], ◌∷◌, Some, length};
ghost use Rattle.client_doors.specs.Lending.{things_back, things_given};

use client_doors::Lent;
use index_tool::{ToolHost, ToolStream};
use program_host::Requests;
use real_host::{LookDisk, Streams, read_text};
use srch_base::{Failed, OpenFault};
use std::alloc::Global;
use std::io::{Stderr, Stdout};

/// The host of the tool. It knows no text beforehand and doesn't record what is printed, but it records what is requested.
#[derive(Drop)]
pub(crate) struct RealToolHost {
    outside: HostRuntime,
    alloc: Global,
    streams: Streams,
    requests: Requests,
    stores: Lent<LookDisk<HostRuntime>>,
    faults: u64,
}

impl RealToolHost {
    pub(crate) fn new(
        outside: HostRuntime,
        alloc: Global,
        output: Stdout,
        errors: Stderr,
    ) -> RealToolHost
        ensures gave { things_given result.stores ≡ [] }
        ensures took { things_back result.stores ≡ [] }
        ensures requests { result.requests ≡ Some [] }
    {
        RealToolHost {
            outside,
            alloc,
            streams: Streams::new(output, errors),
            requests: Requests::new(alloc),
            stores: Lent::new(),
            faults: 0,
        }
    }
}

impl ToolHost for RealToolHost {
    ghost use Rattle.std.specs.Prelude.{None};
    ghost use Rattle.real_host.specs.Streams.{faults_of};

    type Store = LookDisk<HostRuntime>;

    ghost text = { λ _ _. None };

    ghost printed = { λ _ _. None };

    ghost stores_given = { λ host. things_given host.stores };

    ghost stores_back = { λ host. things_back host.stores };

    ghost faults = { λ host. host.faults };

    ghost print_faults = { λ host. faults_of host.streams };

    ghost requests = { λ host. host.requests };

    fn read_text(&mut self, path: &str, limit: u32) -> Result<Vec<u8>, OpenFault> {
        self.requests.add_text(path);
        read_text(&self.outside, self.alloc, path, limit, &mut self.faults)
    }

    fn print(&mut self, to: ToolStream, line: &[u8]) -> Result<(), Failed> {
        self.streams.print(to, line)
    }

    /// The store over the folder of this path. Fails where it isn't there.
    fn open_store(&mut self, path: &str) -> Result<LookDisk<HostRuntime>, OpenFault> {
        self.requests.add_store(path);
        match LookDisk::open(self.outside, self.alloc, path) {
            Ok(store) => {
                self.stores.give_one(&store);
                Ok(store)
            }
            Err(OpenFault::NoMemory) => Err(OpenFault::NoMemory),
            Err(OpenFault::Failed) => {
                self.faults = self.faults.saturating_add(1);
                Err(OpenFault::Failed)
            }
        }
    }

    fn give_back(&mut self, store: LookDisk<HostRuntime>)
        requires { length (things_back self.old.stores) + 1 ≤ length (things_given self.old.stores) }
        ensures took { things_back self.new.stores ≡ things_back self.old.stores ++ store ∷ [] }
        ensures gave { things_given self.new.stores ≡ things_given self.old.stores }
        ensures rest { self.new ≡ record self.old { stores = self.new.stores } }
    {
        self.stores.take_one_back(&store);
    }
}
