//! The daemon's host over memory, as a host of the tool, for tests.

use crate::host::ToolHost;
use chunk_store::MemoryDisk;
use program_host::{Host, MemoryHost, Stream};
use srch_base::{Failed, OpenFault};

impl ToolHost for MemoryHost {
    ghost use Rattle.program_host.specs.contracts.memory_host.MemoryHostHost.TheImpl as words;

    type Store = MemoryDisk;

    ghost printed = { words.ghosts.printed };

    ghost stores_given = { words.ghosts.stores_given };

    ghost stores_back = { words.ghosts.stores_back };

    ghost faults = { words.ghosts.faults };

    ghost print_faults = { words.ghosts.print_faults };

    ghost requests = { words.ghosts.requests };

    ghost text = { words.ghosts.text };

    fn read_text(&mut self, path: &str, limit: u32) -> Result<Vec<u8>, OpenFault> {
        Host::read_text(self, path, limit)
    }

    fn print(&mut self, to: Stream, line: &[u8]) -> Result<(), Failed> {
        Host::print(self, to, line)
    }

    fn open_store(&mut self, path: &str) -> Result<MemoryDisk, OpenFault> {
        Host::open_store(self, path)
    }

    fn give_back(&mut self, store: MemoryDisk) {
        Host::give_back(self, store);
    }
}
