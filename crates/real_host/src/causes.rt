//! Why a host failed: what it was asked for, and what the system answered. It is kept for the operator alone; no contract speaks of it.
ghost use Rattle.std.specs.Prelude.{◌≡◌, Err};
ghost use Rattle.program_host.specs.Lending.{CountsOpening};

use srch_base::OpenFault;
use std::alloc::Global;
use std::io::{self, ErrorKind};

/// How often a host has failed to give what it was asked for, and why it failed first.
#[derive(Drop)]
pub(crate) struct Causes {
    alloc: Global,
    pub(crate) faults: u64,
    first: Option<String>,
}

impl Causes {
    /// Nothing has failed yet.
    pub(crate) fn new(alloc: Global) -> Causes {
        Causes {
            alloc,
            faults: 0,
            first: None,
        }
    }

    /// Why the host failed first. None where it hasn't, or memory was refused for the words.
    pub(crate) fn first(&self) -> Option<&str> {
        self.first.as_deref()
    }

    /// Counts an error of the system as a fault, but for refused memory: what the host did, and to what.
    pub(crate) fn count(&mut self, doing: &str, what: &str, error: io::Error) -> OpenFault
        ensures { CountsOpening {T = Unit {0}} (Err result) self.old.faults self.new.faults }
    {
        if error.kind() == ErrorKind::OutOfMemory {
            return OpenFault::NoMemory;
        }
        self.faults = self.faults.saturating_add(1);
        self.note(doing, what, Some(error));
        OpenFault::Failed
    }

    /// Notes what the host did, to what, and why it failed, where that is known, unless something has failed before.
    pub(crate) fn note(&mut self, doing: &str, what: &str, error: Option<io::Error>)
        ensures { self.new.faults ≡ self.old.faults }
    {
        if self.first.is_some() {
            return;
        }
        let words = match error {
            Some(error) => format!(in self.alloc; "{doing} {what}: {error}"),
            None => format!(in self.alloc; "{doing} {what}"),
        };
        self.first = words.ok();
    }
}
