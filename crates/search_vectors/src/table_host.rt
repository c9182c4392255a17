//! The host of a row: a host over memory whose doors are those of the row.
ghost use Rattle.std.specs.Prelude.{◌≡◌, ◌≤◌, ◌+◌, ◌++◌, length};
ghost use Rattle.client_doors.specs.Lending.{things_back, things_given};

use crate::table_door::TableDoor;
use chunk_store::MemoryDisk;
use client_doors::Lent;
use program_host::{Host, MemoryHost, Stream};
use srch_base::{Failed, OpenFault};
use std::alloc::Global;
use std::mem;

/// A host over memory that gives these doors once.
pub(crate) struct TableHost {
    pub(crate) alloc: Global,
    /// The host that does all else. It has as many doors, which none sees.
    pub(crate) base: MemoryHost,
    pub(crate) doors: Vec<TableDoor>,
    /// What was given and came back, for contracts.
    pub(crate) lent: Lent<TableDoor>,
    /// The doors that came back.
    pub(crate) back: Vec<TableDoor>,
    ghost within: { length (things_back lent) ≤ length (things_given lent) },
}

// Not derived: so letting go of a host is a call, and no caller's proof takes apart what it holds.
impl Drop for TableHost {
    fn drop(self) {
        let TableHost {
            alloc: _,
            base: _base,
            doors: _doors,
            lent: _lent,
            back: _back,
        } = self;
    }
}

impl Host for TableHost {
    ghost use Rattle.program_host.specs.HostMemory.{text_of, printed_of, print_faults_of};

    type Store = MemoryDisk;

    type Entry = TableDoor;

    ghost text = { λ h. text_of h.base };

    ghost printed = { λ h. printed_of h.base };

    ghost stores_given = { λ h. h.base.stores_given };

    ghost stores_back = { λ h. h.base.stores_back };

    ghost doors_given = { λ h. things_given h.lent };

    ghost doors_back = { λ h. things_back h.lent };

    ghost faults = { λ h. h.base.faults };

    ghost print_faults = { λ h. print_faults_of h.base };

    ghost requests = { λ h. h.base.requests };

    fn read_text(&mut self, path: &str, limit: u32) -> Result<Vec<u8>, OpenFault> {
        self.base.read_text(path, limit)
    }

    fn print(&mut self, to: Stream, line: &[u8]) -> Result<(), Failed> {
        self.base.print(to, line)
    }

    fn open_store(&mut self, path: &str) -> Result<MemoryDisk, OpenFault> {
        self.base.open_store(path)
    }

    fn give_back(&mut self, store: MemoryDisk) {
        self.base.give_back(store);
    }

    fn doors(&mut self, listen: Option<&str>, n: u32) -> Result<Vec<TableDoor>, OpenFault> {
        drop(self.base.doors(listen, n)?);
        if self.doors.len() != n as usize {
            return Err(OpenFault::NoMemory);
        }
        self.lent.give(self.doors.as_slice());
        Ok(mem::replace(&mut self.doors, Vec::new(self.alloc)))
    }

    fn give_doors(&mut self, mut doors: Vec<TableDoor>)
        requires { length (things_back self.old.lent) + length doors.items ≤ length (things_given self.old.lent) }
        ensures took { things_back self.new.lent ≡ things_back self.old.lent ++ doors.items }
        ensures gave { things_given self.new.lent ≡ things_given self.old.lent }
        ensures base { self.new.base ≡ self.old.base }
        ensures doors { self.new.doors ≡ self.old.doors }
        ensures alloc { self.new.alloc ≡ self.old.alloc }
    {
        self.lent.take_back(doors.as_slice());
        let _appended = self.back.append(&mut doors);
    }
}
