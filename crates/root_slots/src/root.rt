//! The root, and how its state is replaced.
ghost use Rattle.std.specs.Prelude.{◌≡◌, ◌+◌, ◌≤◌, ◌<◌, ◌^◌, Option, Some, None, IsTrue, ◌↔◌, IfOk, IfSome, OnOk, OnErr};
ghost use Rattle.srch_base.specs.Counts.{HasCause};
ghost use Rattle.chunk_store.specs.Images.{Image, Told};
ghost use Rattle.chunk_store.specs.Calls.{Crashes, OnlyReads};
ghost use Rattle.chunk_store.specs.CrashModel.{KeepsAll};
ghost use Rattle.root_slots.specs.Roots.{own_slot};
ghost use Rattle.root_slots.specs.States.{IsState};
ghost use Rattle.root_slots.specs.steps.Chosen.{bytes_of};

use crate::choosing::root_of;
use crate::fault::RootFault;
use crate::replacing::replace_slot;
use crate::state::RootState;
use crate::writing::RootBytes;
use chunk_store::{Disk, read_whole};
use srch_base::Failed;
use std::alloc::Global;

/// The slot that holds the own state.
#[derive(Clone, Copy)]
pub(crate) enum Holder {
    Neither,
    Zeroth,
    First,
}

/// The root of an index: where its state stands on a disk.
#[derive(Drop)]
pub struct Root {
    pub(crate) holder: Holder,
    /// The greatest number used so far.
    pub(crate) number: u64,
    /// Slot 0 has a gate that is closed in every image which a crash leaves.
    pub(crate) zeroth_shut: bool,
    /// The same of slot 1.
    pub(crate) first_shut: bool,
}

impl Root {
    ghost use Rattle.root_slots.specs.Slots.{Slot, Slots, slots_of, ChangesSlots};
    ghost use Rattle.root_slots.specs.Choosing.{HasRootCause};
    ghost use Rattle.root_slots.specs.Openings.{ReadsRoot};
    ghost use Rattle.root_slots.specs.Roots.{HoldsOpen, Stands, Steps, Replaces, Replacing, Failing, replaced};

    /// Reads the root of an index, and its state. None where no slot is open.
    pub fn read<D: Disk>(
        alloc: Global,
        disk: &mut D,
    ) -> Result<(Root, Option<RootState>), RootFault>
        ensures found { Told (λ image. ReadsRoot result (slots_of image)) (D.told disk.new) }
        // Whatever the disk tells, a state that was read keeps the layout.
        ensures state { IfOk result (λ found. IfSome found.1 IsState) }
        ensures looks { OnlyReads D.Disk disk.old disk.new }
        ensures keeps { KeepsAll D.may_leave disk.old disk.new }
        ensures cause { HasRootCause (D.faults disk.old) (D.faults disk.new) result }
    {
        match read_whole(alloc, disk, 0) {
            Ok(zeroth) => match read_whole(alloc, disk, 1) {
                Ok(first) => root_of(alloc, bytes_in(&zeroth), bytes_in(&first)),
                Err(fault) => Err(fault.into()),
            },
            Err(fault) => Err(fault.into()),
        }
    }

    /// Whether root numbers have ended: none is left for one more state.
    pub fn full(&self) -> bool
        ensures { IsTrue result ↔ (2 ^ 63 ≤ self.now.number) }
    {
        self.number >= 1 << 63
    }

    /// The greatest root number used so far.
    pub fn number(&self) -> u64
        ensures { result ≡ self.now.number }
    {
        self.number
    }

    /// The number of the slot that holds the own state; 0 where there is none.
    pub fn slot(&self) -> u8
        ensures holds { (own : Slot) (doubt : Option Slot) (slots : Slots) → Stands self.now (Some own) doubt slots → HoldsOpen result own slots }
        ensures holder { result ≡ own_slot self.now.holder }
    {
        slot_of(self.holder)
    }

    /// Replaces the state. After an error the old one is still the own state, and the new one may be what a crash leaves.
    pub fn replace<D: Disk>(&mut self, disk: &mut D, bytes: &RootBytes) -> Result<(), Failed>
        requires room { self.old.number < 2 ^ 63 }
        requires stands { Told (λ image. (own : Option Slot) × (doubt : Option Slot) × Stands self.old own doubt (slots_of image)) (D.told disk.old) }
        ensures ok { OnOk result (self.new ≡ replaced self.old) }
        ensures number { self.new.number ≡ self.old.number + 1 }
        // The new state is the own one, in what is told and in each image that a crash leaves.
        ensures stands { OnOk result (Steps D.Disk (ChangesSlots (Replaces self.old bytes.now)) disk.old disk.new) }
        // After an error the own state stays, and at most one is in doubt.
        ensures doubt { OnErr result ((doubt : Option Slot) → Failing D.Disk self.old self.new doubt bytes.now disk.old disk.new) }
        // A crash at any moment leaves the own state, the one in doubt or the new one.
        ensures crash { Crashes D.Disk disk.old disk.new (ChangesSlots (Replacing self.old bytes.now)) }
        ensures cause { HasCause (D.faults disk.old) (D.faults disk.new) result }
    {
        self.number += 1;
        match self.holder {
            Holder::Zeroth => {
                match replace_slot(disk, 1, &mut self.first_shut, self.number, bytes) {
                    Ok(()) => {
                        self.holder = Holder::First;
                        Ok(())
                    }
                    Err(Failed) => Err(Failed),
                }
            }
            Holder::First => {
                match replace_slot(disk, 0, &mut self.zeroth_shut, self.number, bytes) {
                    Ok(()) => {
                        self.holder = Holder::Zeroth;
                        Ok(())
                    }
                    Err(Failed) => Err(Failed),
                }
            }
            Holder::Neither => {
                match replace_slot(disk, 0, &mut self.zeroth_shut, self.number, bytes) {
                    Ok(()) => {
                        self.holder = Holder::Zeroth;
                        Ok(())
                    }
                    Err(Failed) => Err(Failed),
                }
            }
        }
    }
}

/// The number of the slot that holds the own state.
fn slot_of(holder: Holder) -> u8
    ensures { result ≡ own_slot holder }
{
    match holder {
        Holder::Neither | Holder::Zeroth => 0,
        Holder::First => 1,
    }
}

/// The bytes of a file; one that isn't there has none.
fn bytes_in(found: &Option<Vec<u8>>) -> &[u8]
    ensures { result.now ≡ bytes_of found.now }
{
    match found {
        Some(bytes) => bytes.as_slice(),
        None => &[],
    }
}
