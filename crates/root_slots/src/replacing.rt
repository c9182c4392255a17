//! Replacing what a slot holds: its gate is closed for good, the new state is written behind it, and the gate is opened.
//!
//! A gate that is known to be closed stays as it is. To write it anew could open it for a moment, since a crash may leave any
//! byte in a place that is being written; and what stands behind it may be half a state.
ghost use Rattle.std.specs.Prelude.{◌≡◌, ◌<◌, ◌^◌, ℕ, Option, false, OnOk, OnErr};
ghost use Rattle.srch_base.specs.Counts.{HasCause};
ghost use Rattle.chunk_store.specs.Images.{Image, Told, Both, Changes};
ghost use Rattle.chunk_store.specs.CrashModel.{Makes};
ghost use Rattle.chunk_store.specs.Calls.{Crashes};
ghost use Rattle.root_slots.specs.Slots.{Slot, IsShut};
ghost use Rattle.root_slots.specs.Roots.{Stays, Steps};
ghost use Rattle.root_slots.specs.steps.Gates.{ToSame, ToShut, KeepsShut, ToFilled, ToHeld, ToOpened, SlotReplacing, SlotReplaced, SlotFailing};

use crate::writing::RootBytes;
use chunk_store::{Disk, put};
use srch_base::Failed;

/// Replaces what a slot holds. `shut` says whether the slot's gate is closed for good, before and after.
pub(crate) fn replace_slot<D: Disk>(
    disk: &mut D,
    slot: u32,
    shut: &mut bool,
    number: u64,
    bytes: &RootBytes,
) -> Result<(), Failed>
    requires stands { Told (λ image. (bound : ℕ) × (doubt : Option Slot) × Stays shut.old bound doubt (image slot)) (D.told disk.old) }
    ensures ok { OnOk result (shut.new ≡ false) }
    ensures stands { OnOk result (Steps D.Disk (Changes slot (SlotReplaced shut.old (record { number = number; state = bytes.now }))) disk.old disk.new) }
    ensures doubt { OnErr result ((doubt : Option Slot) → SlotFailing D.Disk slot shut.old shut.new doubt (record { number = number; state = bytes.now }) disk.old disk.new) }
    ensures crash { Crashes D.Disk disk.old disk.new (Changes slot (SlotReplacing shut.old (record { number = number; state = bytes.now }))) }
    ensures cause { HasCause (D.faults disk.old) (D.faults disk.new) result }
{
    match shut_gate(disk, slot, *shut) {
        Ok(()) => {
            *shut = true;
            match fill(disk, slot, number, bytes) {
                Ok(()) => {
                    *shut = false;
                    match open_slot(disk, slot) {
                        Ok(()) => Ok(()),
                        Err(Failed) => Err(Failed),
                    }
                }
                Err(Failed) => Err(Failed),
            }
        }
        Err(Failed) => Err(Failed),
    }
}

/// Closes the gate of a slot for good, unless it is.
fn shut_gate<D: Disk>(disk: &mut D, slot: u32, shut: bool) -> Result<(), Failed>
    ensures stands { OnOk result (Steps D.Disk (Changes slot (ToShut shut)) disk.old disk.new) }
    ensures told_err { OnErr result (Both (Changes slot (ToSame shut)) (D.told disk.old) (D.told disk.new)) }
    ensures crash { Crashes D.Disk disk.old disk.new (Changes slot (ToSame shut)) }
    ensures cause { HasCause (D.faults disk.old) (D.faults disk.new) result }
{
    if shut {
        return Ok(());
    }
    match put(disk, slot, 0, &[0]) {
        Ok(()) => Ok(()),
        Err(Failed) => Err(Failed),
    }
}

/// Writes a state with its number behind a closed gate.
fn fill<D: Disk>(disk: &mut D, slot: u32, number: u64, bytes: &RootBytes) -> Result<(), Failed>
    requires shut { Told (λ image. IsShut (image slot)) (D.told disk.old) }
    ensures stands { OnOk result (Steps D.Disk (Changes slot (ToFilled (record { number = number; state = bytes.now }))) disk.old disk.new) }
    ensures told_err { OnErr result (Both (Changes slot KeepsShut) (D.told disk.old) (D.told disk.new)) }
    ensures crash { Crashes D.Disk disk.old disk.new (Changes slot KeepsShut) }
    ensures cause { HasCause (D.faults disk.old) (D.faults disk.new) result }
{
    match disk.write(slot, 1, &number.to_le_bytes()) {
        Ok(()) => match put(disk, slot, 9, bytes.as_bytes()) {
            Ok(()) => Ok(()),
            Err(Failed) => Err(Failed),
        },
        Err(Failed) => Err(Failed),
    }
}

/// Opens the gate of a slot that is filled.
fn open_slot<D: Disk>(disk: &mut D, slot: u32) -> Result<(), Failed>
    ensures stands { OnOk result (Steps D.Disk (Changes slot ToOpened) disk.old disk.new) }
    ensures told_err { OnErr result (Both (Changes slot ToHeld) (D.told disk.old) (D.told disk.new)) }
    ensures crash { Crashes D.Disk disk.old disk.new (Changes slot ToHeld) }
    ensures cause { HasCause (D.faults disk.old) (D.faults disk.new) result }
{
    match put(disk, slot, 0, &[1]) {
        Ok(()) => Ok(()),
        Err(Failed) => Err(Failed),
    }
}
