//! Roots whose states are replaced, by states that are written as the bytes of a slot.
ghost use Rattle.std.specs.Option.{IfSome};
ghost use Rattle.root_slots.specs.States.{IsState};

use crate::careful_disk::{CarefulDisk, failing_disk};
use crate::images::write_file;
use crate::telling::put_crashes;
use root_slots::{Root, RootBytes, RootState};
use std::alloc::Global;

/// Four states that follow one another, and differ in the commit that they go through.
const STATES: &str = "\
01 A 18000000 0000 0100000000000000 03000000 00000000 02000000 0000
01 A 18000000 0000 0200000000000000 03000000 00000000 02000000 0000
01 A 18000000 0000 0300000000000000 03000000 00000000 02000000 0000
01 A 18000000 0000 0400000000000000 03000000 00000000 02000000 0000";

/// The first three of them, as a row has them.
pub(crate) const THREE_STATES: &str = "\
01 A 18000000 0000 0100000000000000 03000000 00000000 02000000 0000; \
01 A 18000000 0000 0200000000000000 03000000 00000000 02000000 0000; \
01 A 18000000 0000 0300000000000000 03000000 00000000 02000000 0000";

/// The state of the root on a disk.
fn state_on(alloc: Global, disk: &mut CarefulDisk) -> Option<RootState>
    ensures { IfSome result IsState }
{
    match Root::read(alloc, disk) {
        Ok((_, state)) => state,
        Err(_) => None,
    }
}

/// The root on a disk.
fn root_on(alloc: Global, disk: &mut CarefulDisk) -> Option<Root> {
    match Root::read(alloc, disk) {
        Ok((root, _)) => Some(root),
        Err(_) => None,
    }
}

/// The state of the root on a disk, as it is written.
fn bytes_on(alloc: Global, disk: &mut CarefulDisk) -> Option<RootBytes> {
    let state = state_on(alloc, disk)?;
    RootBytes::new(alloc, &state).ok()
}

/// The state of a slot, as it is written.
fn bytes_of_slot(alloc: Global, slot: &str) -> Option<RootBytes> {
    let mut disk = failing_disk(alloc, &[])?;
    write_file(alloc, &mut disk, 0, u64::MAX, slot)?;
    bytes_on(alloc, &mut disk)
}

/// Replaces the state of a root, and says whether that was done.
#[tactic(auto, using(crate::proofs::Rooms::room_by))]
fn is_replaced(disk: &mut CarefulDisk, root: &mut Root, bytes: &RootBytes) -> bool {
    if root.full() {
        return false;
    }
    root.replace(disk, bytes).is_ok()
}

/// Replaces the state of a root by that of a slot, and says whether that was done.
fn is_replaced_by(
    alloc: Global,
    disk: &mut CarefulDisk,
    root: &mut Root,
    slot: &str,
) -> Option<bool> {
    let bytes = bytes_of_slot(alloc, slot)?;
    Some(is_replaced(disk, root, &bytes))
}

/// Reads the root on a disk, and replaces its state by that of a slot.
pub(crate) fn replace(alloc: Global, disk: &mut CarefulDisk, slot: &str) -> Option<()> {
    let mut root = root_on(alloc, disk)?;
    match is_replaced_by(alloc, disk, &mut root, slot) {
        Some(true) => Some(()),
        _ => None,
    }
}

/// Has the states of some slots follow one another. The root is read before each.
pub(crate) fn replace_each(alloc: Global, disk: &mut CarefulDisk, slots: &str) -> Option<()> {
    for slot in slots.split("; ") {
        replace(alloc, disk, slot)?;
    }
    Some(())
}

/// Replaces the state of a root, and puts whether that was done and what is read after each of the four crashes now.
fn put_next(
    alloc: Global,
    disk: &mut CarefulDisk,
    root: &mut Root,
    slot: &str,
    text: &mut String,
) -> Option<()> {
    let is_done = is_replaced_by(alloc, disk, root, slot)?;
    text.push_str(if is_done { " done" } else { " failed" })
        .ok()?;
    put_crashes(alloc, &disk.below, disk.below.calls(), "root", text)
}

/// Has four states follow one another on a disk whose root is read once, and puts what is seen of each.
pub(crate) fn put_states(alloc: Global, disk: &mut CarefulDisk, text: &mut String) -> Option<()> {
    let mut root = root_on(alloc, disk)?;
    for slot in STATES.lines() {
        put_next(alloc, disk, &mut root, slot, text)?;
    }
    Some(())
}
