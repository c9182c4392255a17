//! The root of an index: which of its two slots is open, and the state in it.
ghost use Rattle.std.specs.Prelude.{◌≡◌, IfOk, IfSome};
ghost use Rattle.chunk_store.specs.Calls.{OnlyReads};
ghost use Rattle.chunk_store.specs.CrashModel.{KeepsAll};
ghost use Rattle.root_slots.specs.States.{IsState};
ghost use Rattle.store_steps.specs.Damage.{of_root};
ghost use Rattle.store_reads.specs.Reads.{HasStoreCause, ReadsSlots};

use crate::fault::StoreFault;
use chunk_store::Disk;
use root_slots::{Root, RootFault, RootKind, RootState};
use std::alloc::Global;
use store_steps::{Damage, DamageKind};

/// Reads the root of an index, and its state; None where no slot is open.
pub fn read_root<D: Disk>(
    alloc: Global,
    disk: &mut D,
) -> Result<(Root, Option<RootState>), StoreFault>
    ensures read { ReadsSlots (D.told disk.new) result }
    ensures state { IfOk result (λ found. IfSome found.1 IsState) }
    ensures looks { OnlyReads D.Disk disk.old disk.new }
    ensures keeps { KeepsAll D.may_leave disk.old disk.new }
    ensures cause { HasStoreCause (D.faults disk.old) (D.faults disk.new) result }
{
    match Root::read(alloc, disk) {
        Ok((root, state)) => Ok((root, state)),
        Err(RootFault::NoMemory) => Err(StoreFault::NoMemory),
        Err(RootFault::DiskFault) => Err(StoreFault::DiskFault),
        Err(RootFault::BadRoot { slot, place, kind }) => {
            Err(StoreFault::Damaged(bad_root(slot, place, kind)))
        }
    }
}

/// What is wrong with a slot, among the damage of an index.
fn bad_root(slot: u8, place: u64, kind: RootKind) -> Damage
    ensures { result ≡ record { file = slot; place = place; kind = of_root kind } }
{
    let kind = match kind {
        RootKind::Length => DamageKind::RootLength,
        RootKind::State => DamageKind::RootState,
    };
    let file = u32::from(slot);
    Damage { file, place, kind }
}
