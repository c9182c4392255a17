//! One slot, read from the bytes of its file.
//!
//! ```text
//! gate                   1 byte, open exactly where it is 1
//! number                 8 bytes
//! length of the state    4 bytes
//! state
//! ```
//!
//! What follows the state isn't read.
ghost use Rattle.root_slots.specs.Choosing.{behind_at, slot_at};
ghost use Rattle.root_slots.specs.steps.Chosen.{GivesSlot};

use crate::fault::{RootFault, RootKind};
use crate::reading::state_of;
use crate::state::RootState;
use byte_fields::{u32_of, u64_of};
use srch_base::Or;
use std::alloc::Global;

/// What a slot is.
#[derive(Drop)]
pub(crate) enum SlotRead {
    /// There is less than a slot, and no gate or an open one.
    Short,
    /// It has a gate, which is closed.
    Shut,
    /// It is open, and this is its number and its state.
    Open(u64, RootState),
}

/// A slot of these bytes.
#[tactic(auto, unfolding(crate::specs::Choosing::slot_at))]
pub(crate) fn slot_of(alloc: Global, slot: u8, bytes: &[u8]) -> Result<SlotRead, RootFault>
    ensures { GivesSlot slot result (slot_at bytes.now) }
{
    match bytes {
        [1, rest @ ..] => behind_of(alloc, slot, rest),
        [] => Ok(SlotRead::Short),
        _ => Ok(SlotRead::Shut),
    }
}

/// What stands behind an open gate.
#[tactic(auto, unfolding(crate::specs::Choosing::behind_at))]
fn behind_of(alloc: Global, slot: u8, bytes: &[u8]) -> Result<SlotRead, RootFault>
    ensures { GivesSlot slot result (behind_at bytes.now) }
{
    let (number, rest) = match u64_of(bytes) {
        Ok(found) => found,
        Err(Or::NoMemory) => return Err(RootFault::NoMemory),
        Err(Or::Fault(_)) => return Ok(SlotRead::Short),
    };
    let (size, rest) = match u32_of(rest) {
        Ok(found) => found,
        Err(Or::NoMemory) => return Err(RootFault::NoMemory),
        Err(Or::Fault(_)) => return Ok(SlotRead::Short),
    };
    let size = size as usize;
    if rest.len() < size {
        return Err(RootFault::BadRoot {
            slot,
            place: 0,
            kind: RootKind::Length,
        });
    }
    let (state, _) = rest.split_at(size);
    match state_of(alloc, state) {
        Ok(state) => Ok(SlotRead::Open(number, state)),
        Err(Or::NoMemory) => Err(RootFault::NoMemory),
        Err(Or::Fault(left)) => Err(RootFault::BadRoot {
            slot,
            place: size.saturating_sub(left).saturating_add(13) as u64,
            kind: RootKind::State,
        }),
    }
}
