//! Which of two slots is the root.
ghost use Rattle.std.specs.Prelude.{◌≡◌, Some, IfOk, IfSome};
ghost use Rattle.root_slots.specs.States.{IsState};
ghost use Rattle.root_slots.specs.Openings.{ReadsRoot};
ghost use Rattle.root_slots.specs.steps.Chosen.{GivesRoot, IsOfBytes, chosen, first_root, no_root, zeroth_root};

use crate::fault::RootFault;
use crate::root::{Holder, Root};
use crate::slot::{SlotRead, slot_of};
use crate::state::RootState;
use std::alloc::Global;

/// The root of two slots with these bytes, and its state. A fault is that of slot 0, else that of slot 1.
pub(crate) fn root_of(
    alloc: Global,
    zeroth: &[u8],
    first: &[u8],
) -> Result<(Root, Option<RootState>), RootFault>
    ensures reads { ReadsRoot result (record { zeroth = Some zeroth.now; first = Some first.now }) }
    ensures state { IfOk result (λ found. IfSome found.1 IsState) }
    ensures bytes { IsOfBytes result }
{
    read_slots(alloc, zeroth, first)
}

fn read_slots(
    alloc: Global,
    zeroth: &[u8],
    first: &[u8],
) -> Result<(Root, Option<RootState>), RootFault>
    ensures { GivesRoot result zeroth.now first.now }
{
    let zeroth = slot_of(alloc, 0, zeroth)?;
    let first = slot_of(alloc, 1, first)?;
    Ok(choose(zeroth, first))
}

/// The open slot of the greatest number, slot 0 where both have the same.
fn choose(zeroth: SlotRead, first: SlotRead) -> (Root, Option<RootState>)
    ensures { result ≡ chosen zeroth first }
{
    match (zeroth, first) {
        (SlotRead::Open(a, state), SlotRead::Open(b, other)) => {
            if a < b {
                (of_first(b, false), Some(other))
            } else {
                (of_zeroth(a, false), Some(state))
            }
        }
        (SlotRead::Open(a, state), SlotRead::Shut) => (of_zeroth(a, true), Some(state)),
        (SlotRead::Open(a, state), SlotRead::Short) => (of_zeroth(a, false), Some(state)),
        (SlotRead::Shut, SlotRead::Open(b, state)) => (of_first(b, true), Some(state)),
        (SlotRead::Short, SlotRead::Open(b, state)) => (of_first(b, false), Some(state)),
        (SlotRead::Shut, SlotRead::Shut) => (of_neither(true, true), None),
        (SlotRead::Shut, SlotRead::Short) => (of_neither(true, false), None),
        (SlotRead::Short, SlotRead::Shut) => (of_neither(false, true), None),
        (SlotRead::Short, SlotRead::Short) => (of_neither(false, false), None),
    }
}

/// A root whose state stands in slot 0.
fn of_zeroth(number: u64, first_shut: bool) -> Root
    ensures { result ≡ zeroth_root number first_shut }
{
    Root {
        holder: Holder::Zeroth,
        number,
        zeroth_shut: false,
        first_shut,
    }
}

/// A root whose state stands in slot 1.
fn of_first(number: u64, zeroth_shut: bool) -> Root
    ensures { result ≡ first_root number zeroth_shut }
{
    Root {
        holder: Holder::First,
        number,
        zeroth_shut,
        first_shut: false,
    }
}

/// A root without a state.
fn of_neither(zeroth_shut: bool, first_shut: bool) -> Root
    ensures { result ≡ no_root zeroth_shut first_shut }
{
    Root {
        holder: Holder::Neither,
        number: 0,
        zeroth_shut,
        first_shut,
    }
}
