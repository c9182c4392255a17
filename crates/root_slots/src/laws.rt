//! What the definitions of a root say together.
ghost use Rattle.std.specs.Prelude.{◌≡◌, ◌<◌, ◌^◌, ℕ, List, Option, Some, None, Ok, length, slice_index};
ghost use Rattle.root_slots.specs.States.{IsState, state_bytes};
ghost use Rattle.root_slots.specs.Reading.{state_at};
ghost use Rattle.root_slots.specs.Slots.{Slot, Slots};
ghost use Rattle.root_slots.specs.Roots.{Leaves, Stands};
ghost use Rattle.root_slots.specs.declared.root.Root.{Root as TheRoot};
ghost use Rattle.root_slots.specs.declared.state.RootState.{RootState as TheState};

/// Each state is read from its bytes.
pub fn a_state_is_read_again()
    ensures { (state : TheState) → IsState state → state_at (state_bytes state) ≡ Ok state }
{}

/// Bytes that are read as a state are that state's, and no others.
pub fn a_state_that_is_read_is_spelled_so()
    ensures { (bytes : List ℕ) (state : TheState) → ((i : ℕ) → slice_index bytes i < 256) → length bytes < 2 ^ 32 → state_at bytes ≡ Ok state → IsState state × (bytes ≡ state_bytes state) }
{}

/// Slots that stand as a root left them are read as its own state, or as the one in doubt.
pub fn a_root_gives_its_states()
    ensures { (root : TheRoot) (own : Option Slot) (doubt : Option Slot) (slots : Slots) → Stands root own doubt slots → Leaves own doubt slots }
{}
