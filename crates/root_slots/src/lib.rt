//! The root of an index: two slots, of which one holds the state. A new state is written into the other slot, behind its closed
//! gate, and that gate is opened only when the state is on the disk for good; so a crash leaves the old state or the new one.
#![tactic(auto)]

mod choosing;
mod fault;
mod laws;
mod reading;
mod replacing;
mod root;
mod slot;
mod state;
mod writing;

pub use fault::{RootFault, RootKind};
pub use laws::{
    a_root_gives_its_states, a_state_is_read_again, a_state_that_is_read_is_spelled_so,
};
pub use root::Root;
pub use state::{ChunkEntry, RootState};
pub use writing::RootBytes;
