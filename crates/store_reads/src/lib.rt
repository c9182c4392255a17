//! The files of an index, read: its root, the chunks that the root names, and its logs over them. Nothing is written, synced or made;
//! what opening a store does besides is the keeper's.
#![tactic(auto)]

mod columns;
mod directory;
mod fault;
mod found;
mod laying;
mod loading;
mod logs;
mod pieces;
mod reading;
mod recent;
mod slots;

pub use columns::text_of;
pub use directory::read_directory;
pub use fault::StoreFault;
pub use found::Found;
pub use laying::upkept;
pub use slots::read_root;
