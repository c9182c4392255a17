//! The host of the program: files, the standard streams, stores over folders, and doors over these streams or over a listener.
#![tactic(auto)]

mod causes;
mod folders;
mod host;
mod host_disk;
mod looking;
mod streams;
mod texts;
mod words;

pub use host::RealHost;
pub use host_disk::HostDisk;
pub use looking::LookDisk;
pub use streams::Streams;
pub use texts::read_text;
pub use words::words_of;
