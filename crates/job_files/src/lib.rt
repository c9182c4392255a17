//! How the end of a job is written to the files of an index: its chunk, a new log, and a root that names them.
//!
//! The log so far becomes the older one, since commits came while the chunk was built. Until the new root stands, the files are read
//! as before; where it couldn't be written, it is in doubt which of the two is read, and both stand for the same documents.
#![tactic(auto)]

mod installing;

pub use installing::{install, log_file, remove};
