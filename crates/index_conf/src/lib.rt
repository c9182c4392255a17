//! A configured index: its columns, the characters of its words, how its texts are marked, where its files are. No text of a
//! configuration is read here, so whoever serves an index needs no reader of one.
#![tactic(auto)]

mod conf;

pub use conf::{Conf, IndexConf, MAX_INDEXES};
