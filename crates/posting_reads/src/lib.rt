//! A reader of short numbers in bytes that come from outside, for loops that go over many of them. It tells whether one is there, as
//! `posting_codec`'s own does; it is made to be inlined, since most numbers have one byte.
#![tactic(auto)]

mod numbers;

pub use numbers::short_of;
