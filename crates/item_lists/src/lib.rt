//! Items that are spelled one behind the other in some bytes, and where such bytes are first wrong. The crate has definitions and
//! lemmas alone: each kind of item is a case of them.
#![tactic(auto)]
