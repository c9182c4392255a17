//! The paths of a configuration are texts: what is read of a file as a configuration is, and no line of it is cut within a character.
//! The crate has lemmas alone.
#![tactic(auto)]
