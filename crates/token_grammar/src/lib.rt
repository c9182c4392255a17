//! Grammars over any tokens: regular expressions over classes of tokens, and where a list of tokens leaves one.
#![tactic(auto)]
