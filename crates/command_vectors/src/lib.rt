//! Tests by tables of values from outside over what the program is told: words of a command line, and SphinxQL's tokens and
//! statements.
#![tactic(auto)]

#[cfg(test)]
mod canonical;
#[cfg(test)]
mod lists;
#[cfg(test)]
mod packets;
#[cfg(test)]
mod signs;
#[cfg(test)]
mod statements;
#[cfg(test)]
mod telling;
#[cfg(test)]
mod tokens;
#[cfg(test)]
mod values;
#[cfg(test)]
mod words;
