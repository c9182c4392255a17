//! Tests by tables of bytes from outside over what is kept: posting lists, transactions, schemas and images of chunks.
#![tactic(auto)]

#[cfg(test)]
mod codes;
#[cfg(test)]
mod images;
#[cfg(test)]
mod payloads;
#[cfg(test)]
mod tables;
#[cfg(test)]
mod telling;
#[cfg(test)]
mod transactions;
