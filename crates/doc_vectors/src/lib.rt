//! Tests by tables of values from outside over documents: what a chunk over them answers, row by row and word by word, how many
//! rows of a snapshot live, how long a transaction's payload is, the bytes of images, and what commits come to, over the layers of
//! a snapshot and over a store that puts its layers together.
#![tactic(auto)]

#[cfg(test)]
mod chunks;
#[cfg(test)]
mod commits;
#[cfg(test)]
mod documents;
#[cfg(test)]
mod images;
#[cfg(test)]
mod outcomes;
#[cfg(test)]
mod over_a_store;
#[cfg(test)]
mod over_layers;
#[cfg(test)]
mod scripts;
#[cfg(test)]
mod snapshots;
#[cfg(test)]
mod store;
#[cfg(test)]
mod tables;
#[cfg(test)]
mod telling;
