//! Tests of what no clause says of what threads share: that reads beside a writer give whole snapshots in their order, that each call
//! of a line can succeed, that commits of an engine succeed and are found by other workers, that a job ends beside commits, that a
//! fault of the disk counts for the worker whose commit met it alone, that two commits of one worker may be in doubt one after the other
//! and are settled, and that many workers commit at once.
#![tactic(auto)]

#[cfg(test)]
mod at_once;
#[cfg(test)]
mod calls;
#[cfg(test)]
mod commits;
#[cfg(test)]
mod doubts;
#[cfg(test)]
mod in_turn;
#[cfg(test)]
mod jobs;
#[cfg(test)]
mod reading;
#[cfg(test)]
mod two_doubts;
#[cfg(test)]
mod writing;
