//! Tests over opening a store and over keeping it: by a table of directories, what no session shows of the documents that each
//! stands for; and a script of commits and jobs that is stopped at each call of the disk and opened again, or in which each call fails once.
#![tactic(auto)]

#[cfg(test)]
mod crashes;
#[cfg(test)]
mod directories;
#[cfg(test)]
mod documents;
#[cfg(test)]
mod doubts;
#[cfg(test)]
mod failing;
#[cfg(test)]
mod jobs;
#[cfg(test)]
mod leftovers;
#[cfg(test)]
mod opening;
#[cfg(test)]
mod running;
#[cfg(test)]
mod scripts;
mod seats;
#[cfg(test)]
mod spelling;
mod step;
#[cfg(test)]
mod tests;

pub use seats::{Seat, Seats};
pub use step::Step;
