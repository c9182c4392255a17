//! Tests by tables of values from outside over the top call: lines and runs, through all crates but the program.
#![tactic(auto)]

#[cfg(test)]
mod bytes;
#[cfg(test)]
mod crashes;
#[cfg(test)]
mod disks;
#[cfg(test)]
mod ends;
#[cfg(test)]
mod failing;
#[cfg(test)]
mod jobs;
#[cfg(test)]
mod lines;
#[cfg(test)]
mod runs;
#[cfg(test)]
mod serving;
#[cfg(test)]
mod table_door;
#[cfg(test)]
mod table_host;
#[cfg(test)]
mod tests;
#[cfg(test)]
mod told;
#[cfg(test)]
mod turns;
