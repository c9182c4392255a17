//! Tests by tables of values from outside over disks, logs and roots, whose crates are proved once without them.
#![tactic(auto)]

#[cfg(test)]
mod bytes;
#[cfg(test)]
mod calls;
#[cfg(test)]
mod careful_disk;
#[cfg(test)]
mod crash_tables;
#[cfg(test)]
mod crashes;
#[cfg(test)]
mod folder_steps;
#[cfg(test)]
mod folders;
#[cfg(test)]
mod images;
#[cfg(test)]
mod log_tables;
#[cfg(test)]
mod logs;
#[cfg(test)]
mod root_tables;
#[cfg(test)]
mod roots;
#[cfg(test)]
mod rows;
#[cfg(test)]
mod telling;
