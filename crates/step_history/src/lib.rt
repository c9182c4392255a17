//! The history of an index: steps over the snapshot at its opening, and the laws that readers, commits and jobs rest on.
#![tactic(auto)]

mod job;
mod laws;

pub use job::Job;
pub use laws::{
    a_beginning_is_good, a_step_that_follows_keeps_it_good, a_worker_numbers_its_commits,
    commits_add_up, commits_are_numbered, each_step_raises_the_place,
    the_log_holds_what_came_since, the_rows_are_those_of_the_commits,
    what_lies_between_two_snapshots_of_one_shape,
};
