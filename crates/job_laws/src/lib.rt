//! What the end of a job means for the files of an index. Each law is a function with an empty body: its clauses are the law.
#![tactic(auto)]

mod laws;

pub use laws::{
    a_job_that_ended_stands_in_the_files, a_job_that_was_answered_has_its_root,
    a_step_that_waits_or_not_survives_a_crash,
};
