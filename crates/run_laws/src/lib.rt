//! What a run comes to in which nothing fails: its statements are decided by the histories of indexes, and its status is that of a run
//! that was done, but for memory and for histories that strayed. Each law is a function with an empty body: its clauses are the law.
#![tactic(auto)]

mod laws;

pub use laws::{
    a_decided_statement_is_answered, a_good_run_ends_well, a_share_that_stays_has_no_fault,
    a_steady_disk_has_no_fault,
};
