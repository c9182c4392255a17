//! What a job does to the layers of an index, as definitions and laws alone.
//!
//! A job makes one chunk of the rows that live in the layers that it takes, over a snapshot that it keeps meanwhile; commits go on.
//! When the chunk is whole it takes its place in the snapshot of that moment (`Rebasing`: `rebased`). A row of the chunk lives there
//! only where it still lived: what was replaced or deleted meanwhile is dead in it, and what was put meanwhile stays in memory.
#![tactic(auto)]

mod laws;

pub use laws::{
    a_job_follows, moved_rows_were_taken, rebasing_keeps_rows, rebasing_keeps_the_schema,
};
