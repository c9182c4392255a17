//! Workers of an index: one commits, and two have a job each, so that commits go on while a job is on its way, and one job while another
//! is.
use job_chunks::NewChunk;
use step_book::Naming;
use step_tokens::Token;

/// A worker that has jobs, with the chunk of the one that it began.
#[derive(Drop)]
pub struct Seat<J: Naming> {
    pub token: Token<J>,
    pub chunk: Option<NewChunk>,
}

/// Those who make the steps of a script: one commits, and two have a job each.
#[derive(Drop)]
pub struct Seats<J: Naming> {
    pub commits: Token<J>,
    pub first: Seat<J>,
    pub second: Seat<J>,
}
