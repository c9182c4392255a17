use crate::serving::SeatEnd;
use engine_tables::Tokens;
use srch_base::Door;
use step_book::Naming;

/// What a worker has: its door, and its tokens of all indexes. Once it has ended, it says why.
pub struct Seat<E: Door, J: Naming> {
    pub door: E,
    /// None inside a call, and once they were collected.
    pub tokens: Option<Tokens<J>>,
    pub end: SeatEnd,
}
