//! What the pieces before one leave.
use crate::limits::Limits;
use sqlite_items::Items;

/// What the pieces before one leave.
#[derive(Drop)]
pub(crate) struct State {
    /// The keywords, up to the 256th.
    pub keywords: u16,
    /// `@@relaxed` is among them.
    pub relaxed: bool,
    pub here: Limits,
    /// The limits of the groups around, the innermost last.
    pub around: Items<Limits>,
}
