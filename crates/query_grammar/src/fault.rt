use query_marks::QueryKind;
use srch_base::Name;

/// The first fault of a text.
#[derive(Debug, Drop)]
pub struct QueryFault {
    /// The first byte of the piece, an offset in the text; the text's length at its end. For negated items alone it is the first
    /// item's.
    pub place: u32,
    pub kind: QueryKind,
    /// The name that isn't known, in small letters, and empty for the other kinds.
    pub name: Name,
}
