//! What a row has beside the places of keywords: where its sentences and paragraphs end, and the spans of its zones. Each is
//! read only where the query asks for it.
use doc_types::ZoneSpan;

/// Boundaries and spans of the row at hand.
#[derive(Drop)]
pub struct RowMarks {
    /// The ends of sentences, and those of paragraphs with them, by field and position.
    pub sentences: Vec<(u16, u32)>,
    /// The ends of paragraphs.
    pub paragraphs: Vec<(u16, u32)>,
    /// The spans of zones, each with its field.
    pub spans: Vec<(u16, ZoneSpan)>,
}
