//! What a text is read as: signs of its characters and tags, and the tags of its zones among its words.
/// What a character of a text, or a tag in it, is to the words of the text.
#[derive(Clone, Copy, PartialEq, Eq)]
pub enum TextSign {
    /// A character of the table in a text run, folded.
    Letter(char),
    /// Any other character that separates words.
    Separator,
    /// The end of a sentence.
    Sentence,
    /// The end of a paragraph.
    Paragraph,
    /// A tag that opens the zone of this number.
    Open(u16),
    /// A tag that closes the zone of this number.
    Close(u16),
}

/// A tag of a zone among the words of a text.
#[derive(Clone, Copy, PartialEq, Eq)]
pub struct ZoneTag {
    pub zone: u16,
    /// Whether it opens the zone; else it closes it.
    pub opens: bool,
    /// How many words stand before it.
    pub words: usize,
}
