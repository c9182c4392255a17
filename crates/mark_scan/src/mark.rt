//! What marks are, and the rules that they are made by: `html_strip`, `index_sp` and `index_zones` of Sphinx's manual.
use srch_base::{Items, Name};

/// How marks are made of a text.
#[derive(Drop)]
pub struct MarkRules {
    /// Whether markup is taken out of the text. Without it the whole text is one run.
    pub strip: bool,
    /// Whether the ends of sentences and paragraphs are marked.
    pub sp: bool,
    /// The names of the zones. A zone's number is its place in the list.
    pub zones: Items<Name>,
}

/// A mark of a text: the bytes from the place `from` up to `to`, which is the place after the last of them.
#[derive(Clone, Copy, PartialEq, Eq)]
pub struct Mark {
    pub kind: MarkKind,
    pub from: u32,
    pub to: u32,
}

/// What a mark stands for. Marks at one place come in this order.
#[derive(Clone, Copy, PartialEq, Eq)]
pub enum MarkKind {
    /// A piece of a text run. Two that follow each other belong to one run where only `Inline` marks stand between them.
    Text,
    /// A tag that is removed, with nothing in its place.
    Inline,
    /// The `.`, `?` or `!` that ends a sentence.
    Sentence,
    /// A tag that ends a paragraph.
    Paragraph,
    /// A tag that opens the zone of this number, and ends an open span of it.
    Open(u16),
    /// A tag that closes the zone of this number, where it is open.
    Close(u16),
}
