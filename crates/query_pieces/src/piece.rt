//! What a piece is: plain data, in which words, names and numbers are parts of the text, by their offsets, to be read by who needs them. A
//! piece begins where the one before it ends, so it has only the offset after it. The forms are those of "Extended query
//! syntax" and "Field-start and field-end modifiers" in the Sphinx manual.

/// A part of a text, from one offset up to another.
#[derive(Clone, Copy, PartialEq, Eq)]
pub struct Slice {
    /// The offset of its first byte.
    pub from: usize,
    /// The offset after its last byte.
    pub to: usize,
}

/// A word of a text.
#[derive(Clone, Copy, PartialEq, Eq)]
pub struct Spelling {
    /// Where it is spelled, with the `\` in it and without its marks.
    pub letters: Slice,
    /// `^` stands directly before it.
    pub start: bool,
    /// `$` stands directly after it.
    pub end: bool,
    /// `*` stands directly after it where words may end with it: it is a prefix.
    pub prefix: bool,
}

/// The number after a quoted piece, as its digits stand in the text.
#[derive(Clone, Copy, PartialEq, Eq)]
pub enum Number {
    /// There is none: a phrase.
    Phrase,
    /// `~N`.
    Within(Slice),
    /// `/k`.
    AtLeast(Slice),
    /// `/0.d`, by the digits after the point.
    Share(Slice),
}

/// A quoted piece: `"`, up to the next `"`.
#[derive(Clone, Copy, PartialEq, Eq)]
pub struct Quotation {
    /// What stands between the quotes.
    pub inside: Slice,
    pub number: Number,
}

/// The fields that a limit names.
#[derive(Clone, Copy, PartialEq, Eq)]
pub enum Names {
    /// `*`.
    All,
    /// One name, or names with commas between them.
    Listed(Slice),
}

/// A field limit.
#[derive(Clone, Copy, PartialEq, Eq)]
pub struct FieldLimit {
    /// `!` stands before the names: all other fields are meant.
    pub negated: bool,
    pub names: Names,
    /// The digits of `[N]`.
    pub positions: Option<Slice>,
}

/// A zone limit.
#[derive(Clone, Copy, PartialEq, Eq)]
pub struct ZoneLimit {
    /// It is ZONESPAN.
    pub span: bool,
    /// One name, or names with commas between them.
    pub names: Slice,
}

/// What a piece of a text is.
#[derive(Clone, Copy, PartialEq, Eq)]
pub enum Form {
    Word(Spelling),
    Quoted(Quotation),
    /// A `"` after which no other stands.
    Unclosed,
    /// `(`.
    Open,
    /// `)`.
    Close,
    /// `|`.
    Or,
    /// `<<`.
    Before,
    /// `-` or `!`.
    Not,
    Maybe,
    Sentence,
    Paragraph,
    /// NEAR, with the digits of its number.
    Near(Slice),
    Fields(FieldLimit),
    Zones(ZoneLimit),
    /// `@@relaxed`.
    Relaxed,
    /// One character that separates, or `\` and the character after it.
    Separator,
}

/// A piece of a text.
#[derive(Clone, Copy, PartialEq, Eq)]
pub struct Piece {
    pub form: Form,
    /// The offset after it.
    pub to: usize,
}
