//! The tokens of a text: a kind, the bytes as the text has them, and their offset. A token borrows the text and copies nothing.

/// What a token is.
#[derive(Clone, Copy, PartialEq, Eq)]
pub enum TokenKind {
    /// A letter or `_`, then letters, digits and `_`: a keyword or a name.
    Name,
    /// A name between backquotes. It is never a keyword.
    Quoted,
    /// Decimal digits, at most 18446744073709551615.
    Number,
    /// A text between `'` or between `"`.
    Text,
    /// `@@` and a name, which may have dots after its first character.
    SysVar,
    /// One of `( ) , ; * = != <> < > <= >= -`.
    Sign,
    /// The end of the text.
    End,
}

/// A token of a text. Between two tokens that follow each other stand blanks and comments alone.
#[derive(Clone, Copy)]
pub struct Token<'a> {
    pub kind: TokenKind,
    /// The whole token as the text has it, with its quotes, its backquotes or its `@@`. At the end it is empty.
    pub text: &'a [u8],
    /// The offset of its first byte in the text.
    pub at: u32,
}

/// A sign, whichever of its spellings stands in the text.
#[derive(Clone, Copy, PartialEq, Eq)]
pub enum Sign {
    OpenParen,
    CloseParen,
    Comma,
    Semicolon,
    Star,
    Minus,
    Equal,
    /// `!=` or `<>`.
    NotEqual,
    Less,
    Greater,
    LessOrEqual,
    GreaterOrEqual,
}
