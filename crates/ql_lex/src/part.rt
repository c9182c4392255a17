use crate::token::TokenKind;

/// A part of a text: a blank, a comment, or a token, with the offset after it.
#[derive(Clone, Copy)]
pub(crate) enum Part {
    /// One blank byte.
    Blank,
    Comment(usize),
    Token(TokenKind, usize),
}
