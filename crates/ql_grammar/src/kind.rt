use crate::Keyword;
use ql_lex::Sign;

/// What the grammar sees of a token.
#[derive(Clone, Copy, PartialEq, Eq)]
pub enum Kind {
    Keyword(Keyword),
    /// A name that is no keyword, or one between backquotes.
    Name,
    Number,
    Text,
    SysVar,
    Sign(Sign),
    End,
}
