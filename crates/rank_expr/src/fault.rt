//! What can be wrong with the text of an expression.
use srch_base::Name;

/// The most bytes of a text.
pub const MAX_TEXT: usize = 4096;

/// The most bytes of a name that a fault tells.
pub const MAX_NAME: usize = 64;

/// The kinds of faults.
#[derive(Clone, Copy)]
pub enum ExprKind {
    /// The text has more than 4,096 bytes.
    Long,
    Syntax,
    /// `/` or `%`.
    Division,
    /// A number above 2^64 - 1.
    Number,
    /// A name that is no factor, no function and no attribute.
    Factor,
    /// What a field gives outside of `sum`, or a `sum` inside of one.
    Scope,
    /// Parentheses, calls and signs that stand more than 32 deep in each other.
    Nesting,
}

/// The first fault of a text.
#[derive(Drop)]
pub struct ExprFault {
    /// The first byte of the piece, an offset in the text; the text's length at its end, and 4,096 where it is too long.
    pub place: u32,
    pub kind: ExprKind,
    /// The name of a factor that isn't known or is out of its scope, in small letters, and no more than its first 64 bytes; empty
    /// for the other kinds.
    pub name: Name,
}
