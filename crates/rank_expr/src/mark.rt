//! What the pieces of a text stand for.
use crate::expr::{DocFactor, FieldFactor, PairOp};

/// A piece that is an expression by itself.
#[derive(Clone, Copy)]
pub enum Leaf {
    Number(u64),
    Field(FieldFactor),
    Document(DocFactor),
    Attr(u16),
}

/// A function.
#[derive(Clone, Copy)]
pub enum Function {
    Abs,
    If,
    Max,
    Min,
    Sum,
}

/// A function of one expression.
#[derive(Clone, Copy)]
pub enum Single {
    Sum,
    Abs,
}

/// What a piece stands for. A call is one piece with its `(`.
#[derive(Clone, Copy)]
pub enum Sign {
    Leaf(Leaf),
    /// A number above the greatest one.
    TooLarge,
    /// A name that stands for nothing.
    Unknown,
    /// What a field gives outside of `sum`, or a `sum` inside of one.
    Misplaced,
    Open,
    Close,
    Comma,
    /// A call of a function of one expression,
    Single(Single),
    /// of two,
    Double(PairOp),
    /// and of three: `if`.
    Triple,
    Plus,
    Minus,
    Star,
    Compare(PairOp),
    /// `/` or `%`.
    Division,
    /// A character that begins no piece.
    Other,
    /// The text's end.
    End,
}

/// A piece of a text, where it stands.
#[derive(Clone, Copy)]
pub struct Mark {
    /// Its first byte, an offset in the text.
    pub at: u32,
    pub sign: Sign,
    /// An expression is due here: at the start, and behind all that doesn't end one.
    pub due: bool,
}
