//! The tree of a ranking expression, and what its parts look at in a document.
use sqlite_items::Boxed;

/// What a field gives, which is looked at inside of `sum`.
#[derive(Clone, Copy)]
pub enum FieldFactor {
    Lcs,
    HitCount,
    WordCount,
    UserWeight,
    MinHitPos,
}

/// What a document gives.
#[derive(Clone, Copy)]
pub enum DocFactor {
    /// The number of keywords times the sum of all weights of fields.
    MaxLcs,
    /// 2 to the power of its number for each field with a hit, summed up.
    FieldMask,
    /// How many distinct words have a hit.
    DocWordCount,
}

/// What is made of two values. A comparison gives 1 or 0.
#[derive(Clone, Copy)]
pub enum PairOp {
    Add,
    Subtract,
    Multiply,
    Min,
    Max,
    Less,
    Greater,
    AtMost,
    AtLeast,
    Equal,
    NotEqual,
}

/// An expression, or a part of it.
#[derive(Drop)]
pub enum Expr {
    Number(i128),
    Field(FieldFactor),
    Document(DocFactor),
    /// An attribute, by its place in the schema.
    Attr(u16),
    Negative(Boxed<Expr>),
    Abs(Boxed<Expr>),
    Pair(PairOp, Boxed<Expr>, Boxed<Expr>),
    If(Boxed<Expr>, Boxed<Expr>, Boxed<Expr>),
    /// Over the fields that have a hit.
    Sum(Boxed<Expr>),
}

/// A ranking expression.
#[derive(Drop)]
pub struct RankExpr {
    pub root: Expr,
}
