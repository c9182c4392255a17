/// What the grammar sees of a mark.
#[derive(Clone, Copy)]
pub enum Class {
    /// A word or a phrase.
    Leaf,
    Loose,
    Open,
    Close,
    Or,
    Before,
    Not,
    Maybe,
    Sentence,
    Paragraph,
    Near,
    Limit,
    Relaxed,
    Unclosed,
    End,
}
