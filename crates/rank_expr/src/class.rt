/// What the grammar sees of a mark.
#[derive(Clone, Copy)]
pub enum Class {
    Leaf,
    Open,
    Close,
    Comma,
    Single,
    Double,
    Triple,
    Plus,
    Minus,
    Star,
    Compare,
    /// What can't stand anywhere.
    Unfit,
    End,
}
