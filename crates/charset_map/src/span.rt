/// Characters that follow each other, by their numbers, whose values follow each other too.
#[derive(Clone, Copy)]
pub struct Span {
    pub first: u32,
    pub last: u32,
    /// The number of the first one's value.
    pub value: u32,
}
