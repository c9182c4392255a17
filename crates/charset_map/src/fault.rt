//! Why a text is no character table: its first faulty entry, and the first kind of the list below that this entry has.
//! `Twice` alone looks at the entries before it, and `Empty` is said of a text of blanks.

/// What is wrong with an entry of a character table, in the order in which faults are looked for.
#[derive(Clone, Copy, Debug, PartialEq, Eq)]
pub enum CharsetKind {
    /// It is none of `c`, `c..d`, `c->e` and `c..d->e..f`.
    Entry,
    /// A range ends below its start.
    Range,
    /// The two ranges aren't equally long.
    Lengths,
    /// A character of it has another value before.
    Twice,
    /// The text has no entry.
    Empty,
}

/// The first faulty entry of a table's text.
#[derive(Clone, Copy, Debug, PartialEq, Eq)]
pub struct CharsetFault {
    /// The offset of the entry's first byte in the text, after the blanks before it.
    pub place: u32,
    pub kind: CharsetKind,
}
