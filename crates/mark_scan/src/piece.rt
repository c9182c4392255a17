//! A piece of a text, as it lies in the text: nothing of it is copied.
//!
//! A tag keeps what decides on its marks: its name in either case, and whether a `/` stands before the name or the `>`.
//! What else stands in it, such as attributes, isn't looked at.

/// A part of a text. The parts of a text, one after the other, are the text.
#[derive(Clone, Copy)]
pub enum Piece<'a> {
    /// Text between markup.
    Plain(&'a str),
    /// A comment, from `<!--` to its `-->`.
    Comment(&'a str),
    Tag(Tag<'a>),
}

/// A tag of a text.
#[derive(Clone, Copy)]
pub struct Tag<'a> {
    /// The whole tag, from `<` to `>`.
    pub text: &'a str,
    /// The name, as the text has it.
    pub name: &'a [u8],
    /// Whether a `/` stands before the name.
    pub closing: bool,
    /// Whether a `/` stands before the `>`.
    pub empty: bool,
}
