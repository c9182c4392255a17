//! What is wrong with a text: the offset of the first fault from the left, in bytes, and its kind, and what it prints.

ghost use Rattle.std.specs.Prelude.{◌≡◌, ◌≤◌, length};
ghost use Rattle.ql_lex.specs.Faults.{fault_text, kind_text};

use std::error::Error;
use std::fmt;

/// Why no token can be read at an offset of a text.
#[derive(Clone, Copy, Debug, PartialEq, Eq)]
pub enum LexKind {
    /// The bytes between the quotes of a text are not UTF-8. The offset is that of the first quote.
    NotUtf8,
    /// A text, or a name in backquotes, doesn't end. The offset is that of its quote.
    UnclosedQuote,
    /// A comment doesn't end. The offset is that of its `/*`.
    UnclosedComment,
    /// No token begins with the byte at the offset.
    BadCharacter,
    /// The number at the offset is above 18446744073709551615.
    NumberTooLarge,
    /// A `.` follows the number at the offset.
    NumberWithPoint,
    /// The name at the offset has more than 64 bytes, not counting `@@` and backquotes.
    NameTooLong,
}

/// The first offset of a text at which no token can be read.
#[derive(Clone, Copy, Debug, PartialEq, Eq)]
pub struct LexFault {
    /// An offset in the text, in bytes.
    pub place: u32,
    pub kind: LexKind,
}

impl LexKind {
    /// The kind in words.
    pub fn text(self) -> &'static str
        ensures words { result.now ≡ kind_text self }
        ensures short { length result.now ≤ 24 }
    {
        match self {
            LexKind::NotUtf8 => "text is not UTF-8",
            LexKind::UnclosedQuote => "unclosed quote",
            LexKind::UnclosedComment => "unclosed comment",
            LexKind::BadCharacter => "bad character",
            LexKind::NumberTooLarge => "number too large",
            LexKind::NumberWithPoint => "number with a point",
            LexKind::NameTooLong => "name too long",
        }
    }
}

impl fmt::Display for LexKind {
    ghost use Rattle.std.specs.Prelude.{Some};
    ghost use Rattle.ql_lex.specs.Faults.{kind_text};

    ghost output = { λ kind. Some (kind_text kind) };

    fn fmt<W: fmt::Write>(&self, f: &mut fmt::Formatter<W>) -> fmt::Result {
        f.write_str(self.text())
    }
}

impl fmt::Display for LexFault {
    ghost use Rattle.std.specs.Prelude.{Some};

    ghost output = { λ fault. Some (fault_text fault) };

    fn fmt<W: fmt::Write>(&self, f: &mut fmt::Formatter<W>) -> fmt::Result {
        write!(f, "{} at {}", self.kind, self.place)
    }
}

impl Error for LexKind {}

impl Error for LexFault {}
