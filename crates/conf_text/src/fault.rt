//! What is wrong with a configuration: its first faulty line, and the first kind of the list below that this line has.
//! The program prints both: `searchd: config line 6: unknown key` (docs/MANUAL.md).
ghost use Rattle.std.specs.Prelude.{◌≡◌};
ghost use Rattle.conf_text.specs.FaultTexts.{kind_text};

use std::error::Error;
use std::fmt;

/// What is wrong with a line, in the order in which faults of one line are looked for.
#[derive(Clone, Copy, Debug, PartialEq, Eq)]
pub enum ConfKind {
    /// It isn't UTF-8.
    NotText,
    /// The grammar can't have it there, or the text ends here inside a section.
    Syntax,
    /// A section of no known kind begins.
    UnknownSection,
    /// An index has no such key.
    UnknownKey,
    /// The key can't have this value.
    BadValue,
    /// A key, a column, an index or a path is there before.
    Repeated,
    /// An index ends without a key that it needs, or there is no index.
    Missing,
    /// A limit is passed.
    Limit,
}

/// The first fault of a configuration.
#[derive(Clone, Copy, Debug, PartialEq, Eq)]
pub struct ConfFault {
    /// The line, from 1. Lines that are joined have the number of the first of them.
    pub line: u32,
    pub kind: ConfKind,
}

impl ConfKind {
    /// The kind in words.
    pub fn text(self) -> &'static str
        ensures { result.now ≡ kind_text self }
    {
        match self {
            ConfKind::NotText => "not UTF-8",
            ConfKind::Syntax => "syntax",
            ConfKind::UnknownSection => "unknown section",
            ConfKind::UnknownKey => "unknown key",
            ConfKind::BadValue => "bad value",
            ConfKind::Repeated => "repeated",
            ConfKind::Missing => "missing key",
            ConfKind::Limit => "limit",
        }
    }
}

impl fmt::Display for ConfKind {
    ghost use Rattle.std.specs.Prelude.{Some};
    ghost use Rattle.conf_text.specs.FaultTexts.{kind_text};

    ghost output = { λ kind. Some (kind_text kind) };

    fn fmt<W: fmt::Write>(&self, f: &mut fmt::Formatter<W>) -> fmt::Result {
        f.write_str(self.text())
    }
}

impl Error for ConfKind {}
