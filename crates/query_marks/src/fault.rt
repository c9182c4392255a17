//! Why a text is no extended query: the kinds of faults, in the order in which they are looked for at one offset, and each
//! in words.
ghost use Rattle.std.specs.Prelude.{◌≡◌, ◌≤◌, length};
ghost use Rattle.query_marks.specs.KindTexts.{kind_text};

use srch_base::Name;
use std::error::Error;
use std::fmt;

/// Why a text is no extended query. At one offset the order is that of the list.
#[derive(Clone, Copy, Debug, PartialEq, Eq)]
pub enum QueryKind {
    /// A `"` that no other follows.
    UnclosedQuote,
    /// The first piece with which no query goes on, or the text's end.
    Syntax,
    /// An AND, or what a ZONESPAN stands over, has negated items alone. The offset is that of its first item.
    OnlyNot,
    /// A field limit names what is no field. The fault has the name.
    UnknownField,
    /// A zone limit names what is no zone. The fault has the name.
    UnknownZone,
    /// A name of more than 64 bytes stands in a limit.
    NameTooLong,
    /// A number isn't 1 to 65,535, or a share isn't above 0 with at most four decimals.
    NumberOutOfRange,
    /// The 33rd parenthesis that is open.
    Nesting,
    /// The 256th keyword.
    TooManyKeywords,
    /// ZONESPAN is in force in the group of a `<<` or NEAR.
    ZoneSpanBeforeOperator,
    /// A prefix has fewer characters than the index asks for.
    PrefixTooShort,
}

/// What is wrong with a piece by itself.
#[derive(Drop)]
pub struct Wrong {
    pub kind: QueryKind,
    /// The name that isn't known, in small letters, and empty for the other kinds.
    pub name: Name,
}

impl QueryKind {
    /// The kind in words.
    pub fn text(self) -> &'static str
        ensures words { result.now ≡ kind_text self }
        ensures short { length result.now ≤ 24 }
    {
        match self {
            QueryKind::UnclosedQuote => "unclosed quote",
            QueryKind::Syntax => "syntax error",
            QueryKind::OnlyNot => "only NOT",
            QueryKind::UnknownField => "unknown field",
            QueryKind::UnknownZone => "unknown zone",
            QueryKind::NameTooLong => "name too long",
            QueryKind::NumberOutOfRange => "number out of range",
            QueryKind::Nesting => "nesting above 32",
            QueryKind::TooManyKeywords => "too many keywords",
            QueryKind::ZoneSpanBeforeOperator => "ZONESPAN before operator",
            QueryKind::PrefixTooShort => "prefix too short",
        }
    }
}

impl fmt::Display for QueryKind {
    ghost use Rattle.std.specs.Prelude.{Some};
    ghost use Rattle.query_marks.specs.KindTexts.{kind_text};

    ghost output = { λ kind. Some (kind_text kind) };

    fn fmt<W: fmt::Write>(&self, f: &mut fmt::Formatter<W>) -> fmt::Result {
        f.write_str(self.text())
    }
}

impl Error for QueryKind {}
