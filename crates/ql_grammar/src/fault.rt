//! Why tokens are no packet: the offset of the first token with which no packet goes on, and whether one goes on that has more
//! statements than are allowed. It prints `syntax error at OFFSET` or `too many statements`.

ghost use Rattle.std.specs.Prelude.{◌≡◌, ◌≤◌, length};
ghost use Rattle.ql_grammar.specs.FaultTexts.{fault_text, kind_text};

use std::error::Error;
use std::fmt;

/// Why tokens are no packet.
#[derive(Clone, Copy, Debug, PartialEq, Eq)]
pub enum ParseKind {
    /// No packet goes on with the token at the offset.
    Syntax,
    /// One more statement than are allowed begins at the offset.
    TooMany,
}

/// The first offset of a text that is no packet.
#[derive(Clone, Copy, Debug, PartialEq, Eq)]
pub struct ParseFault {
    /// The offset of a token, in bytes.
    pub place: u32,
    pub kind: ParseKind,
}

impl ParseKind {
    /// The kind in words.
    pub fn text(self) -> &'static str
        ensures words { result.now ≡ kind_text self }
        ensures short { length result.now ≤ 24 }
    {
        match self {
            ParseKind::Syntax => "syntax error",
            ParseKind::TooMany => "too many statements",
        }
    }
}

impl fmt::Display for ParseFault {
    ghost use Rattle.std.specs.Prelude.{Some};

    ghost output = { λ fault. Some (fault_text fault) };

    fn fmt<W: fmt::Write>(&self, f: &mut fmt::Formatter<W>) -> fmt::Result {
        match self.kind {
            ParseKind::Syntax => write!(f, "{} at {}", self.kind.text(), self.place),
            ParseKind::TooMany => f.write_str(self.kind.text()),
        }
    }
}

impl Error for ParseFault {}
