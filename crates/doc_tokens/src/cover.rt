//! What a character is to the words of its text, by the marks around it.
//!
//! Of the marks that begin before a character's end it is enough to know how far they reach, for each kind the greatest
//! place: a mark covers the character where it reaches beyond its first byte.
ghost use Rattle.std.specs.Prelude.{◌≡◌, List, [], ◌∷◌, ◌++◌};
ghost use Rattle.charset_map.specs.Spans.{folded};
ghost use Rattle.mark_scan.specs.declared.mark.Mark.{Mark};
ghost use Rattle.doc_tokens.specs.TextSigns.{run_sign};
ghost use Rattle.doc_tokens.specs.steps.TokenReader.{IsCover, sign_by, tag_sign};

use crate::sign::TextSign;
use charset_map::Charset;
use mark_scan::{Mark, MarkKind};

/// How far the marks that were passed reach: for each kind the greatest place after one.
#[derive(Clone, Copy)]
pub(crate) struct Cover {
    pub text: u32,
    pub removed: u32,
    pub sentence: u32,
}

impl Cover {
    /// No mark was passed.
    pub fn none() -> Cover
        ensures { IsCover result [] }
    {
        Cover {
            text: 0,
            removed: 0,
            sentence: 0,
        }
    }

    /// One more mark was passed.
    pub fn then(self, mark: Mark) -> Cover
        ensures { (passed : List Mark) → IsCover self passed → IsCover result (passed ++ mark ∷ []) }
    {
        match mark.kind {
            MarkKind::Text => Cover {
                text: self.text.max(mark.to),
                ..self
            },
            MarkKind::Inline => Cover {
                removed: self.removed.max(mark.to),
                ..self
            },
            MarkKind::Sentence => Cover {
                sentence: self.sentence.max(mark.to),
                ..self
            },
            MarkKind::Paragraph | MarkKind::Open(_) | MarkKind::Close(_) => self,
        }
    }

    /// What a character at a place is.
    pub fn sign(self, charset: &Charset, place: u32, c: char) -> Option<TextSign>
        ensures { result ≡ sign_by (folded charset.now) self place c }
    {
        if place < self.text {
            Some(in_run(charset.fold(c), place < self.sentence))
        } else if place < self.removed {
            None
        } else {
            Some(TextSign::Separator)
        }
    }
}

/// What a character of a text run is.
pub(crate) fn in_run(folded: Option<char>, ends: bool) -> TextSign
    ensures { result ≡ run_sign folded ends }
{
    match folded {
        Some(letter) => TextSign::Letter(letter),
        None => {
            if ends {
                TextSign::Sentence
            } else {
                TextSign::Separator
            }
        }
    }
}

/// What the tag of a mark is.
pub(crate) fn tag_sign_of(kind: MarkKind) -> Option<TextSign>
    ensures { result ≡ tag_sign kind }
{
    match kind {
        MarkKind::Text | MarkKind::Inline | MarkKind::Sentence => None,
        MarkKind::Paragraph => Some(TextSign::Paragraph),
        MarkKind::Open(zone) => Some(TextSign::Open(zone)),
        MarkKind::Close(zone) => Some(TextSign::Close(zone)),
    }
}
