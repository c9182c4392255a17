//! Comments: `/*`, anything, and the first `*/` after it. They don't nest, and `/*/` is not closed by its own opening.
//! One pass over the comment; one that isn't closed is a fault at its opening.

ghost use Rattle.std.specs.Prelude.{◌≡◌, ◌<◌, ◌≤◌, ◌+◌, ◌^◌, ℕ, true, false, IfSome, IfNone, length, slice_index};
ghost use Rattle.ql_lex.specs.steps.Reading.{Reads};
ghost use Rattle.ql_lex.specs.Tokens.{ClosesComment};

use crate::bytes::byte_at;
use crate::fault::LexKind;
use crate::part::Part;

/// Whether `*/` is at an offset.
fn closes_comment(text: &[u8], place: usize) -> bool
    requires { place < length text.now }
    ensures yes { result ≡ true → ClosesComment text.now place }
    ensures no { result ≡ false → ClosesComment text.now place → ⊥ }
{
    text[place] == b'*' && byte_at(text, place + 1) == b'/'
}

/// The offset of the next `*/`, looked for from an offset on.
fn comment_end(text: &[u8], from: usize) -> Option<usize>
    ensures found { IfSome result (λ last. (from ≤ last) × ClosesComment text.now last) }
    ensures next { IfSome result (λ last. (k : ℕ) → from ≤ k → k < last → ClosesComment text.now k → ⊥) }
    ensures none { IfNone result ((k : ℕ) → from ≤ k → ClosesComment text.now k → ⊥) }
{
    for place in from..text.len() {
        if closes_comment(text, place) {
            return Some(place);
        }
    }
    None
}

/// Reads the comment whose `/` is at an offset.
pub(crate) fn comment_at(text: &[u8], at: usize) -> Result<Part, LexKind>
    requires size { length text.now < 2 ^ 32 }
    requires within { at < length text.now }
    requires slash { slice_index text.now at ≡ 47 }
    ensures { Reads text.now at result }
{
    if byte_at(text, at + 1) != b'*' {
        return Err(LexKind::BadCharacter);
    }
    match comment_end(text, at + 2) {
        Some(last) => Ok(Part::Comment(last + 2)),
        None => Err(LexKind::UnclosedComment),
    }
}
