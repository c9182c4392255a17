//! Texts between `'` or `"`. A `\` takes the byte after it along, so a quote after one doesn't end the text. The bytes that stand
//! for themselves are passed many at a time. The bytes between the quotes have to be UTF-8, which is looked at once the end is
//! known.

ghost use Rattle.std.specs.Prelude.{◌≡◌, ◌<◌, ◌≤◌, ◌+◌, ◌^◌, ℕ, IsTrue, IfSome, IfNone, length, slice_index, slice_range};
ghost use Rattle.ql_lex.specs.steps.Reading.{Reads};
ghost use Rattle.ql_lex.specs.Shapes.{is_quote as is_quote_byte, is_inner};

use crate::fault::LexKind;
use crate::part::Part;
use crate::token::TokenKind;
use memchr::memchr2;
use simdutf8::compat::from_utf8;

/// The offset of the next quote that isn't escaped, looked for from an offset on.
fn text_end(text: &[u8], from: usize, quote: u8) -> Option<usize>
    requires within { from ≤ length text.now }
    requires quote { IsTrue (is_quote_byte quote) }
    ensures place { IfSome result (λ last. (from ≤ last) × (last < length text.now) × (slice_index text.now last ≡ quote)) }
    ensures inner { IfSome result (λ last. IsTrue (is_inner quote (slice_range text.now from last))) }
    ensures none { IfNone result ((last : ℕ) → from ≤ last → slice_index text.now last ≡ quote → IsTrue (is_inner quote (slice_range text.now from last)) → ⊥) }
{
    let mut at = from;
    'pieces: while at < text.len() {
        match memchr2(quote, b'\\', &text[at..]) {
            None => return None,
            Some(plain) => {
                let place = at + plain;
                if text[place] == quote {
                    return Some(place);
                }
                at = place + 2;
            }
        }
    }
    None
}

/// Reads the text whose first quote is at an offset.
pub(crate) fn text_at(text: &[u8], at: usize) -> Result<Part, LexKind>
    requires size { length text.now < 2 ^ 32 }
    requires within { at < length text.now }
    requires quote { IsTrue (is_quote_byte (slice_index text.now at)) }
    ensures { Reads text.now at result }
{
    let Some(last) = text_end(text, at + 1, text[at]) else {
        return Err(LexKind::UnclosedQuote);
    };
    match from_utf8(&text[at + 1..last]) {
        Ok(_) => Ok(Part::Token(TokenKind::Text, last + 1)),
        Err(_) => Err(LexKind::NotUtf8),
    }
}
