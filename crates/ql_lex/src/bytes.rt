//! The classes of bytes by which the readers know what may begin or go on at an offset: blanks, letters, digits, quotes.
//! Each is a test of one byte; `byte_at` gives 0 past the end, which is in no class, so no reader looks at the length first.

ghost use Rattle.std.specs.Prelude.{◌≡◌, ◌≢◌, ◌<◌, ◌≤◌, ℕ, IfSome, IfNone, length, slice_index};
ghost use Rattle.std.specs.Char.{is_ascii_digit as is_digit_byte};
ghost use Rattle.std.specs.List.{list_all, prefix_len};
ghost use Rattle.ql_lex.specs.Shapes.{is_blank as is_blank_byte, is_letter as is_letter_byte, is_name_byte, is_variable_byte, is_quote as is_quote_byte, is_word};

/// The byte at an offset, or 0 past the end.
pub(crate) fn byte_at(text: &[u8], place: usize) -> u8
    ensures { result ≡ slice_index text.now place }
{
    if place < text.len() { text[place] } else { 0 }
}

/// A space, a tab, a carriage return or a line feed.
pub(crate) fn is_blank(byte: u8) -> bool
    ensures { result ≡ is_blank_byte byte }
{
    byte == b' ' || byte == b'\t' || byte == b'\r' || byte == b'\n'
}

/// A letter or `_`.
pub(crate) fn is_letter(byte: u8) -> bool
    ensures { result ≡ is_letter_byte byte }
{
    byte.is_ascii_alphabetic() || byte == b'_'
}

pub(crate) fn is_quote(byte: u8) -> bool
    ensures { result ≡ is_quote_byte byte }
{
    byte == b'\'' || byte == b'"'
}

/// A byte of a name.
fn in_name(byte: u8) -> bool
    ensures { result ≡ is_name_byte byte }
{
    byte.is_ascii_alphanumeric() || byte == b'_'
}

/// A byte of the name of a system variable.
fn in_variable(byte: u8) -> bool
    ensures { result ≡ is_variable_byte byte }
{
    in_name(byte) || byte == b'.'
}

/// The length of the longest prefix whose bytes are those of a name.
pub(crate) fn name_len(bytes: &[u8]) -> usize
    ensures { result ≡ prefix_len is_name_byte bytes.now }
{
    bytes.iter().take_while(|b| in_name(**b)).count()
}

/// The length of the longest prefix whose bytes are those of a system variable's name.
pub(crate) fn variable_len(bytes: &[u8]) -> usize
    ensures { result ≡ prefix_len is_variable_byte bytes.now }
{
    bytes.iter().take_while(|b| in_variable(**b)).count()
}

/// The length of the longest prefix of digits.
pub(crate) fn digits_len(bytes: &[u8]) -> usize
    ensures len { result ≡ prefix_len is_digit_byte bytes.now }
    ensures within { result ≤ length bytes.now }
{
    bytes.iter().take_while(|b| b.is_ascii_digit()).count()
}

/// Whether each byte is one of a name.
fn all_in_name(bytes: &[u8]) -> bool
    ensures { result ≡ list_all is_name_byte bytes.now }
{
    bytes.iter().all(|b| in_name(*b))
}

/// Whether the bytes are a name.
pub(crate) fn is_name(bytes: &[u8]) -> bool
    ensures { result ≡ is_word is_name_byte bytes.now }
{
    is_letter(byte_at(bytes, 0)) && all_in_name(bytes)
}

/// The offset of the next backquote, looked for from an offset on.
pub(crate) fn next_backquote(text: &[u8], from: usize) -> Option<usize>
    ensures found { IfSome result (λ last. (from ≤ last) × (last < length text.now) × (slice_index text.now last ≡ 96)) }
    ensures next { IfSome result (λ last. (k : ℕ) → from ≤ k → k < last → slice_index text.now k ≢ 96) }
    ensures none { IfNone result ((k : ℕ) → from ≤ k → slice_index text.now k ≢ 96) }
{
    for place in from..text.len() {
        if text[place] == b'`' {
            return Some(place);
        }
    }
    None
}
