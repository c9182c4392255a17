//! The bytes of a text. Before its first byte and past its last one a text has a blank, so that no rule needs a word on the
//! text's ends.
ghost use Rattle.std.specs.Prelude.{◌≡◌, ◌≢◌, ◌<◌, ◌≤◌, ◌⊎◌, ◌+◌, ◌-◌, ◌^◌, ℕ, true, length, slice_index};
ghost use Rattle.query_pieces.specs.QueryBytes.{byte, byte_before, is_blank, is_bound, opens_not, begins_field, is_field_byte, begins_zone, is_zone_byte, spells, digits_end, run_end};
ghost use Rattle.std.specs.Char.{is_ascii_digit as is_digit};
ghost use Rattle.std.specs.List.{prefix_len};
ghost use Rattle.query_pieces.specs.Operators.{is_listed, is_inside, are_names, quote_end};
ghost use Rattle.query_pieces.specs.steps.Names.{begins_of, further_of};

/// The byte at an offset.
#[tactic(auto, unfolding(crate::specs::QueryBytes::byte))]
pub(crate) fn byte_at(text: &[u8], place: usize) -> u8
    ensures is { result ≡ byte text.now place }
    ensures blank { length text.now ≤ place → result ≡ 32 }
{
    if place < text.len() {
        text[place]
    } else {
        b' '
    }
}

/// The byte before an offset.
#[tactic(auto, unfolding(crate::specs::QueryBytes::byte_before))]
pub(crate) fn before(text: &[u8], place: usize) -> u8
    ensures { result ≡ byte_before text.now place }
{
    if place == 0 {
        b' '
    } else {
        byte_at(text, place - 1)
    }
}

/// A space, a tab, a carriage return or a line feed.
pub(crate) fn blank(b: u8) -> bool
    ensures { result ≡ is_blank b }
{
    b == b' ' || b == b'\t' || b == b'\r' || b == b'\n'
}

/// What bounds an operator that is written in letters.
pub(crate) fn bounds(b: u8) -> bool
    ensures { result ≡ is_bound b }
{
    blank(b) || b == b'(' || b == b')' || b == b'"'
}

/// What may come directly before a NOT.
pub(crate) fn may_open_not(b: u8) -> bool
    ensures { result ≡ opens_not b }
{
    blank(b) || b == b'(' || b == b'|' || b == b'"'
}

/// A kind of names.
#[derive(Clone, Copy, PartialEq, Eq)]
pub(crate) enum NameKind {
    /// The names of fields.
    Field,
    /// The names of tags.
    Zone,
}

impl NameKind {
    ghost use Rattle.query_pieces.specs.steps.Names.{begins_of, further_of};

    /// Whether a name begins with the byte.
    pub fn begins(self, b: u8) -> bool
        ensures { result ≡ begins_of self b }
    {
        match self {
            NameKind::Field => b.is_ascii_alphabetic() || b == b'_',
            NameKind::Zone => b.is_ascii_alphabetic(),
        }
    }

    /// Whether a name goes on with the byte.
    pub fn goes_on(self, b: u8) -> bool
        ensures { result ≡ further_of self b }
    {
        match self {
            NameKind::Field => b.is_ascii_alphanumeric() || b == b'_',
            NameKind::Zone => b.is_ascii_alphanumeric() || b == b'_' || b == b'-' || b == b':',
        }
    }
}

/// A byte of the name of a field.
pub(crate) fn in_field(b: u8) -> bool
    ensures { result ≡ is_field_byte b }
{
    b.is_ascii_alphanumeric() || b == b'_'
}

/// Whether the bytes of a word are at an offset.
pub(crate) fn has(text: &[u8], place: usize, word: &[u8]) -> bool
    requires size { place + length word.now < 2 ^ 64 }
    requires plain { (k : ℕ) → k < length word.now → slice_index word.now k ≢ 32 }
    ensures is { result ≡ spells text.now place word.now }
    ensures within { result ≡ true → (length word.now ≡ 0) ⊎ (place + length word.now ≤ length text.now) }
{
    for k in 0..word.len() {
        if byte_at(text, place + k) != word[k] {
            return false;
        }
    }
    true
}

/// The length of the longest prefix of digits.
fn digits_len(bytes: &[u8]) -> usize
    ensures len { result ≡ prefix_len is_digit bytes.now }
    ensures within { result ≤ length bytes.now }
{
    bytes.iter().take_while(|b| b.is_ascii_digit()).count()
}

/// The length of the longest prefix whose bytes are those of a name.
fn name_len(kind: NameKind, bytes: &[u8]) -> usize
    ensures len { result ≡ prefix_len (further_of kind) bytes.now }
    ensures within { result ≤ length bytes.now }
{
    bytes.iter().take_while(|b| kind.goes_on(**b)).count()
}

/// The length of the longest prefix whose bytes are those of a list of names.
fn list_len(kind: NameKind, bytes: &[u8]) -> usize
    ensures len { result ≡ prefix_len (is_listed (further_of kind)) bytes.now }
    ensures within { result ≤ length bytes.now }
{
    bytes
        .iter()
        .take_while(|b| kind.goes_on(**b) || **b == b',')
        .count()
}

/// How many bytes stand before the first quote.
fn quoted_len(bytes: &[u8]) -> usize
    ensures len { result ≡ prefix_len is_inside bytes.now }
    ensures within { result ≤ length bytes.now }
{
    bytes.iter().take_while(|b| **b != b'"').count()
}

/// The offset after the digits at an offset.
#[tactic(auto, unfolding(crate::specs::QueryBytes::run_end))]
pub(crate) fn after_digits(text: &[u8], place: usize) -> usize
    requires { place < 2 ^ 33 }
    ensures is { result ≡ digits_end text.now place }
    ensures ahead { place ≤ result }
    ensures within { place ≤ length text.now → result ≤ length text.now }
    ensures beyond { length text.now ≤ place → result ≡ place }
    ensures last { place < result → byte text.now (result - 1) < 128 }
{
    if place < text.len() {
        place + digits_len(&text[place..])
    } else {
        place
    }
}

/// The offset after the bytes of a name at an offset.
#[tactic(auto, unfolding(crate::specs::QueryBytes::run_end))]
pub(crate) fn after_name(kind: NameKind, text: &[u8], place: usize) -> usize
    requires { place < 2 ^ 33 }
    ensures is { result ≡ run_end (further_of kind) text.now place }
    ensures ahead { place ≤ result }
    ensures within { place ≤ length text.now → result ≤ length text.now }
    ensures beyond { length text.now ≤ place → result ≡ place }
    ensures last { place < result → byte text.now (result - 1) < 128 }
{
    if place < text.len() {
        place + name_len(kind, &text[place..])
    } else {
        place
    }
}

/// The offset after the bytes of a list of names at an offset.
#[tactic(auto, unfolding(crate::specs::QueryBytes::run_end))]
pub(crate) fn after_list(kind: NameKind, text: &[u8], place: usize) -> usize
    requires { place < 2 ^ 33 }
    ensures is { result ≡ run_end (is_listed (further_of kind)) text.now place }
    ensures ahead { place ≤ result }
    ensures within { place ≤ length text.now → result ≤ length text.now }
    ensures beyond { length text.now ≤ place → result ≡ place }
    ensures last { place < result → byte text.now (result - 1) < 128 }
{
    if place < text.len() {
        place + list_len(kind, &text[place..])
    } else {
        place
    }
}

/// The next quote from an offset on, or the text's end.
#[tactic(auto, unfolding(crate::specs::QueryBytes::run_end))]
pub(crate) fn next_quote(text: &[u8], place: usize) -> usize
    requires { place < 2 ^ 33 }
    ensures is { result ≡ quote_end text.now place }
    ensures ahead { place ≤ result }
    ensures within { place ≤ length text.now → result ≤ length text.now }
    ensures quote { result < length text.now → byte text.now result ≡ 34 }
{
    if place < text.len() {
        place + quoted_len(&text[place..])
    } else {
        place
    }
}

/// Whether the bytes are names with one comma between two of them.
pub(crate) fn names_only(kind: NameKind, bytes: &[u8]) -> bool
    ensures { result ≡ are_names (begins_of kind) true bytes.now }
{
    let mut fresh = true;
    for k in 0..bytes.len() {
        if fresh {
            if !kind.begins(bytes[k]) {
                return false;
            }
            fresh = false;
        } else {
            fresh = bytes[k] == b',';
        }
    }
    !fresh
}
