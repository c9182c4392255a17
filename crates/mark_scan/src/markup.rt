//! Where markup begins and ends.
//!
//! A comment is `<!--` up to the next `-->`, which may not share its dashes. A tag is `<` or `</`, a letter and further
//! bytes of a name, and all up to the next `>`. What begins neither is plain text. Once no `>` or no `-->` follows any
//! more, none is searched for again, so that a text of a million `<` takes a time linear in its length.
ghost use Rattle.std.specs.Prelude.{◌≡◌, ◌≢◌, ◌<◌, ◌≤◌, ◌+◌, ℕ, IsTrue, IfSome, IfNone, MatchOption, length, slice_index, drop, true, false};
ghost use Rattle.mark_scan.specs.Markup.{is_name_byte, EndsComment, BeginsComment, BeginsTag, BeginsMarkup};
ghost use Rattle.mark_scan.specs.steps.Scanning.{Rules, Begins};

/// What may still follow in a text. A text in which no `>` or `-->` follows isn't searched for one again, so that reading
/// it takes a time linear in its length.
#[derive(Clone, Copy)]
pub(crate) struct Ends {
    pub tag: bool,
    pub comment: bool,
}

/// The places of a tag: its name begins at `from` and ends before `to`; its `>` is at `last`.
#[derive(Clone, Copy)]
pub(crate) struct TagPlaces {
    pub from: usize,
    pub to: usize,
    pub last: usize,
}

/// What begins a text.
#[derive(Clone, Copy)]
pub(crate) enum Found {
    /// A comment, whose `-->` stands at the place.
    Comment(usize),
    Tag(TagPlaces),
}

/// The byte at a place, or 0 past the end.
fn byte_at(bytes: &[u8], place: usize) -> u8
    ensures { result ≡ slice_index bytes.now place }
{
    if place < bytes.len() { bytes[place] } else { 0 }
}

fn name_byte(byte: u8) -> bool
    ensures { result ≡ is_name_byte byte }
{
    byte.is_ascii_alphanumeric() || byte == b'_' || byte == b'-' || byte == b':'
}

/// Where the bytes of a name end that begin at a place.
fn name_end(bytes: &[u8], from: usize) -> usize
    requires { from ≤ length bytes.now }
    ensures above { from ≤ result }
    ensures within { result ≤ length bytes.now }
    ensures name { (k : ℕ) → from ≤ k → k < result → IsTrue (is_name_byte (slice_index bytes.now k)) }
    ensures whole { is_name_byte (slice_index bytes.now result) ≡ false }
{
    let mut to = from;
    while to < bytes.len() && name_byte(bytes[to]) {
        to += 1;
    }
    to
}

/// The place of the next `>` from a place on.
fn tag_end(bytes: &[u8], from: usize) -> Option<usize>
    ensures found { IfSome result (λ last. (from ≤ last) × (last < length bytes.now) × (slice_index bytes.now last ≡ 62)) }
    ensures next { IfSome result (λ last. (k : ℕ) → from ≤ k → k < last → slice_index bytes.now k ≢ 62) }
    ensures none { IfNone result ((k : ℕ) → from ≤ k → slice_index bytes.now k ≢ 62) }
{
    for place in from..bytes.len() {
        if bytes[place] == b'>' {
            return Some(place);
        }
    }
    None
}

/// Whether `-->` stands at a place.
fn ends_comment(bytes: &[u8], place: usize) -> bool
    requires { place < length bytes.now }
    ensures yes { result ≡ true → EndsComment bytes.now place }
    ensures no { result ≡ false → EndsComment bytes.now place → ⊥ }
{
    bytes[place] == b'-'
        && byte_at(bytes, place + 1) == b'-'
        && place + 2 < bytes.len()
        && bytes[place + 2] == b'>'
}

/// The place of the next `-->` from a place on.
fn comment_end(bytes: &[u8], from: usize) -> Option<usize>
    ensures found { IfSome result (λ end. (from ≤ end) × EndsComment bytes.now end) }
    ensures next { IfSome result (λ end. (k : ℕ) → from ≤ k → k < end → EndsComment bytes.now k → ⊥) }
    ensures none { IfNone result ((k : ℕ) → from ≤ k → EndsComment bytes.now k → ⊥) }
{
    for place in from..bytes.len() {
        if ends_comment(bytes, place) {
            return Some(place);
        }
    }
    None
}

/// The tag that begins a text.
fn tag_at(bytes: &[u8], ends: &mut Ends) -> Option<TagPlaces>
    requires { Rules ends.old bytes.now }
    ensures found { IfSome result (λ places. BeginsTag bytes.now places.from places.to places.last) }
    ensures none { IfNone result ((from to last : ℕ) → BeginsTag bytes.now from to last → ⊥) }
    ensures ends { Rules ends.new bytes.now }
{
    if !ends.tag || byte_at(bytes, 0) != b'<' {
        return None;
    }
    let from = if byte_at(bytes, 1) == b'/' { 2 } else { 1 };
    if !byte_at(bytes, from).is_ascii_alphabetic() {
        return None;
    }
    let to = name_end(bytes, from);
    match tag_end(bytes, to) {
        Some(last) => Some(TagPlaces { from, to, last }),
        None => {
            ends.tag = false;
            None
        }
    }
}

/// The comment that begins a text: the place of its `-->`.
fn comment_at(bytes: &[u8], ends: &mut Ends) -> Option<usize>
    requires { Rules ends.old bytes.now }
    ensures found { IfSome result (λ end. BeginsComment bytes.now end) }
    ensures none { IfNone result ((end : ℕ) → BeginsComment bytes.now end → ⊥) }
    ensures ends { Rules ends.new bytes.now }
{
    if !ends.comment || byte_at(bytes, 0) != b'<' || byte_at(bytes, 1) != b'!' {
        return None;
    }
    if byte_at(bytes, 2) != b'-' || byte_at(bytes, 3) != b'-' {
        return None;
    }
    match comment_end(bytes, 4) {
        Some(end) => Some(end),
        None => {
            ends.comment = false;
            None
        }
    }
}

/// The markup that begins a text.
#[tactic(auto, using(crate::proofs::Fronts::no_markup))]
fn markup_at(bytes: &[u8], ends: &mut Ends) -> Option<Found>
    requires { Rules ends.old bytes.now }
    ensures found { IfSome result (λ found. Begins bytes.now found) }
    ensures none { IfNone result (BeginsMarkup bytes.now → ⊥) }
    ensures ends { Rules ends.new bytes.now }
{
    match comment_at(bytes, ends) {
        Some(end) => Some(Found::Comment(end)),
        None => match tag_at(bytes, ends) {
            Some(places) => Some(Found::Tag(places)),
            None => None,
        },
    }
}

/// The markup that begins at a place of a text.
#[tactic(auto, using(crate::proofs::Fronts::markup_opens))]
fn markup_from(bytes: &[u8], place: usize, ends: &mut Ends) -> Option<Found>
    requires place { place < length bytes.now }
    requires ends { Rules ends.old (drop place bytes.now) }
    ensures found { IfSome result (λ found. Begins (drop place bytes.now) found) }
    ensures none { IfNone result (BeginsMarkup (drop place bytes.now) → ⊥) }
    ensures ends { Rules ends.new (drop place bytes.now) }
{
    if bytes[place] != b'<' {
        return None;
    }
    let (_, beyond) = bytes.split_at(place);
    markup_at(beyond, ends)
}

/// The place of the next markup of a text, and what it is.
pub(crate) fn next_markup(bytes: &[u8], ends: &mut Ends) -> Option<(usize, Found)>
    requires { Rules ends.old bytes.now }
    ensures found { IfSome result (λ next. (next.0 < length bytes.now) × Begins (drop next.0 bytes.now) next.1) }
    ensures first { IfSome result (λ next. (k : ℕ) → k < next.0 → BeginsMarkup (drop k bytes.now) → ⊥) }
    ensures none { IfNone result ((k : ℕ) → k < length bytes.now → BeginsMarkup (drop k bytes.now) → ⊥) }
    ensures ends { IfSome result (λ next. Rules ends.new (drop next.0 bytes.now)) }
{
    for place in 0..bytes.len() {
        match markup_from(bytes, place, ends) {
            Some(found) => return Some((place, found)),
            None => {}
        }
    }
    None
}
