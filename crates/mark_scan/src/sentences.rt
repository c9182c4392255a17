//! The ends of sentences in a text run, by the rule of `index_sp` in Sphinx's manual.
//!
//! `?` and `!` end a sentence. A dot doesn't where the sentence goes on: before a letter or a comma (`S.T.A.L.K.E.R.`),
//! before a blank and a small letter (`e.g. that`), and between an initial and a blank (`John D. Doe`). So a dot asks
//! what stands before it, which is kept in `Before`, and the next two characters of its run. These may be in later pieces,
//! which are cut for the dot, and once more when their turn comes. At most two dots look across the tags between two
//! characters, so that a text takes a time linear in its length. Characters are folded beside dots alone.
ghost use Rattle.std.specs.Prelude.{Option, ◌≡◌, ◌<◌, ◌≤◌, ◌+◌, ◌-◌, ◌^◌, ◌++◌, ℕ, List, [], ◌∷◌, length, reverse, MatchOption, IfSome, IfOk, OnOk, true, false};
ghost use Rattle.std.specs.Char.{encode_utf8, IsScalar};
ghost use Rattle.std.specs.Str.{IsUtf8, chars};
ghost use Rattle.charset_map.specs.Spans.{folded};
ghost use Rattle.mark_scan.specs.Marks.{run_of};
ghost use Rattle.mark_scan.specs.steps.Scanning.{IsBefore, part_of, next_of, then_of, run_from, PartsOf, IsReadable, IsNext, GoesOn, is_initial};
ghost use Rattle.mark_scan.specs.Markup.{TextPart, part_bytes};
ghost use Rattle.mark_scan.specs.Sentences.{is_blank, is_capital, is_small, begins_small, dot_goes_on, ends_sentence, sentence_mark, sentence_marks};

use crate::cutting::Rest;
use crate::mark::{Mark, MarkKind, MarkRules};
use crate::piece::Piece;
use crate::tags::removed;
use charset_map::Charset;
use srch_base::NoMemory;

/// What the end of a sentence asks of the characters before a place of a text run.
#[derive(Clone, Copy)]
pub(crate) struct Before {
    /// Whether a blank stands before the place, or the run begins there.
    pub gap: bool,
    /// The character before the place, where it stands by itself so far: after a blank or the run's start. It is an
    /// initial where it is a capital letter, which is asked at a dot alone.
    pub single: Option<char>,
}

fn blank(c: char) -> bool
    ensures { result ≡ is_blank c }
{
    c == ' ' || c == '\t' || c == '\r' || c == '\n'
}

fn capital(charset: &Charset, c: char) -> bool
    ensures { result ≡ is_capital (folded charset.now) c }
{
    match charset.fold(c) {
        Some(value) => value != c,
        None => false,
    }
}

fn small(charset: &Charset, c: char) -> bool
    ensures { result ≡ is_small (folded charset.now) c }
{
    match charset.fold(c) {
        Some(value) => value == c && !(c.is_ascii_digit() || c == '_'),
        None => false,
    }
}

impl Before {
    /// At the start of a run.
    pub fn start() -> Before
        ensures { (fold : ℕ → Option ℕ) → IsBefore fold result [] }
    {
        Before {
            gap: true,
            single: None,
        }
    }

    /// After one more character.
    pub fn then(self, c: char) -> Before
        ensures { (fold : ℕ → Option ℕ) (before : List ℕ) → IsBefore fold self before → IsBefore fold result (c ∷ before) }
    {
        if self.gap {
            return Before {
                gap: blank(c),
                single: Some(c),
            };
        }
        Before {
            gap: blank(c),
            single: None,
        }
    }

    /// Whether an initial stands before the place.
    fn after_initial(self, charset: &Charset) -> bool
        ensures { result ≡ is_initial (folded charset.now) self.single }
    {
        match self.single {
            Some(c) => capital(charset, c),
            None => false,
        }
    }
}

/// Whether the next character is a small letter.
fn begins_small(charset: &Charset, next: Option<char>) -> bool
    ensures { (after : List ℕ) → next ≡ next_of after → result ≡ begins_small (folded charset.now) after }
{
    match next {
        Some(c) => small(charset, c),
        None => false,
    }
}

/// Whether the sentence goes on after a dot, by the next two characters of the run.
fn goes_on(charset: &Charset, initial: bool, next: Option<char>, then: Option<char>) -> bool
    ensures { (after : List ℕ) → next ≡ next_of after → then ≡ then_of after → result ≡ dot_goes_on (folded charset.now) initial after }
{
    match next {
        None => false,
        Some(next) => {
            let known = charset.fold(next).is_some();
            known || next == ',' || (blank(next) && (begins_small(charset, then) || initial))
        }
    }
}

/// The first character of a text, and the text after it.
fn first_char(text: &str) -> Option<(char, &str)>
    ensures next { MatchOption result (text.now ≡ []) (λ first. text.now ≡ encode_utf8 first.0 ++ first.1.now) }
    ensures utf8 { MatchOption result (IsUtf8 text.now) (λ first. IsUtf8 first.1.now) }
{
    let mut chars = text.chars();
    match chars.next() {
        Some(c) => Some((c, chars.as_str())),
        None => None,
    }
}

/// What a piece gives to the run that goes on before it.
#[derive(Clone, Copy)]
enum Onward<'a> {
    /// A character, and the text of the piece after it.
    Char(char, &'a str),
    /// Nothing: the run goes on after the piece.
    Nothing,
    /// The run ends.
    End,
}

/// What a piece gives to the run that goes on before it.
fn start_of<'a>(rules: &MarkRules, piece: Piece<'a>) -> Onward<'a>
    requires { IsUtf8 (part_bytes (part_of piece)) }
    ensures { GoesOn rules.now.zones (part_of piece.entry) result }
{
    match piece {
        Piece::Plain(text) => match first_char(text) {
            Some((c, beyond)) => Onward::Char(c, beyond),
            None => Onward::Nothing,
        },
        Piece::Comment(_) => Onward::End,
        Piece::Tag(tag) => {
            if removed(rules, tag.name) {
                Onward::Nothing
            } else {
                Onward::End
            }
        }
    }
}

/// The next character of a run, and the rest of the run after it: the text of the character's piece, and the rest of the
/// whole text after that piece.
fn next_char<'a>(
    rules: &MarkRules,
    text: &'a str,
    after: Rest<'a>,
) -> Option<(char, &'a str, Rest<'a>)>
    requires { IsReadable after }
    ensures next { (parts : List TextPart) → PartsOf after.entry parts
        → let run = run_from rules.now.zones text.now parts in
        MatchOption result (run ≡ []) (λ next. IsNext rules.now.zones run next.0 next.1.now next.2) }
    ensures utf8 { IfSome result (λ next. IsUtf8 next.1.now) }
    ensures readable { IfSome result (λ next. IsReadable next.2) }
{
    match first_char(text) {
        Some((c, beyond)) => return Some((c, beyond, after)),
        None => {}
    }
    let mut rest = after;
    'pieces: loop {
        match rest.cut() {
            None => return None,
            Some((piece, beyond)) => match start_of(rules, piece) {
                Onward::Char(c, text) => return Some((c, text, beyond)),
                Onward::Nothing => rest = beyond,
                Onward::End => return None,
            },
        }
    }
}

/// The next two characters of a run.
fn two_next(rules: &MarkRules, text: &str, after: Rest<'_>) -> (Option<char>, Option<char>)
    requires { IsReadable after }
    ensures next { (parts : List TextPart) → PartsOf after.entry parts → result.0 ≡ next_of (chars (run_from rules.now.zones text.now parts)) }
    ensures then { (parts : List TextPart) → PartsOf after.entry parts → result.1 ≡ then_of (chars (run_from rules.now.zones text.now parts)) }
{
    match next_char(rules, text, after) {
        None => (None, None),
        Some((next, beyond, rest)) => match next_char(rules, beyond, rest) {
            None => (Some(next), None),
            Some((then, _, _)) => (Some(next), Some(then)),
        },
    }
}

/// Whether a character ends a sentence, before the rest of its run.
#[tactic(auto, unfolding(crate::specs::Sentences::ends_sentence))]
fn ends(
    charset: &Charset,
    rules: &MarkRules,
    before: Before,
    c: char,
    text: &str,
    after: Rest<'_>,
) -> bool
    requires { IsReadable after }
    ensures { (parts : List TextPart) → PartsOf after.entry parts
        → (seen : List ℕ) → IsBefore (folded charset.now) before seen
        → result ≡ ends_sentence (folded charset.now) seen c (chars (run_from rules.now.zones text.now parts)) }
{
    if c == '?' || c == '!' {
        return true;
    }
    if c != '.' {
        return false;
    }
    let (next, then) = two_next(rules, text, after);
    !goes_on(charset, before.after_initial(charset), next, then)
}

/// Appends the marks of the ends of sentences in a piece of a run, the place of which is given with the rest of the text
/// after it.
/// The answer is what stands before the end of the piece.
pub(crate) fn push_sentences(
    list: &mut Vec<Mark>,
    charset: &Charset,
    rules: &MarkRules,
    start: Before,
    from: u32,
    text: &str,
    after: Rest<'_>,
) -> Result<Before, NoMemory>
    requires size { from + length text.now < 2 ^ 32 }
    requires after { IsReadable after }
    ensures { IfOk result (λ state. (parts : List TextPart) → PartsOf after.entry parts
        → (seen : List ℕ) → IsBefore (folded charset.now) start seen
        → (list.new.items ≡ list.old.items ++ sentence_marks (folded charset.now) from seen (chars text.now) (chars (run_of rules.now.zones parts)))
        × IsBefore (folded charset.now) state (reverse (chars text.now) ++ seen)) }
{
    let mut before = start;
    let mut place = from;
    let mut rest = text;
    'chars: loop {
        match first_char(rest) {
            None => return Ok(before),
            Some((c, beyond)) => {
                let width = c.len_utf8() as u32;
                push_end(list, ends(charset, rules, before, c, beyond, after), place)?;
                before = before.then(c);
                place += width;
                rest = beyond;
            }
        }
    }
}

/// Appends the mark of the end of a sentence, where there is one.
fn push_end(list: &mut Vec<Mark>, ends: bool, place: u32) -> Result<(), NoMemory>
    requires { place < 2 ^ 32 - 1 }
    ensures { OnOk result (list.new.items ≡ list.old.items ++ sentence_mark ends place) }
{
    if ends {
        list.push(Mark {
            kind: MarkKind::Sentence,
            from: place,
            to: place + 1,
        })?;
    }
    Ok(())
}
