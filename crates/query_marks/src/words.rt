//! The words that a slice of a text spells: a word by itself, or what stands between quotes.
ghost use Rattle.std.specs.Prelude.{◌≡◌, ◌≤◌, ◌+◌, ◌-◌, IfOk, length, drop};
ghost use Rattle.std.specs.List.{prefix_len};
ghost use Rattle.std.specs.Option.{is_some};
ghost use Rattle.std.specs.Str.{chars};
ghost use Rattle.charset_map.specs.Spans.{folded};
ghost use Rattle.query_marks.specs.QueryWords.{plain_letter as plain_letter_of, letters_in, runs_in, word_of};
ghost use Rattle.query_marks.specs.steps.Runs.{one_or_none};

use charset_map::Charset;
use doc_types::MAX_WORD_CHARS;
use srch_base::{NoMemory, Word};
use std::alloc::Global;

/// What a character is folded to, where `^` and `$` always separate.
fn plain_letter(charset: &Charset, c: char) -> Option<char>
    ensures { result ≡ plain_letter_of (folded charset.now) c }
{
    if c == '^' || c == '$' {
        None
    } else {
        charset.fold(c)
    }
}

/// The characters of a slice.
pub(crate) fn characters(alloc: Global, slice: &str) -> Result<Vec<char>, NoMemory>
    ensures { IfOk result (λ list. list.items ≡ chars slice.now) }
{
    let list = slice.chars().collect(alloc)?;
    Ok(list)
}

/// What each character is folded to, or nothing where it separates.
pub(crate) fn letters(
    alloc: Global,
    charset: &Charset,
    characters: &[char],
) -> Result<Vec<Option<char>>, NoMemory>
    ensures { IfOk result (λ list. list.items ≡ letters_in (folded charset.now) characters.now) }
{
    let mut letters = Vec::new(alloc);
    let mut escaped = false;
    for c in characters {
        if escaped {
            letters.push(charset.fold(*c))?;
            escaped = false;
        } else if *c == '\\' {
            escaped = true;
        } else {
            letters.push(plain_letter(charset, *c))?;
        }
    }
    if escaped {
        letters.push(None)?;
    }
    Ok(letters)
}

/// The length of the longest prefix of letters.
pub(crate) fn run_len(letters: &[Option<char>]) -> usize
    ensures len { result ≡ prefix_len is_some letters.now }
    ensures within { result ≤ length letters.now }
{
    letters.iter().take_while(|letter| letter.is_some()).count()
}

/// The word of a run of letters.
pub(crate) fn word(alloc: Global, run: &[Option<char>]) -> Result<Word, NoMemory>
    ensures { IfOk result (λ word. word ≡ word_of run.now) }
{
    let text: String = run
        .iter()
        .take(MAX_WORD_CHARS)
        .filter_map(|letter| *letter)
        .collect(alloc)?;
    Ok(Word::new(text.into_bytes()))
}

/// The letters after a run of so many, and after what separates.
pub(crate) fn after_run(letters: &[Option<char>], len: usize) -> &[Option<char>]
    requires { len ≤ length letters.now }
    ensures rest { result.now ≡ drop (len + 1) letters.now }
    ensures len { length result.now ≡ length letters.now - (len + 1) }
{
    if len < letters.len() {
        &letters[len + 1..]
    } else {
        &letters[len..]
    }
}

/// 1 for a run that isn't empty, and 0 for one that is.
fn one_if_any(len: usize) -> usize
    ensures { result ≡ one_or_none len }
{
    if len > 0 { 1 } else { 0 }
}

/// How many words letters spell.
pub(crate) fn count_words(letters: &[Option<char>]) -> usize
    ensures is { result ≡ length (runs_in letters.now) }
    ensures within { result ≤ length letters.now }
{
    let mut count = 0;
    let mut rest = letters;
    'runs: while !rest.is_empty() {
        let len = run_len(rest);
        count += one_if_any(len);
        rest = after_run(rest, len);
    }
    count
}
