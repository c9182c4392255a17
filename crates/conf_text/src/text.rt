//! Texts without the blanks around them, names, and small letters. Blanks are the space, the tab, CR and LF; a name is a
//! letter or `_`, then letters, digits and `_`, all of ASCII. A part of a text is a slice of it: nothing is copied but by
//! `small_name`.
ghost use Rattle.std.specs.Prelude.{◌≡◌, ◌==◌, IfOk};
ghost use Rattle.std.specs.Char.{to_ascii_lowercase};
ghost use Rattle.std.specs.List.{list_all, position_or_len, prefix_len, suffix_len};
ghost use Rattle.charset_map.specs.Characters.{is_blank};
ghost use Rattle.charset_map.specs.TableText.{without_back, without_front};
ghost use Rattle.doc_types.specs.Schemas.{begins_name, goes_on_in_name};
ghost use Rattle.conf_text.specs.Lines.{trimmed};
ghost use Rattle.conf_text.specs.Shapes.{is_name, small};

use srch_base::{Name, NoMemory};
use std::alloc::Global;

/// Whether a byte is a space, a tab, a CR or an LF.
pub fn blank(byte: u8) -> bool
    ensures { result ≡ is_blank byte }
{
    matches!(byte, b' ' | b'\t' | b'\r' | b'\n')
}

/// How many bytes of a text are before the first of these, or in all of it.
pub fn place_of(byte: u8, text: &[u8]) -> usize
    ensures { result ≡ position_or_len (λ b. b == byte) text.now }
{
    text.iter().take_while(|other| **other != byte).count()
}

/// How many blanks a text begins with.
fn blanks_before(text: &[u8]) -> usize
    ensures { result ≡ prefix_len is_blank text.now }
{
    text.iter().take_while(|byte| blank(**byte)).count()
}

/// How many blanks a text ends with.
fn blanks_after(text: &[u8]) -> usize
    ensures { result ≡ suffix_len is_blank text.now }
{
    text.iter().rev().take_while(|byte| blank(**byte)).count()
}

/// A text without the blanks that it begins with.
pub fn after_blanks(text: &[u8]) -> &[u8]
    ensures { result.now ≡ without_front text.now }
{
    text.split_at(blanks_before(text)).1
}

/// A text without the blanks that it ends with.
pub fn before_blanks(text: &[u8]) -> &[u8]
    ensures { result.now ≡ without_back text.now }
{
    text.split_at(text.len() - blanks_after(text)).0
}

/// A text without the blanks around it.
pub fn trim(text: &[u8]) -> &[u8]
    ensures { result.now ≡ trimmed text.now }
{
    before_blanks(after_blanks(text))
}

/// Whether a byte can begin a name.
fn begins(byte: u8) -> bool
    ensures { result ≡ begins_name byte }
{
    byte.is_ascii_lowercase() || byte == b'_'
}

/// Whether a byte can stand in a name after its first.
fn goes_on(byte: u8) -> bool
    ensures { result ≡ goes_on_in_name byte }
{
    begins(byte) || byte.is_ascii_digit()
}

/// Whether each byte can stand in a name after its first, in either case.
fn all_go_on(bytes: &[u8]) -> bool
    ensures { result ≡ list_all (λ b. goes_on_in_name (to_ascii_lowercase b)) bytes.now }
{
    bytes.iter().all(|byte| goes_on(byte.to_ascii_lowercase()))
}

/// Whether a text is a name, in either case.
#[tactic(auto, using(crate::proofs::Names::name_is))]
pub fn name_like(word: &[u8]) -> bool
    ensures { result ≡ is_name word.now }
{
    match word.split_first() {
        None => false,
        Some((first, rest)) => begins(first.to_ascii_lowercase()) && all_go_on(rest),
    }
}

/// A copy in small letters.
pub fn small_name(alloc: Global, word: &[u8]) -> Result<Name, NoMemory>
    ensures { IfOk result (λ name. name ≡ small word.now) }
{
    Ok(Name::new(word.to_ascii_lowercase(alloc)?))
}
