//! Texts without the blanks around them, and the place of a byte. Blanks are spaces, tabs, CR and LF.
ghost use Rattle.std.specs.Prelude.{◌≡◌, ◌==◌};
ghost use Rattle.std.specs.List.{list_all, position_or_len, prefix_len, suffix_len};
ghost use Rattle.charset_map.specs.Characters.{is_blank};
ghost use Rattle.charset_map.specs.TableText.{without_back, without_front};

use crate::characters::blank;

/// Whether a text has nothing but blanks.
pub fn all_blank(text: &[u8]) -> bool
    ensures { result ≡ list_all is_blank text.now }
{
    text.iter().all(|byte| blank(*byte))
}

/// How many blanks a part begins with.
pub fn blanks_before(part: &[u8]) -> usize
    ensures { result ≡ prefix_len is_blank part.now }
{
    part.iter().take_while(|byte| blank(**byte)).count()
}

/// A part without the blanks around it.
pub fn trimmed(part: &[u8]) -> &[u8]
    ensures { result.now ≡ without_back (without_front part.now) }
{
    before_blanks(after_blanks(part))
}

/// A part without the blanks that it begins with.
fn after_blanks(part: &[u8]) -> &[u8]
    ensures { result.now ≡ without_front part.now }
{
    part.split_at(blanks_before(part)).1
}

/// A part without the blanks that it ends with.
fn before_blanks(part: &[u8]) -> &[u8]
    ensures { result.now ≡ without_back part.now }
{
    part.split_at(part.len() - blanks_after(part)).0
}

/// How many blanks a part ends with.
fn blanks_after(part: &[u8]) -> usize
    ensures { result ≡ suffix_len is_blank part.now }
{
    part.iter().rev().take_while(|byte| blank(**byte)).count()
}

/// How many bytes of a text stand before the first of these, or in all of it.
pub fn place_of(byte: u8, text: &[u8]) -> usize
    ensures { result ≡ position_or_len (λ b. b == byte) text.now }
{
    text.iter().take_while(|other| **other != byte).count()
}
