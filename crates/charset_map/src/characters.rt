//! Characters: how a table writes them, and their numbers.
//!
//! A printable ASCII character writes itself, unless it is one of `,->./+`; any other is `U+` and one to six
//! hexadecimal digits. The number of a character is its place among all characters: that of its code, less the 2,048
//! surrogates where it comes after them. So ranges may pass over the surrogates, which count for nothing.
ghost use Rattle.std.specs.Prelude.{◌≡◌, ◌<◌, ℕ, ◌∷◌, MatchOption};
ghost use Rattle.charset_map.specs.Characters.{IsCharacter, IsCode, character_at, is_blank, is_plain, ordinal};

/// The number of a character in the order of all characters.
pub fn ordinal_of(character: char) -> u32
    ensures number { result ≡ ordinal character }
    ensures within { result < 0x10_F800 }
{
    let code = character as u32;
    if code < 0xD800 { code } else { code - 0x800 }
}

/// The character of a number.
pub fn character_of(number: u32) -> Option<char>
    requires { number < 0x10_F800 }
    ensures { result ≡ Some (character_at number) }
{
    let code = if number < 0xD800 {
        number
    } else {
        number + 0x800
    };
    char::from_u32(code)
}

/// Whether a byte is a space, a tab, a CR or an LF.
pub fn blank(byte: u8) -> bool
    ensures { result ≡ is_blank byte }
{
    matches!(byte, b' ' | b'\t' | b'\r' | b'\n')
}

/// Whether a byte is a character that writes itself in a table.
fn plain(byte: u8) -> bool
    ensures { result ≡ is_plain byte }
{
    byte.is_ascii_graphic() && !matches!(byte, b',' | b'-' | b'>' | b'.' | b'/' | b'+')
}

/// The character that a text writes.
pub fn character(text: &[u8]) -> Option<char>
    ensures { MatchOption result ((c : ℕ) → ¬ (IsCharacter text.now c)) (λ c. IsCharacter text.now c) }
{
    match text {
        [byte] => {
            if plain(*byte) {
                Some(char::from(*byte))
            } else {
                None
            }
        }
        [b'U', b'+', digits @ ..] => code_point(digits),
        _ => None,
    }
}

/// The character whose code these hexadecimal digits are.
fn code_point(digits: &[u8]) -> Option<char>
    ensures { MatchOption result ((c : ℕ) → ¬ (IsCode (85 ∷ 43 ∷ digits.now) c)) (λ c. IsCode (85 ∷ 43 ∷ digits.now) c) }
{
    if digits.is_empty() || digits.len() > 6 {
        return None;
    }
    let mut code = 0u32;
    for digit in digits {
        match char::from(*digit).to_digit(16) {
            Some(value) => code = code * 16 + value,
            None => return None,
        }
    }
    char::from_u32(code)
}
