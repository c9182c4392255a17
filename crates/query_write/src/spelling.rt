//! How a word is written: with a `\` before each byte that could be read as anything but a letter.
ghost use Rattle.std.specs.Prelude.{◌≡◌, ◌≢◌, ℕ, List, [], ◌∷◌, ◌++◌, OnErr};
ghost use Rattle.query_pieces.specs.QueryBytes.{is_bound as is_bound_byte};
ghost use Rattle.query_write.specs.Spelling.{is_plain as is_plain_byte, is_lettered as is_lettered_word, stays as stays_as, escape, spelled};
ghost use Rattle.query_write.specs.Written.{key_text};
ghost use Rattle.query_write.specs.steps.Writes.{Keeps, Appended};

use query_tree::Key;
use srch_base::NoMemory;

/// A byte that bounds an operator which is written in letters.
fn is_bound(byte: u8) -> bool
    ensures { result ≡ is_bound_byte byte }
{
    matches!(byte, b' ' | b'\t' | b'\r' | b'\n' | b'(' | b')' | b'"')
}

/// A letter, a digit, `_`, or a byte of a character that isn't ASCII.
fn is_plain(byte: u8) -> bool
    ensures { result ≡ is_plain_byte byte }
{
    byte >= 128 || byte.is_ascii_alphanumeric() || byte == b'_'
}

/// An operator that is written in letters alone.
fn is_lettered(bytes: &[u8]) -> bool
    ensures { result ≡ is_lettered_word bytes.now }
{
    bytes == b"MAYBE".as_slice()
        || bytes == b"SENTENCE".as_slice()
        || bytes == b"PARAGRAPH".as_slice()
}

/// Whether the first of the bytes needs no `\` before it.
fn stays(bounded: bool, bytes: &[u8]) -> bool
    requires { bytes.now ≢ [] }
    ensures { (byte : ℕ) → (rest : List ℕ) → bytes.now ≡ byte ∷ rest → result ≡ stays_as bounded byte rest }
{
    is_plain(bytes[0]) && !(bounded && is_lettered(bytes))
}

/// Appends the first of the bytes of a word's rest.
fn put_byte(bounded: bool, bytes: &[u8], out: &mut Vec<u8>) -> Result<(), NoMemory>
    requires { bytes.now ≢ [] }
    ensures kept { OnErr result (Keeps out.old.items out.new.items) }
    ensures bytes { (byte : ℕ) → (rest : List ℕ) → bytes.now ≡ byte ∷ rest → Appended (escape (stays_as bounded byte rest) ++ byte ∷ []) out.old.items result out.new.items }
{
    if !stays(bounded, bytes) {
        out.push(b'\\')?;
    }
    out.push(bytes[0])?;
    Ok(())
}

/// Appends a word.
fn put_word(word: &[u8], out: &mut Vec<u8>) -> Result<(), NoMemory>
    ensures { Appended (spelled word.now) out.old.items result out.new.items }
{
    let mut bounded = true;
    for k in 0..word.len() {
        put_byte(bounded, &word[k..], out)?;
        bounded = is_bound(word[k]);
    }
    Ok(())
}

/// Appends a keyword with its marks.
pub(crate) fn put_key(key: &Key, out: &mut Vec<u8>) -> Result<(), NoMemory>
    ensures { Appended (key_text key.now) out.old.items result out.new.items }
{
    if key.start {
        out.push(b'^')?;
    }
    put_word(key.word.as_bytes(), out)?;
    if key.end {
        out.push(b'$')?;
    }
    if key.prefix {
        out.push(b'*')?;
    }
    Ok(())
}
