//! The tokens of a written query, with their bytes.
ghost use Rattle.std.specs.Prelude.{◌≡◌, ◌==◌, ◌++◌, map, decimal};
ghost use Rattle.query_write.specs.Written.{how_text, quoted_text, padded, parted, key_text, named, listed, all_fields, fields_text, positions_text, name_of, zones_text, token_text};
ghost use Rattle.query_write.specs.steps.Writes.{Appended, token_of, separator, parted_from};

use crate::spelling::put_key;
use doc_types::Schema;
use itoa::Buffer;
use query_tree::{How, Key};
use srch_base::{Name, NoMemory};

/// A token that is written.
#[derive(Clone, Copy)]
pub(crate) enum Token<'a> {
    Space,
    Open,
    Close,
    Or,
    Maybe,
    Before,
    Near(u32),
    Sentence,
    Paragraph,
    Not,
    Word(&'a Key),
    Quoted(&'a [Key], How),
    Fields { fields: u32, positions: u32 },
    /// The numbers of the zones.
    Zones(&'a [u16]),
    Spans(&'a [u16]),
}

fn put_number(number: u32, out: &mut Vec<u8>) -> Result<(), NoMemory>
    ensures { Appended (decimal number) out.old.items result out.new.items }
{
    let mut digits = Buffer::new();
    out.extend_from_slice(digits.format(number).as_bytes())?;
    Ok(())
}

/// Appends a number with so many digits at least.
fn put_padded(number: u32, places: u8, out: &mut Vec<u8>) -> Result<(), NoMemory>
    ensures { Appended (padded places number) out.old.items result out.new.items }
{
    let mut buffer = Buffer::new();
    let digits = buffer.format(number).as_bytes();
    for place in digits.len()..usize::from(places) {
        out.push(b'0')?;
    }
    out.extend_from_slice(digits)?;
    Ok(())
}

/// Appends the number of a quoted piece.
fn put_how(how: How, out: &mut Vec<u8>) -> Result<(), NoMemory>
    ensures { Appended (how_text how) out.old.items result out.new.items }
{
    match how {
        How::Phrase => Ok(()),
        How::Within(number) => {
            out.push(b'~')?;
            put_number(number, out)
        }
        How::AtLeast(number) => {
            out.push(b'/')?;
            put_number(number, out)
        }
        How::Share { digits, places } => {
            out.extend_from_slice(b"/0.")?;
            put_padded(digits, places, out)
        }
    }
}

/// Appends a byte, unless what follows is the first of several parts.
fn put_separator(first: bool, byte: u8, out: &mut Vec<u8>) -> Result<(), NoMemory>
    ensures { Appended (separator first byte) out.old.items result out.new.items }
{
    if !first {
        out.push(byte)?;
    }
    Ok(())
}

/// Appends keywords with a space between each and the next.
fn put_keys(keys: &[Key], out: &mut Vec<u8>) -> Result<(), NoMemory>
    ensures { Appended (parted 32 (map key_text keys.now)) out.old.items result out.new.items }
{
    let mut first = true;
    for key in keys {
        put_separator(first, b' ', out)?;
        put_key(key, out)?;
        first = false;
    }
    Ok(())
}

fn put_quoted(keys: &[Key], how: How, out: &mut Vec<u8>) -> Result<(), NoMemory>
    ensures { Appended (quoted_text keys.now how) out.old.items result out.new.items }
{
    out.push(b'"')?;
    put_keys(keys, out)?;
    out.push(b'"')?;
    put_how(how, out)
}

/// Whether all fields are meant.
pub(crate) fn is_all(fields: u32, names: &[Name]) -> bool
    ensures { result ≡ (fields == all_fields names.now) }
{
    match names.split_first() {
        None => fields == 0,
        Some((_, rest)) => fields % 2 == 1 && is_all(fields / 2, rest),
    }
}

/// Appends the names of fields by their bits, in the order of the schema.
fn put_named(fields: u32, first: bool, names: &[Name], out: &mut Vec<u8>) -> Result<(), NoMemory>
    ensures { Appended (parted_from first 44 (named names.now fields)) out.old.items result out.new.items }
{
    match names.split_first() {
        None => Ok(()),
        Some((name, rest)) => {
            if fields % 2 == 0 {
                return put_named(fields / 2, first, rest, out);
            }
            put_separator(first, b',', out)?;
            out.extend_from_slice(name.as_bytes())?;
            put_named(fields / 2, false, rest, out)
        }
    }
}

fn put_fields(fields: u32, names: &[Name], out: &mut Vec<u8>) -> Result<(), NoMemory>
    ensures { Appended (fields_text names.now fields) out.old.items result out.new.items }
{
    if is_all(fields, names) {
        out.push(b'*')?;
        return Ok(());
    }
    if fields == 0 {
        out.extend_from_slice(b"!*")?;
        return Ok(());
    }
    out.push(b'(')?;
    put_named(fields, true, names, out)?;
    out.push(b')')?;
    Ok(())
}

/// Appends the greatest position, where positions are limited.
fn put_positions(positions: u32, out: &mut Vec<u8>) -> Result<(), NoMemory>
    ensures { Appended (positions_text positions) out.old.items result out.new.items }
{
    if positions != 65_535 {
        out.push(b'[')?;
        put_number(positions, out)?;
        out.push(b']')?;
    }
    Ok(())
}

/// Appends the name of a zone.
fn put_zone(zone: u16, names: &[Name], out: &mut Vec<u8>) -> Result<(), NoMemory>
    ensures { Appended (name_of names.now zone) out.old.items result out.new.items }
{
    if let Some(name) = names.get(usize::from(zone)) {
        out.extend_from_slice(name.as_bytes())?;
    }
    Ok(())
}

/// Appends the names of zones with a comma between each and the next.
fn put_zone_names(zones: &[u16], names: &[Name], out: &mut Vec<u8>) -> Result<(), NoMemory>
    ensures { Appended (parted 44 (map (name_of names.now) zones.now)) out.old.items result out.new.items }
{
    let mut first = true;
    for zone in zones {
        put_separator(first, b',', out)?;
        put_zone(*zone, names, out)?;
        first = false;
    }
    Ok(())
}

/// Appends zones between parentheses.
fn put_zones(zones: &[u16], names: &[Name], out: &mut Vec<u8>) -> Result<(), NoMemory>
    ensures { Appended (zones_text names.now zones.now) out.old.items result out.new.items }
{
    out.push(b'(')?;
    put_zone_names(zones, names, out)?;
    out.push(b')')?;
    Ok(())
}

/// Appends a token.
pub(crate) fn put_one(token: Token<'_>, schema: &Schema, out: &mut Vec<u8>) -> Result<(), NoMemory>
    ensures { Appended (token_text schema.now (token_of token.entry)) out.old.items result out.new.items }
{
    match token {
        Token::Space => out.push(b' ')?,
        Token::Open => out.push(b'(')?,
        Token::Close => out.push(b')')?,
        Token::Or => out.push(b'|')?,
        Token::Maybe => out.extend_from_slice(b"MAYBE")?,
        Token::Before => out.extend_from_slice(b"<<")?,
        Token::Near(number) => {
            out.extend_from_slice(b"NEAR/")?;
            put_number(number, out)?;
        }
        Token::Sentence => out.extend_from_slice(b"SENTENCE")?,
        Token::Paragraph => out.extend_from_slice(b"PARAGRAPH")?,
        Token::Not => out.push(b'-')?,
        Token::Word(key) => put_key(key, out)?,
        Token::Quoted(keys, how) => put_quoted(keys, how, out)?,
        Token::Fields { fields, positions } => {
            out.push(b'@')?;
            put_fields(fields, schema.fields.as_slice(), out)?;
            put_positions(positions, out)?;
        }
        Token::Zones(zones) => {
            out.extend_from_slice(b"ZONE:")?;
            put_zones(zones, schema.zones.as_slice(), out)?;
        }
        Token::Spans(zones) => {
            out.extend_from_slice(b"ZONESPAN:")?;
            put_zones(zones, schema.zones.as_slice(), out)?;
        }
    }
    Ok(())
}
