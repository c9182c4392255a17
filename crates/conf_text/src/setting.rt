//! The value of a key, and what it sets. A value is good or bad by itself; what the index has already is looked at in
//! `draft`.
ghost use Rattle.std.specs.Prelude.{◌≡◌, ◌≢◌, ◌<◌, ◌^◌, [], ◌∷◌, codes, length, is_some, Some, true, false};
ghost use Rattle.std.specs.Str.{IsUtf8, bytes_eq};
ghost use Rattle.charset_map.specs.TableText.{IsTableOf};
ghost use Rattle.charset_map.specs.Spans.{folded};
ghost use Rattle.conf_text.specs.steps.Settings.{ReadsSetting, ReadsValue};
ghost use Rattle.conf_text.specs.Shapes.{small};
ghost use Rattle.conf_text.specs.Values.{IsCharsetText, can_be_column, is_switch, prefix_len_in as prefix_len_text, prefix_len_of as number_of_prefix};
ghost use Rattle.conf_text.specs.declared.setting.Setting.TheVariants.{Plain};

use crate::fault::ConfKind;
use crate::keys::Key;
use crate::text::{name_like, small_name};
use crate::zones::read_zones;
use charset_map::{Charset, a_text_is_read_in_one_way};
use doc_types::{AttrKind, MAX_WORD_CHARS};
use srch_base::{Name, NoMemory, Or, Text};
use std::alloc::Global;

/// What an entry of an index sets.
#[derive(Drop)]
pub enum Setting {
    /// Nothing that is kept.
    Plain,
    Path(Text),
    Field(Name),
    Attr(Name, AttrKind),
    Charset(Charset),
    Strip(bool),
    Sp(bool),
    Prefix(u8),
    Zones(Vec<Name>),
}

/// The fault of a value that a key can't have.
const BAD_VALUE: Or<ConfKind> = Or::Fault(ConfKind::BadValue);

/// What a key with this value sets.
pub fn read_setting(alloc: Global, key: Key, value: &[u8]) -> Result<Setting, Or<ConfKind>>
    requires { length value.now < 2 ^ 32 }
    ensures { ReadsSetting key value.now result }
{
    match key {
        Key::Type => plain_word(value, b"rt"),
        Key::Morphology => plain_word(value, b"none"),
        Key::MinWordLen => plain_word(value, b"1"),
        Key::Path => Ok(Setting::Path(path(alloc, value)?)),
        Key::RtField => Ok(Setting::Field(column(alloc, value)?)),
        Key::RtAttrUint => Ok(Setting::Attr(column(alloc, value)?, AttrKind::Uint)),
        Key::RtAttrBool => Ok(Setting::Attr(column(alloc, value)?, AttrKind::Bool)),
        Key::RtAttrBigint => Ok(Setting::Attr(column(alloc, value)?, AttrKind::Bigint)),
        Key::RtAttrTimestamp => Ok(Setting::Attr(column(alloc, value)?, AttrKind::Timestamp)),
        Key::CharsetTable => Ok(Setting::Charset(charset(alloc, value)?)),
        Key::HtmlStrip => Ok(Setting::Strip(switch(value)?)),
        Key::IndexSp => Ok(Setting::Sp(switch(value)?)),
        Key::MinPrefixLen => Ok(Setting::Prefix(prefix_len(value)?)),
        Key::IndexZones => Ok(Setting::Zones(read_zones(alloc, value)?)),
        Key::RtMemLimit
        | Key::Dict
        | Key::Docinfo
        | Key::Mlock
        | Key::Preopen
        | Key::OndiskAttrs
        | Key::CharsetType => Ok(Setting::Plain),
    }
}

/// A value that has to be this word.
fn plain_word(value: &[u8], wanted: &[u8]) -> Result<Setting, Or<ConfKind>>
    ensures { ReadsValue (λ setting. (bytes_eq value.now wanted.now ≡ true) × (setting ≡ Plain)) (bytes_eq value.now wanted.now ≡ false) result }
{
    if value == wanted {
        Ok(Setting::Plain)
    } else {
        Err(BAD_VALUE)
    }
}

/// A path, which isn't empty.
fn path(alloc: Global, value: &[u8]) -> Result<Text, Or<ConfKind>>
    ensures { ReadsValue (λ path. (value.now ≢ []) × (path ≡ value.now)) (value.now ≡ []) result }
{
    if value.is_empty() {
        return Err(BAD_VALUE);
    }
    let path = Text::from_slice(alloc, value)?;
    Ok(path)
}

/// Whether a column can have this name.
fn column_like(value: &[u8]) -> bool
    ensures { result ≡ can_be_column value.now }
{
    name_like(value) && !value.eq_ignore_ascii_case(b"id")
}

/// The name of a column.
fn column(alloc: Global, value: &[u8]) -> Result<Name, Or<ConfKind>>
    ensures { ReadsValue (λ name. (can_be_column value.now ≡ true) × (name ≡ small value.now)) (can_be_column value.now ≡ false) result }
{
    if !column_like(value) {
        return Err(BAD_VALUE);
    }
    let name = small_name(alloc, value)?;
    Ok(name)
}

/// What a switch is set to.
fn switch(value: &[u8]) -> Result<bool, Or<ConfKind>>
    ensures { ReadsValue (λ on. (is_switch value.now ≡ true) × (on ≡ bytes_eq value.now (codes "1"))) (is_switch value.now ≡ false) result }
{
    let on = value == b"1".as_slice();
    if on || value == b"0".as_slice() {
        Ok(on)
    } else {
        Err(BAD_VALUE)
    }
}

/// The fewest characters of a prefix, where a number may be that.
fn prefix_len_of(number: u8) -> Option<u8>
    ensures { result ≡ number_of_prefix number }
{
    if usize::from(number) <= MAX_WORD_CHARS {
        Some(number)
    } else {
        None
    }
}

/// The fewest characters of a prefix, where one byte writes it.
fn by_one_digit(b: u8) -> Option<u8>
    ensures { result ≡ prefix_len_text (b ∷ []) }
{
    if b.is_ascii_digit() {
        prefix_len_of(b - b'0')
    } else {
        None
    }
}

/// The fewest characters of a prefix, where two bytes write it.
fn by_two_digits(a: u8, b: u8) -> Option<u8>
    ensures { result ≡ prefix_len_text (a ∷ b ∷ []) }
{
    if matches!(a, b'1'..=b'9') && b.is_ascii_digit() {
        prefix_len_of(10 * (a - b'0') + (b - b'0'))
    } else {
        None
    }
}

/// The fewest characters of a prefix that a text writes: digits without a 0 in front.
fn prefix_len_in(value: &[u8]) -> Option<u8>
    ensures { result ≡ prefix_len_text value.now }
{
    match value {
        [b] => by_one_digit(*b),
        [a, b] => by_two_digits(*a, *b),
        _ => None,
    }
}

/// The fewest characters of a prefix.
fn prefix_len(value: &[u8]) -> Result<u8, Or<ConfKind>>
    ensures { ReadsValue (λ len. (is_some (prefix_len_text value.now) ≡ true) × (prefix_len_text value.now ≡ Some len)) (is_some (prefix_len_text value.now) ≡ false) result }
{
    match prefix_len_in(value) {
        Some(len) => Ok(len),
        None => Err(BAD_VALUE),
    }
}

/// The character table that a text is.
fn charset(alloc: Global, value: &[u8]) -> Result<Charset, Or<ConfKind>>
    requires { length value.now < 2 ^ 32 }
    ensures { ReadsValue (λ charset. IsUtf8 value.now × IsTableOf value.now (folded charset)) (¬ (IsCharsetText value.now)) result }
{
    match str::from_utf8(value) {
        Err(_) => Err(BAD_VALUE),
        Ok(text) => match Charset::read(alloc, text) {
            Ok(charset) => Ok(charset),
            Err(Or::NoMemory) => Err(Or::NoMemory),
            Err(Or::Fault(_)) => {
                a_text_is_read_in_one_way();
                Err(BAD_VALUE)
            }
        },
    }
}
