//! The names of zones between commas: tags' names in small letters, each once. A set of those that were seen keeps a
//! long list cheap: n log n comparisons for n names.
ghost use Rattle.std.specs.Prelude.{◌≡◌, ◌&&◌, ℕ, List};
ghost use Rattle.std.specs.List.{list_all, list_any};
ghost use Rattle.std.specs.Str.{bytes_eq};
ghost use Rattle.mark_scan.specs.Markup.{is_name_byte};
ghost use Rattle.conf_text.specs.Faults.{is_among, is_long};
ghost use Rattle.conf_text.specs.steps.Settings.{HasNames, ReadsValue, TakesZone};
ghost use Rattle.conf_text.specs.Values.{AreZoneNames, is_tag_name, zones_in};

use crate::fault::ConfKind;
use crate::text::{place_of, small_name, trim};
use doc_types::MAX_NAME_BYTES;
use srch_base::{Name, NoMemory, Or};
use std::alloc::Global;
use std::collections::BTreeSet;

/// Whether a byte can stand in the name of a tag.
fn name_byte(byte: u8) -> bool
    ensures { result ≡ is_name_byte byte }
{
    byte.is_ascii_alphanumeric() || matches!(byte, b'_' | b'-' | b':')
}

/// Whether each byte can stand in the name of a tag.
fn all_name_bytes(bytes: &[u8]) -> bool
    ensures { result ≡ list_all is_name_byte bytes.now }
{
    bytes.iter().all(|byte| name_byte(*byte))
}

/// Whether a text is the name of a tag: a letter, and then letters, digits, `_`, `-` and `:`.
fn tag_name(word: &[u8]) -> bool
    ensures { result ≡ is_tag_name word.now }
{
    match word.split_first() {
        None => false,
        Some((first, rest)) => first.is_ascii_alphabetic() && all_name_bytes(rest),
    }
}

/// Whether a name has too many bytes.
pub fn long(name: &[u8]) -> bool
    ensures { result ≡ is_long name.now }
{
    name.len() > MAX_NAME_BYTES
}

/// Whether one of the names has too many bytes.
pub fn some_long(names: &[Name]) -> bool
    ensures { result ≡ list_any is_long names.now }
{
    names.iter().any(|name| long(name.as_bytes()))
}

/// Whether a name stands among others.
pub fn stands_among(name: &[u8], names: &[Name]) -> bool
    ensures { result ≡ is_among name.now names.now }
{
    names.iter().any(|other| other.as_bytes() == name)
}

/// Whether a name is a tag's and none of those that were seen, which it is among from now on.
fn is_new_zone(name: &Name, seen: &mut BTreeSet<Name>) -> Result<bool, NoMemory>
    ensures { (zones : List (List ℕ)) → HasNames seen.old zones → TakesZone zones name.now seen.new result }
{
    if !tag_name(name.as_bytes()) {
        return Ok(false);
    }
    Ok(seen.insert(name.clone()?)?)
}

/// The names of a list of zones, in small letters.
pub fn read_zones(alloc: Global, value: &[u8]) -> Result<Vec<Name>, Or<ConfKind>>
    ensures { ReadsValue (λ zones. AreZoneNames (zones_in value.now) × (zones.items ≡ zones_in value.now)) (¬ (AreZoneNames (zones_in value.now))) result }
{
    let mut zones = Vec::new(alloc);
    let mut seen = BTreeSet::new(alloc);
    let mut rest = value;
    'zones: loop {
        let end = place_of(b',', rest);
        let zone = small_name(alloc, trim(rest.split_at(end).0))?;
        let new = is_new_zone(&zone, &mut seen)?;
        if !new {
            return Err(Or::Fault(ConfKind::BadValue));
        }
        zones.push(zone)?;
        if end == rest.len() {
            return Ok(zones);
        }
        rest = rest.split_at(end + 1).1;
    }
}
