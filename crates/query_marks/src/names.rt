//! The names of a limit, as they stand in the text with commas between them. They are compared in small letters.
ghost use Rattle.std.specs.Prelude.{◌≡◌, ◌≤◌, ◌<◌, ◌^◌, IfOk, length, option_map};
ghost use Rattle.query_marks.specs.LimitNames.{is_same as is_same_name, is_known as is_known_name, is_listed as is_listed_name, place_of as place_in, is_long as is_long_name, is_unknown as is_unknown_name, first_unknown as first_unknown_of, has_long as has_long_name, numbers_of as numbers_in};

use doc_types::MAX_NAME_BYTES;
use sqlite_items::Items;
use srch_base::{Name, NoMemory};
use std::alloc::Global;

/// Whether two names are one, in whatever case.
fn is_same(name: &[u8], known: &[u8]) -> bool
    ensures { result ≡ is_same_name name.now known.now }
{
    name.eq_ignore_ascii_case(known)
}

/// Whether a name is in the list.
fn is_known(list: &[Name], name: &[u8]) -> bool
    ensures { result ≡ is_known_name list.now name.now }
{
    list.iter().any(|known| is_same(name, known.as_bytes()))
}

/// Whether a name is not too long and isn't in the list.
fn is_unknown(list: &[Name], name: &[u8]) -> bool
    ensures { result ≡ is_unknown_name list.now name.now }
{
    name.len() <= MAX_NAME_BYTES && !is_known(list, name)
}

/// The first name that is not too long and isn't in the list.
pub(crate) fn first_unknown<'a>(list: &[Name], names: &'a [u8]) -> Option<&'a [u8]>
    ensures { option_map (λ name. name.now) result ≡ first_unknown_of list.now names.now }
{
    names
        .split(|b| *b == b',')
        .find(|name| is_unknown(list, name))
}

/// Whether a name is too long.
fn is_long(name: &[u8]) -> bool
    ensures { result ≡ is_long_name name.now }
{
    name.len() > MAX_NAME_BYTES
}

/// Whether one of the names is too long.
pub(crate) fn has_long(names: &[u8]) -> bool
    ensures { result ≡ has_long_name names.now }
{
    names.split(|b| *b == b',').any(|name| is_long(name))
}

/// Whether a name is among those of a limit.
pub(crate) fn is_listed(names: &[u8], known: &[u8]) -> bool
    ensures { result ≡ is_listed_name names.now known.now }
{
    names.split(|b| *b == b',').any(|name| is_same(name, known))
}

/// How many names are before this one in the list.
fn place_of(list: &[Name], name: &[u8]) -> usize
    ensures is { result ≡ place_in list.now name.now }
    ensures within { result ≤ length list.now }
{
    list.iter()
        .take_while(|known| !is_same(name, known.as_bytes()))
        .count()
}

/// The number of a name.
fn number_in(list: &[Name], name: &[u8]) -> u16
    requires { length list.now < 2 ^ 16 }
    ensures { result ≡ place_in list.now name.now }
{
    place_of(list, name) as u16
}

/// The numbers of the names.
pub(crate) fn numbers_of(alloc: Global, list: &[Name], names: &[u8]) -> Result<Items<u16>, NoMemory>
    requires { length list.now < 2 ^ 16 }
    ensures { IfOk result (λ numbers. numbers ≡ numbers_in list.now names.now) }
{
    let numbers: Vec<u16> = names
        .split(|b| *b == b',')
        .map(|name| number_in(list, name))
        .collect(alloc)?;
    Ok(Items::from_vec(numbers))
}
