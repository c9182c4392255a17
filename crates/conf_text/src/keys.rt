//! The keys of an index.
//!
//! All is in two lists: the kinds, and the names with their kinds, in the order of the names' bytes. The definitions
//! have the same two lists (`specs/Keys`), and the check compares them row by row. What a key's value may be and sets
//! is in `setting`.
ghost use Rattle.std.specs.Prelude.{◌≡◌, Option, slice_get};
ghost use Rattle.std.specs.Str.{str_to_ascii_lowercase};
ghost use Rattle.name_table.specs.Order.{IsInOrder};
ghost use Rattle.conf_text.specs.Keys.{key_named, key_number, key_values, key_words, same_key};

use name_table::{NameTable, value_at, words_of};

/// A key of an index.
#[derive(Clone, Copy)]
pub enum Key {
    CharsetTable,
    CharsetType,
    Dict,
    Docinfo,
    HtmlStrip,
    IndexSp,
    IndexZones,
    MinPrefixLen,
    MinWordLen,
    Mlock,
    Morphology,
    OndiskAttrs,
    Path,
    Preopen,
    RtAttrBigint,
    RtAttrBool,
    RtAttrTimestamp,
    RtAttrUint,
    RtField,
    RtMemLimit,
    Type,
}

macro_rules! keys {
    ($form:ident $(, $argument:expr)*) => {
        $form!($($argument,)* {
            "charset_table" => Key::CharsetTable,
            "charset_type" => Key::CharsetType,
            "dict" => Key::Dict,
            "docinfo" => Key::Docinfo,
            "html_strip" => Key::HtmlStrip,
            "index_sp" => Key::IndexSp,
            "index_zones" => Key::IndexZones,
            "min_prefix_len" => Key::MinPrefixLen,
            "min_word_len" => Key::MinWordLen,
            "mlock" => Key::Mlock,
            "morphology" => Key::Morphology,
            "ondisk_attrs" => Key::OndiskAttrs,
            "path" => Key::Path,
            "preopen" => Key::Preopen,
            "rt_attr_bigint" => Key::RtAttrBigint,
            "rt_attr_bool" => Key::RtAttrBool,
            "rt_attr_timestamp" => Key::RtAttrTimestamp,
            "rt_attr_uint" => Key::RtAttrUint,
            "rt_field" => Key::RtField,
            "rt_mem_limit" => Key::RtMemLimit,
            "type" => Key::Type,
        })
    };
}

fn key_table() -> NameTable<21>
    ensures words { result ≡ key_words }
    ensures order { IsInOrder result }
{
    NameTable::ordered(keys!(words_of))
}

fn key_at(place: u16) -> Option<Key>
    ensures { result ≡ slice_get key_values place }
{
    Some(keys!(value_at, place, return None))
}

impl Key {
    /// The key with this name, in either case.
    pub fn named(word: &[u8]) -> Option<Key>
        ensures { result ≡ key_named (str_to_ascii_lowercase word.now) }
    {
        match key_table().find(word) {
            Some(place) => key_at(place),
            None => None,
        }
    }

    /// The place of the key among all.
    fn number(self) -> u8
        ensures { result ≡ key_number self }
    {
        self as u8
    }

    pub fn same(self, other: Key) -> bool
        ensures { result ≡ same_key self other }
    {
        self.number() == other.number()
    }
}
