//! An index whose section is being read.
//!
//! Each entry is first a setting, by itself; then it is tested against what the index has, in the order Repeated,
//! Limit; then it is kept. At the `}` the index must have a type, a path and a field, and must strip markup where it
//! has zones. Columns are few, and are compared one by one.
ghost use Rattle.std.specs.Prelude.{◌≡◌, ◌++◌, ◌∷◌, ◌&&◌, ◌||◌, ◌==◌, ◌<◌, ◌^◌, [], Bool, List, ℕ, IfOk, IsSome, OnOk, false, length, not};
ghost use Rattle.std.specs.List.{list_any};
ghost use Rattle.std.specs.Option.{is_some};
ghost use Rattle.std.specs.Str.{bytes_eq};
ghost use Rattle.conf_text.specs.declared.keys.Key.TheVariants as keys;
ghost use Rattle.conf_text.specs.steps.Drafts.{AreIndexes, EndsIndex, IsDraft, IsFinished, IsTableIn, Sets, TakesEntry, entry_with, exceeds, has_column, has_key, repeats};
ghost use Rattle.conf_text.specs.Faults.{is_repeated};
ghost use Rattle.conf_text.specs.Sections.{Entry, IndexText};
ghost use Rattle.conf_text.specs.steps.Settings.{IsSetting};

use crate::fault::ConfKind;
use crate::keys::Key;
use crate::setting::{Setting, read_setting};
use crate::zones::{long, some_long, stands_among};
use charset_map::Charset;
use doc_types::{AttrKind, MAX_ATTRS, MAX_FIELDS, MAX_ZONES, Schema};
use index_conf::IndexConf;
use mark_scan::MarkRules;
use srch_base::{Items, Name, NoMemory, Or, Text};
use std::alloc::Global;

/// An index whose section is being read.
#[derive(Drop)]
pub struct Draft {
    name: Name,
    /// The keys of its entries.
    given: Vec<Key>,
    fields: Vec<Name>,
    attrs: Vec<(Name, AttrKind)>,
    path: Option<Text>,
    charset: Option<Charset>,
    zones: Vec<Name>,
    strip: bool,
    sp: bool,
    min_prefix: u8,
}

/// Whether an index has this name.
pub fn name_is_taken(indexes: &[IndexConf], name: &[u8]) -> bool
    ensures { result ≡ list_any (λ index. bytes_eq index.schema.name name.now) indexes.now }
{
    indexes
        .iter()
        .any(|index| index.schema.name.as_bytes() == name)
}

/// Whether an index has this path.
fn path_is_taken(indexes: &[IndexConf], path: &[u8]) -> bool
    ensures { result ≡ list_any (λ index. bytes_eq index.path path.now) indexes.now }
{
    indexes.iter().any(|index| index.path.as_bytes() == path)
}

impl Draft {
    /// An index without entries.
    pub fn of(alloc: Global, name: Name) -> Draft
        ensures { IsDraft name [] result }
    {
        Draft {
            name,
            given: Vec::new(alloc),
            fields: Vec::new(alloc),
            attrs: Vec::new(alloc),
            path: None,
            charset: None,
            zones: Vec::new(alloc),
            strip: false,
            sp: false,
            min_prefix: 0,
        }
    }

    /// Whether an entry has this key.
    fn has(&self, key: Key) -> bool
        ensures { result ≡ has_key self.now.given.items key }
    {
        self.given.iter().any(|other| other.same(key))
    }

    /// Whether an attribute has this name.
    fn has_attr(&self, name: &[u8]) -> bool
        ensures { result ≡ list_any (λ attr. bytes_eq attr.0 name.now) self.now.attrs.items }
    {
        self.attrs.iter().any(|attr| attr.0.as_bytes() == name)
    }

    /// Whether a column has this name.
    fn has_column(&self, name: &[u8]) -> bool
        ensures { result ≡ has_column self.now name.now }
    {
        stands_among(name, self.fields.as_slice()) || self.has_attr(name)
    }

    /// Whether an entry repeats what an index or an earlier entry has.
    fn repeats(&self, indexes: &[IndexConf], key: Key, setting: &Setting) -> bool
        ensures { result ≡ repeats self.now indexes.now key setting.now }
    {
        match setting {
            Setting::Field(name) => self.has_column(name.as_bytes()),
            Setting::Attr(name, _) => self.has_column(name.as_bytes()),
            Setting::Path(path) => self.has(key) || path_is_taken(indexes, path.as_bytes()),
            _ => self.has(key),
        }
    }

    /// Whether an entry passes a limit.
    fn exceeds(&self, setting: &Setting) -> bool
        ensures { result ≡ exceeds self.now setting.now }
    {
        match setting {
            Setting::Field(name) => long(name.as_bytes()) || self.fields.len() >= MAX_FIELDS,
            Setting::Attr(name, _) => long(name.as_bytes()) || self.attrs.len() >= MAX_ATTRS,
            Setting::Zones(zones) => some_long(zones.as_slice()) || zones.len() > MAX_ZONES,
            _ => false,
        }
    }

    /// Sets what an entry sets.
    fn set(&mut self, setting: Setting) -> Result<(), NoMemory>
        ensures { OnOk result (Sets setting self.old self.new) }
    {
        match setting {
            Setting::Plain => {}
            Setting::Path(path) => self.path = Some(path),
            Setting::Field(name) => self.fields.push(name)?,
            Setting::Attr(name, kind) => self.attrs.push((name, kind))?,
            Setting::Charset(charset) => self.charset = Some(charset),
            Setting::Strip(on) => self.strip = on,
            Setting::Sp(on) => self.sp = on,
            Setting::Prefix(len) => self.min_prefix = len,
            Setting::Zones(zones) => self.zones = zones,
        }
        Ok(())
    }

    /// Keeps an entry that isn't repeated.
    fn keep(&mut self, key: Key, setting: Setting) -> Result<(), NoMemory>
        ensures { (texts : List IndexText) (name : List ℕ) (entries : List Entry) (value : List ℕ)
            → IsDraft name entries self.old → IsSetting key value setting → is_repeated texts entries key value ≡ false
            → OnOk result (IsDraft name (entries ++ entry_with key value ∷ []) self.new) }
    {
        self.set(setting)?;
        self.given.push(key)?;
        Ok(())
    }

    /// Takes an entry.
    pub fn take(
        &mut self,
        alloc: Global,
        indexes: &[IndexConf],
        key: Key,
        value: &[u8],
    ) -> Result<(), Or<ConfKind>>
        requires { length value.now < 2 ^ 32 }
        ensures { (texts : List IndexText) (name : List ℕ) (entries : List Entry)
            → AreIndexes texts indexes.now → IsDraft name entries self.old
            → TakesEntry texts name entries key value.now self.new result }
    {
        let setting = read_setting(alloc, key, value)?;
        if self.repeats(indexes, key, &setting) {
            return Err(Or::Fault(ConfKind::Repeated));
        }
        if self.exceeds(&setting) {
            return Err(Or::Fault(ConfKind::Limit));
        }
        self.keep(key, setting)?;
        Ok(())
    }

    /// Whether it has zones, but its markup isn't stripped.
    fn lacks_strip(&self) -> bool
        ensures { result ≡ has_key self.now.given.items keys.IndexZones && not self.now.strip }
    {
        self.has(Key::IndexZones) && !self.strip
    }

    /// Whether it lacks a type, a path or a field.
    fn lacks_key(&self) -> bool
        ensures { result ≡ not (has_key self.now.given.items keys.Type) || not (is_some self.now.path) || (length self.now.fields.items == 0) }
    {
        !self.has(Key::Type) || self.path.is_none() || self.fields.is_empty()
    }

    /// The index, at the end of its section.
    pub fn end(self, alloc: Global) -> Result<IndexConf, Or<ConfKind>>
        ensures { (name : List ℕ) (entries : List Entry) → IsDraft name entries self → EndsIndex name entries result }
    {
        if self.lacks_strip() {
            return Err(Or::Fault(ConfKind::BadValue));
        }
        if self.lacks_key() {
            return Err(Or::Fault(ConfKind::Missing));
        }
        let index = self.finish(alloc)?;
        Ok(index)
    }

    /// The index that has all it needs.
    fn finish(self, alloc: Global) -> Result<IndexConf, NoMemory>
        requires { IsSome self.path }
        ensures { IfOk result (λ index. IsFinished self index) }
    {
        let charset = table_or_default(alloc, self.charset)?;
        let zones = Items::new(self.zones);
        let rules = MarkRules {
            strip: self.strip,
            sp: self.sp,
            zones: zones.clone()?,
        };
        let schema = Schema {
            name: self.name,
            fields: Items::new(self.fields),
            attrs: Items::new(self.attrs),
            zones,
            sp: self.sp,
            min_prefix: self.min_prefix,
        };
        Ok(IndexConf {
            schema,
            charset,
            rules,
            path: self.path.unwrap(),
        })
    }
}

/// A table of its own, or the default one.
fn table_or_default(alloc: Global, own: Option<Charset>) -> Result<Charset, NoMemory>
    ensures { IfOk result (λ charset. IsTableIn own charset) }
{
    match own {
        Some(charset) => Ok(charset),
        None => Charset::default_table(alloc),
    }
}
