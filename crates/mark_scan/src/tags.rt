//! What a tag does, by its name in either case.
//!
//! An inline tag that is no zone is removed, with nothing in its place. A block tag ends a paragraph, where sentences
//! and paragraphs are looked for. A tag of a zone opens or closes it, unless it closes itself. The two lists are those
//! of Sphinx's manual for `html_strip` and `index_sp`.
ghost use Rattle.std.specs.Prelude.{◌≡◌, ◌≤◌, ◌<◌, ◌++◌, length, map, IfSome, OnOk, option_to_list};
ghost use Rattle.name_table.specs.Order.{IsInOrder};
ghost use Rattle.mark_scan.specs.steps.Scanning.{tag_text};
ghost use Rattle.mark_scan.specs.Tags.{inline_tags, block_tags, is_among, zone_of, is_removed, paragraph_kind, zone_kind, tag_kinds, span};

use crate::mark::{Mark, MarkKind, MarkRules};
use crate::piece::Tag;
use name_table::NameTable;
use srch_base::{Name, NoMemory};

/// The tags that are removed with nothing in their place, as the manual's list of `html_strip` has them.
fn inline_table() -> NameTable<18>
    ensures words { result ≡ inline_tags }
    ensures order { IsInOrder result }
{
    NameTable::ordered(&[
        "a", "b", "basefont", "big", "em", "font", "i", "img", "label", "s", "small", "span",
        "strike", "strong", "sub", "sup", "tt", "u",
    ])
}

/// The tags that end a paragraph, as the manual's list of `index_sp` has them.
fn block_table() -> NameTable<26>
    ensures words { result ≡ block_tags }
    ensures order { IsInOrder result }
{
    NameTable::ordered(&[
        "address",
        "blockquote",
        "caption",
        "center",
        "dd",
        "div",
        "dl",
        "dt",
        "h1",
        "h2",
        "h3",
        "h4",
        "h5",
        "li",
        "menu",
        "ol",
        "p",
        "pre",
        "table",
        "tbody",
        "td",
        "tfoot",
        "th",
        "thead",
        "tr",
        "ul",
    ])
}

fn inline(name: &[u8]) -> bool
    ensures { result ≡ is_among inline_tags name.now }
{
    inline_table().find(name).is_some()
}

fn block(name: &[u8]) -> bool
    ensures { result ≡ is_among block_tags name.now }
{
    block_table().find(name).is_some()
}

/// The number of the zone with a name, in either case.
fn zone_number(zones: &[Name], name: &[u8]) -> Option<usize>
    ensures number { result ≡ zone_of zones.now name.now }
    ensures within { IfSome result (λ number. number < length zones.now) }
{
    zones
        .iter()
        .position(|zone| zone.as_bytes().eq_ignore_ascii_case(name))
}

/// Whether a tag is removed: an inline tag that is no zone.
#[tactic(auto, unfolding(crate::specs::Tags::is_removed))]
pub(crate) fn removed(rules: &MarkRules, name: &[u8]) -> bool
    ensures { result ≡ is_removed rules.now.zones name.now }
{
    inline(name) && zone_number(rules.zones.as_slice(), name).is_none()
}

/// The end of a paragraph that a tag makes.
#[tactic(auto, unfolding(crate::specs::Tags::paragraph_kind))]
fn paragraph(sp: bool, name: &[u8]) -> Option<MarkKind>
    ensures { result ≡ paragraph_kind sp name.now }
{
    if sp && block(name) {
        Some(MarkKind::Paragraph)
    } else {
        None
    }
}

/// What a tag does to its zone.
#[tactic(auto, unfolding(crate::specs::Tags::zone_kind))]
fn zone(zones: &[Name], tag: &Tag<'_>) -> Option<MarkKind>
    requires { length zones.now ≤ 65536 }
    ensures { result ≡ zone_kind zones.now (tag_text tag.now) }
{
    if tag.empty {
        return None;
    }
    match zone_number(zones, tag.name) {
        None => None,
        Some(number) => {
            if tag.closing {
                Some(MarkKind::Close(number as u16))
            } else {
                Some(MarkKind::Open(number as u16))
            }
        }
    }
}

/// Appends a mark, where there is one.
fn push_kind(
    list: &mut Vec<Mark>,
    kind: Option<MarkKind>,
    from: u32,
    to: u32,
) -> Result<(), NoMemory>
    ensures { OnOk result (list.new.items ≡ list.old.items ++ map (span from to) (option_to_list kind)) }
{
    match kind {
        Some(kind) => {
            list.push(Mark { kind, from, to })?;
            Ok(())
        }
        None => Ok(()),
    }
}

/// Appends the marks of a tag that stands from a place up to another.
pub(crate) fn push_tag(
    list: &mut Vec<Mark>,
    rules: &MarkRules,
    tag: &Tag<'_>,
    from: u32,
    to: u32,
) -> Result<(), NoMemory>
    requires { length rules.now.zones ≤ 65536 }
    ensures { OnOk result (list.new.items ≡ list.old.items ++ map (span from to) (tag_kinds rules.now.sp rules.now.zones (tag_text tag.now))) }
{
    if removed(rules, tag.name) {
        return push_kind(list, Some(MarkKind::Inline), from, to);
    }
    push_kind(list, paragraph(rules.sp, tag.name), from, to)?;
    push_kind(list, zone(rules.zones.as_slice(), tag), from, to)?;
    Ok(())
}
