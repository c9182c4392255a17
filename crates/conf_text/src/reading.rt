//! A configuration, from its lines.
//!
//! ```text
//! index NAME
//! {
//!     key = value
//! }
//! ```
//!
//! A first pass looks for a line that isn't UTF-8; a second one takes line by line: its shape by itself, then the shape
//! at its place, then what it does to the index that is being read. The first fault ends the reading; of two at one
//! line the first in the order of `ConfKind` is given.
ghost use Rattle.std.specs.Prelude.{◌≡◌, ◌||◌, nat_le, ◌<◌, ◌≤◌, ◌^◌, [], List, ℕ, IfOk, length, if◌then◌else◌};
ghost use Rattle.conf_text.specs.declared.reading.LinePlace.TheVariants.{Headed, Inside, Outside};
ghost use Rattle.conf_text.specs.Confs.{ReadsConf};
ghost use Rattle.index_conf.specs.Soundness.{IsSound};
ghost use Rattle.conf_text.specs.steps.Drafts.{AreIndexes, IsDraft};
ghost use Rattle.conf_text.specs.Faults.{fits, is_long, is_outside, is_syntax};
ghost use Rattle.conf_text.specs.Lines.{lines_of};
ghost use Rattle.conf_text.specs.steps.LineReader.{FindsBadLine, ReadsIndexes};
ghost use Rattle.srch_base.specs.declared.faults.Or.TheVariants.{Fault};
ghost use Rattle.conf_text.specs.Sections.{Entry, IndexText, after_opening, place_after, spot_at};
ghost use Rattle.conf_text.specs.Shapes.{small};
ghost use Rattle.conf_text.specs.steps.SeenShapes.{seen, value_length};
ghost use Rattle.conf_text.specs.steps.Taking.{Begins, Closes, Enters, EntersIndex, Leads, PlaceHas, TakesLine, place_of, reached};

use crate::draft::{Draft, name_is_taken};
use crate::fault::{ConfFault, ConfKind};
use crate::keys::Key;
use crate::lines::{Lines, content};
use crate::shape::{Shape, shape_of};
use crate::size::MAX_CONF_BYTES;
use crate::text::small_name;
use crate::zones::long;
use index_conf::{Conf, IndexConf, MAX_INDEXES};
use srch_base::{Items, NoMemory, Or};
use std::alloc::Global;
use std::mem;

/// A section: an index with what it has so far, or another one.
#[derive(Drop)]
enum Section {
    Index(Draft),
    Other,
}

/// Where a line stands.
#[derive(Drop)]
enum LinePlace {
    Outside,
    /// Behind the head of a section, before its `{`.
    Headed(Section),
    Inside(Section),
}

/// The configuration that a text is, or its first fault.
pub fn read_conf(alloc: Global, text: &[u8]) -> Result<Conf, Or<ConfFault>>
    ensures reads { ReadsConf text.now result }
    ensures sound { IfOk result IsSound }
{
    if text.len() > MAX_CONF_BYTES {
        return Err(fault_at(1, ConfKind::Limit));
    }
    match first_bad_line(alloc, text)? {
        Some(line) => Err(fault_at(line, ConfKind::NotText)),
        None => match read_indexes(alloc, text) {
            Err(Or::NoMemory) => Err(Or::NoMemory),
            Err(Or::Fault(fault)) => Err(Or::Fault(fault)),
            Ok(indexes) => {
                if indexes.is_empty() {
                    return Err(fault_at(1, ConfKind::Missing));
                }
                Ok(Conf { indexes })
            }
        },
    }
}

/// A fault of a line.
fn fault_at(line: u32, kind: ConfKind) -> Or<ConfFault>
    ensures { result ≡ Fault (record { line = line; kind = kind }) }
{
    Or::Fault(ConfFault { line, kind })
}

/// The number of the first line that isn't UTF-8.
fn first_bad_line(alloc: Global, text: &[u8]) -> Result<Option<u32>, NoMemory>
    requires { length text.now ≤ MAX_CONF_BYTES }
    ensures { IfOk result (λ found. FindsBadLine (lines_of text.now) found) }
{
    let mut lines = Lines::of(text);
    let mut buffer = Vec::new(alloc);
    'lines: loop {
        match lines.next_line(&mut buffer)? {
            None => return Ok(None),
            Some(head) => {
                if !head.utf8 {
                    return Ok(Some(head.number));
                }
            }
        }
    }
}

/// The indexes of a text.
fn read_indexes(alloc: Global, text: &[u8]) -> Result<Items<IndexConf>, Or<ConfFault>>
    requires { length text.now ≤ MAX_CONF_BYTES }
    ensures { ReadsIndexes (lines_of text.now) result }
{
    let mut indexes = Vec::new(alloc);
    let mut place = LinePlace::Outside;
    let mut buffer = Vec::new(alloc);
    match take_lines(alloc, text, &mut buffer, &mut indexes, &mut place) {
        Ok(()) => Ok(Items::new(indexes)),
        Err(fault) => Err(fault),
    }
}

/// Takes the lines of a text, each by way of the buffer. All that is owned is lent by the caller, who lets go of it once, however
/// the lines end.
fn take_lines(
    alloc: Global,
    text: &[u8],
    buffer: &mut Vec<u8>,
    indexes: &mut Vec<IndexConf>,
    place: &mut LinePlace,
) -> Result<(), Or<ConfFault>>
    requires short { length text.now ≤ MAX_CONF_BYTES }
    requires none { indexes.old.items ≡ [] }
    requires outside { place.old ≡ Outside }
    ensures { ReadsIndexes (lines_of text.now) (reached indexes.new.items result) }
{
    let mut lines = Lines::of(text);
    'lines: loop {
        match lines.next_line(buffer)? {
            None => return Ok(()),
            Some(head) => {
                let line = shape_of(content(buffer.as_slice()));
                match take_line(alloc, indexes, place, line, lines.is_empty()) {
                    Ok(()) => {}
                    Err(Or::NoMemory) => return Err(Or::NoMemory),
                    Err(Or::Fault(kind)) => return Err(fault_at(head.number, kind)),
                }
            }
        }
    }
}

/// Takes a line, which may be the last one, and goes on to the place after it.
fn take_line(
    alloc: Global,
    indexes: &mut Vec<IndexConf>,
    place: &mut LinePlace,
    line: Shape<'_>,
    last: bool,
) -> Result<(), Or<ConfKind>>
    requires { value_length (seen line) < 2 ^ 32 }
    ensures { (texts : List IndexText) (entries : List Entry) → AreIndexes texts indexes.old.items → PlaceHas entries place.old
        → TakesLine (spot_at texts entries (place_of place.old)) (seen line.entry) last indexes.new.items (reached place.new result) }
{
    if misplaced(place, &line, last) {
        return Err(Or::Fault(ConfKind::Syntax));
    }
    match line {
        Shape::Blank => Ok(()),
        Shape::IndexHead(name, opens) => {
            start_index(alloc, indexes.as_slice(), place, name, opens)
        }
        Shape::OtherHead(opens) => {
            go_to(place, after_head(Section::Other, opens));
            Ok(())
        }
        Shape::UnknownHead => Err(Or::Fault(ConfKind::UnknownSection)),
        Shape::Opening => {
            enter(place);
            Ok(())
        }
        Shape::Closing => close_section(alloc, indexes, place),
        Shape::Entry(key, value) => take_entry(alloc, indexes.as_slice(), place, key, value),
        Shape::Misformed => Err(Or::Fault(ConfKind::Syntax)),
    }
}

/// Goes to a place, and lets go of the one before.
fn go_to(place: &mut LinePlace, next: LinePlace)
    ensures { place.new ≡ next }
{
    *place = next;
}

/// Whether the grammar can't have a line at the place, or it is the last one and leaves a section open.
fn misplaced(place: &LinePlace, line: &Shape<'_>, last: bool) -> bool
    ensures { result ≡ is_syntax (place_of place.now) (seen line.now) last }
{
    !fitting(place, line) || (last && !ends_outside(place, line))
}

/// Whether the grammar can have a line of this shape at the place.
fn fitting(place: &LinePlace, line: &Shape<'_>) -> bool
    ensures { result ≡ fits (place_of place.now) (seen line.now) }
{
    match place {
        LinePlace::Outside => matches!(
            line,
            Shape::Blank | Shape::IndexHead(..) | Shape::OtherHead(_) | Shape::UnknownHead
        ),
        LinePlace::Headed(_) => matches!(line, Shape::Blank | Shape::Opening),
        LinePlace::Inside(_) => matches!(line, Shape::Blank | Shape::Entry(..) | Shape::Closing),
    }
}

/// Whether the line after this one stands outside of sections.
fn ends_outside(place: &LinePlace, line: &Shape<'_>) -> bool
    ensures { result ≡ is_outside (place_after (place_of place.now) (seen line.now)) }
{
    match line {
        Shape::IndexHead(..) | Shape::OtherHead(_) => false,
        Shape::Closing => true,
        _ => matches!(place, LinePlace::Outside),
    }
}

/// The place after a head.
fn after_head(section: Section, opens: bool) -> LinePlace
    ensures { result ≡ (if opens then Inside section else Headed section) }
{
    if opens {
        LinePlace::Inside(section)
    } else {
        LinePlace::Headed(section)
    }
}

/// The place after `{`.
fn after_opening(place: LinePlace) -> LinePlace
    ensures { (entries : List Entry) → PlaceHas entries place → Leads (after_opening (place_of place)) entries result }
{
    match place {
        LinePlace::Outside => LinePlace::Outside,
        LinePlace::Headed(section) => LinePlace::Inside(section),
        LinePlace::Inside(section) => LinePlace::Inside(section),
    }
}

/// Takes `{`.
fn enter(place: &mut LinePlace)
    ensures { (entries : List Entry) → PlaceHas entries place.old → Leads (after_opening (place_of place.old)) entries place.new }
{
    let headed = mem::replace(place, LinePlace::Outside);
    go_to(place, after_opening(headed));
}

/// Whether the head of an index passes a limit.
fn head_exceeds(indexes: &[IndexConf], name: &[u8]) -> bool
    ensures { result ≡ is_long name.now || nat_le MAX_INDEXES (length indexes.now) }
{
    long(name) || indexes.len() >= MAX_INDEXES
}

/// Begins an index.
fn start_index(
    alloc: Global,
    indexes: &[IndexConf],
    place: &mut LinePlace,
    name: &[u8],
    opens: bool,
) -> Result<(), Or<ConfKind>>
    ensures { (texts : List IndexText) → AreIndexes texts indexes.now → Begins texts (small name.now) opens (reached place.new result) }
{
    let name = small_name(alloc, name)?;
    if name_is_taken(indexes, name.as_bytes()) {
        return Err(Or::Fault(ConfKind::Repeated));
    }
    if head_exceeds(indexes, name.as_bytes()) {
        return Err(Or::Fault(ConfKind::Limit));
    }
    go_to(
        place,
        after_head(Section::Index(Draft::of(alloc, name)), opens),
    );
    Ok(())
}

/// Takes an entry of a section.
fn take_entry(
    alloc: Global,
    indexes: &[IndexConf],
    place: &mut LinePlace,
    key: Option<Key>,
    value: &[u8],
) -> Result<(), Or<ConfKind>>
    requires { length value.now < 2 ^ 32 }
    ensures { (texts : List IndexText) (entries : List Entry) → AreIndexes texts indexes.now → PlaceHas entries place.old
        → Enters texts entries (place_of place.old) key value.now (reached place.new result) }
{
    match place {
        LinePlace::Inside(Section::Index(draft)) => {
            take_index_entry(alloc, indexes, draft, key, value)
        }
        LinePlace::Inside(Section::Other) => Ok(()),
        LinePlace::Headed(_) => Ok(()),
        LinePlace::Outside => Ok(()),
    }
}

/// Takes an entry of an index.
fn take_index_entry(
    alloc: Global,
    indexes: &[IndexConf],
    draft: &mut Draft,
    key: Option<Key>,
    value: &[u8],
) -> Result<(), Or<ConfKind>>
    requires { length value.now < 2 ^ 32 }
    ensures { (texts : List IndexText) (entries : List Entry) → AreIndexes texts indexes.now → IsDraft draft.old.name entries draft.old
        → EntersIndex texts entries draft.old.name key value.now (reached draft.new result) }
{
    match key {
        None => Err(Or::Fault(ConfKind::UnknownKey)),
        Some(key) => draft.take(alloc, indexes, key, value),
    }
}

/// Ends a section.
fn close_section(
    alloc: Global,
    indexes: &mut Vec<IndexConf>,
    place: &mut LinePlace,
) -> Result<(), Or<ConfKind>>
    ensures { (texts : List IndexText) (entries : List Entry) → AreIndexes texts indexes.old.items → PlaceHas entries place.old
        → Closes texts entries (place_of place.old) indexes.new.items (reached place.new result) }
{
    let ended = mem::replace(place, LinePlace::Outside);
    match ended {
        LinePlace::Inside(Section::Index(draft)) => {
            indexes.push(draft.end(alloc)?)?;
            Ok(())
        }
        _ => Ok(()),
    }
}
