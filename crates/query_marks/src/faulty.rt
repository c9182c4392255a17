//! What is wrong with a piece by itself.
ghost use Rattle.std.specs.Prelude.{◌≡◌, IfOk};
ghost use Rattle.query_marks.specs.LimitNames.{bytes_of as bytes_in};
ghost use Rattle.query_marks.specs.Marks.{nameless as nameless_fault, naming as naming_fault, wrong_span as span_fault, wrong_positions as positions_fault, wrong_fields as fields_fault, wrong_zones as zones_fault};

use crate::fault::{QueryKind, Wrong};
use crate::names::{first_unknown, has_long};
use crate::numbers::number_of;
use crate::slices::bytes_of;
use crate::state::State;
use query_pieces::{Names, Slice};
use sqlite_items::Boxed;
use srch_base::{Name, NoMemory};
use std::alloc::Global;

/// A fault without a name.
pub(crate) fn nameless(alloc: Global, kind: QueryKind) -> Result<Option<Boxed<Wrong>>, NoMemory>
    ensures { IfOk result (λ wrong. wrong ≡ nameless_fault kind) }
{
    let name = Name::new(Vec::new(alloc));
    let wrong = Boxed::new(alloc, Wrong { kind, name })?;
    Ok(Some(wrong))
}

/// A fault with the name in small letters.
fn naming(alloc: Global, kind: QueryKind, name: &[u8]) -> Result<Option<Boxed<Wrong>>, NoMemory>
    ensures { IfOk result (λ wrong. wrong ≡ naming_fault kind name.now) }
{
    let name = Name::new(name.to_ascii_lowercase(alloc)?);
    let wrong = Boxed::new(alloc, Wrong { kind, name })?;
    Ok(Some(wrong))
}

/// What is wrong with `<<` or NEAR where ZONESPAN is in force in its group.
pub(crate) fn wrong_span(alloc: Global, state: &State) -> Result<Option<Boxed<Wrong>>, NoMemory>
    ensures { IfOk result (λ wrong. wrong ≡ span_fault state.now) }
{
    if state.here.span {
        nameless(alloc, QueryKind::ZoneSpanBeforeOperator)
    } else {
        Ok(None)
    }
}

/// What is wrong with `[N]`.
fn wrong_positions(
    alloc: Global,
    text: &[u8],
    positions: Option<Slice>,
) -> Result<Option<Boxed<Wrong>>, NoMemory>
    ensures { IfOk result (λ wrong. wrong ≡ positions_fault text.now positions) }
{
    match positions {
        Some(digits) => {
            if number_of(bytes_of(text, digits)) == 0 {
                nameless(alloc, QueryKind::NumberOutOfRange)
            } else {
                Ok(None)
            }
        }
        None => Ok(None),
    }
}

/// What is wrong with a field limit: an unknown name, a name that is too long, and then the number.
pub(crate) fn wrong_fields(
    alloc: Global,
    fields: &[Name],
    relaxed: bool,
    text: &[u8],
    names: Names,
    positions: Option<Slice>,
) -> Result<Option<Boxed<Wrong>>, NoMemory>
    ensures { IfOk result (λ wrong. wrong ≡ fields_fault fields.now relaxed text.now names positions) }
{
    match names {
        Names::All => wrong_positions(alloc, text, positions),
        Names::Listed(slice) => {
            let names = bytes_of(text, slice);
            if !relaxed {
                if let Some(name) = first_unknown(fields, names) {
                    return naming(alloc, QueryKind::UnknownField, name);
                }
            }
            if has_long(names) {
                return nameless(alloc, QueryKind::NameTooLong);
            }
            wrong_positions(alloc, text, positions)
        }
    }
}

/// What is wrong with the names of a zone limit. Without zones in the index nothing is.
pub(crate) fn wrong_zones(
    alloc: Global,
    zones: &[Name],
    names: &[u8],
) -> Result<Option<Boxed<Wrong>>, NoMemory>
    ensures { IfOk result (λ wrong. wrong ≡ zones_fault zones.now names.now) }
{
    if zones.is_empty() {
        return Ok(None);
    }
    if let Some(name) = first_unknown(zones, names) {
        return naming(alloc, QueryKind::UnknownZone, name);
    }
    if has_long(names) {
        nameless(alloc, QueryKind::NameTooLong)
    } else {
        Ok(None)
    }
}
