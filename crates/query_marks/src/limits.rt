//! Limits in force. The zones are kept by the offsets of their names, so that a group costs no copy of them.
ghost use Rattle.std.specs.Prelude.{◌≡◌, ◌≤◌, true, false, None, length};
ghost use Rattle.query_marks.specs.Limits.{keeps as keeps_field, mask as mask_of, positions_of as positions_in, field_limits as field_limits_of, zone_limits as zone_limits_of};

use crate::names::is_listed;
use crate::numbers::number_of;
use crate::slices::bytes_of;
use query_pieces::{FieldLimit, Names, Slice, ZoneLimit};
use srch_base::Name;

/// The limits in force before a piece.
#[derive(Clone, Copy, PartialEq, Eq)]
pub struct Limits {
    /// The fields, the first of the schema by the lowest bit.
    pub fields: u32,
    /// The greatest position.
    pub positions: u32,
    /// Where the names of the zones stand, if zones are limited.
    pub zones: Option<Slice>,
    /// ZONESPAN is in force in the group.
    pub span: bool,
}

/// Whether a field limit keeps a field.
fn keeps(text: &[u8], negated: bool, names: Names, field: &Name) -> bool
    ensures { result ≡ keeps_field text.now negated names field.now }
{
    match names {
        Names::All => !negated,
        Names::Listed(names) => {
            let listed = is_listed(bytes_of(text, names), field.as_bytes());
            if negated { !listed } else { listed }
        }
    }
}

/// The fields that a limit keeps.
fn mask(text: &[u8], fields: &[Name], negated: bool, names: Names) -> u32
    requires { length fields.now ≤ 32 }
    ensures { result ≡ mask_of (keeps_field text.now negated names) fields.now }
{
    let mut mask: u32 = 0;
    let mut k = fields.len();
    'fields: while k > 0 {
        k -= 1;
        mask *= 2;
        if keeps(text, negated, names, &fields[k]) {
            mask += 1;
        }
    }
    mask
}

/// The greatest position that a field limit allows.
fn positions_of(text: &[u8], positions: Option<Slice>) -> u32
    ensures { result ≡ positions_in text.now positions }
{
    match positions {
        Some(digits) => number_of(bytes_of(text, digits)),
        None => 65_535,
    }
}

/// What a field limit leaves in force: it replaces field, position and zone limit.
pub(crate) fn field_limits(text: &[u8], fields: &[Name], limit: FieldLimit) -> Limits
    requires { length fields.now ≤ 32 }
    ensures { result ≡ field_limits_of fields.now text.now limit }
{
    Limits {
        fields: mask(text, fields, limit.negated, limit.names),
        positions: positions_of(text, limit.positions),
        zones: None,
        span: false,
    }
}

/// What a zone limit leaves in force. Without zones in the index it changes nothing.
pub(crate) fn zone_limits(zones: &[Name], here: Limits, limit: ZoneLimit) -> Limits
    ensures { result ≡ zone_limits_of zones.now limit here }
{
    if zones.is_empty() {
        here
    } else {
        Limits {
            fields: here.fields,
            positions: here.positions,
            zones: if limit.span { None } else { Some(limit.names) },
            span: limit.span,
        }
    }
}

/// The limits before the first piece: all fields, all positions, no zones.
pub(crate) fn all_fields(fields: &[Name]) -> Limits
    requires { length fields.now ≤ 32 }
    ensures { result ≡ record { fields = mask_of (λ field. true) fields.now; positions = 65535; zones = None; span = false } }
{
    Limits {
        fields: mask(&[], fields, false, Names::All),
        positions: 65_535,
        zones: None,
        span: false,
    }
}
