//! That a schema can be made, copied and compared, and in which order spans and words stand. Contracts leave open when memory is
//! refused, so a copy that never succeeds would meet them.
use doc_types::{AttrKind, Gap, Schema, ZoneSpan};
use srch_base::{Items, Name};
use std::alloc::Global;

/// The name of a field.
fn field_names(alloc: Global) -> Option<Items<Name>> {
    let title = Name::from_slice(alloc, b"title").ok()?;
    Some(Items::new(Vec::from_array(alloc, [title]).ok()?))
}

/// An attribute.
fn attrs(alloc: Global) -> Option<Items<(Name, AttrKind)>> {
    let gid = Name::from_slice(alloc, b"gid").ok()?;
    Some(Items::new(Vec::from_array(alloc, [(gid, AttrKind::Uint)]).ok()?))
}

/// A schema of a field and an attribute.
fn schema(alloc: Global) -> Option<Schema> {
    Some(Schema {
        name: Name::from_slice(alloc, b"rt").ok()?,
        fields: field_names(alloc)?,
        attrs: attrs(alloc)?,
        zones: Items::new(Vec::new(alloc)),
        sp: true,
        min_prefix: 0,
    })
}

/// Whether a schema is its own copy, and has that attribute.
fn has_its_columns(schema: &Schema) -> Option<bool> {
    let (name, kind) = schema.attrs.as_slice().first()?;
    let is_attr = name.as_bytes() == b"gid".as_slice() && *kind == AttrKind::Uint;
    Some(schema.clone().ok()? == *schema && is_attr)
}

/// Whether that schema is.
fn is_schema(alloc: Global) -> Option<bool> {
    has_its_columns(&schema(alloc)?)
}

#[test]
fn a_schema_has_its_columns(rt: HostRuntime) {
    assert!(rt; is_schema(rt.alloc()) == Some(true));
}

/// Whether the last word of `She left. He`, whose position is 4, stands a step after 2, and a span comes before the same span of the
/// next zone, and not before itself.
fn are_in_order() -> bool {
    let span = ZoneSpan {
        zone: 0,
        first: 2,
        last: 4,
    };
    let next = ZoneSpan { zone: 1, ..span };
    2 + Gap::Sentence.step() == 4 && span.precedes(&next) && !span.precedes(&span)
}

#[test]
fn words_and_spans_are_in_order(rt: HostRuntime) {
    assert!(rt; are_in_order());
}
