//! Marks: what a row has beside its words, as short numbers.
//!
//! ```text
//! each field      position of its last word, number of its boundaries, and these
//!   a boundary    twice the distance of its position from the one before, and 1 more where a paragraph ends
//! all spans       their number, and these
//!   a span        field, zone, position of its first word, distance of its last word from that
//! ```
//!
//! The image is thrown away where memory is refused, so nothing is said of what was written until then.
ghost use Rattle.std.specs.Prelude.{◌≡◌, ◌<◌, ◌≤◌, ◌^◌, ◌++◌, ◌-◌, All, OnOk, length, map, sum_by};
ghost use Rattle.std.specs.List.{flat_map, filter};
ghost use Rattle.doc_types.specs.Documents.{IsDocOf, IsField};
ghost use Rattle.doc_types.specs.Schemas.{IsSchema};
ghost use Rattle.doc_types.specs.declared.schema.Schema.{Schema};
ghost use Rattle.doc_types.specs.declared.tokens.TheConstants.{MAX_POSITION};
ghost use Rattle.doc_types.specs.Chunks.{is_boundary, spans_of};
ghost use Rattle.posting_codec.specs.Numbers.{number};
ghost use Rattle.chunk_image.specs.Marks.{gap_numbers, kind_bit, row_marks};
ghost use Rattle.image_write.specs.Written.{row_of};
ghost use Rattle.image_write.specs.steps.Marking.{field_marks, marks_in, span_marks};

use doc_types::{Doc, FieldTokens, Gap, TokenWord, ZoneSpan};
use posting_codec::put_number;
use srch_base::NoMemory;

/// Appends the marks of a document.
#[tactic(auto, unfolding(chunk_image::specs::Marks::row_marks))]
pub(crate) fn put_marks(doc: &Doc, out: &mut Vec<u8>) -> Result<(), NoMemory>
    requires { (schema : Schema) × IsSchema schema × IsDocOf schema doc.now }
    ensures { OnOk result (out.new.items ≡ out.old.items ++ row_marks (row_of doc.now 0)) }
{
    put_fields(doc.fields.as_slice(), out)?;
    put_number(count_spans(doc.fields.as_slice()), out)?;
    put_spans(doc, out)
}

/// Appends the positions of last words and the boundaries, field by field.
fn put_fields(fields: &[FieldTokens], out: &mut Vec<u8>) -> Result<(), NoMemory>
    requires { All IsField fields.now }
    ensures { OnOk result (out.new.items ≡ out.old.items ++ flat_map field_marks fields.now) }
{
    for field in fields {
        put_field(field, out)?;
    }
    Ok(())
}

/// Appends the position of the field's last word, the number of its boundaries, and these.
fn put_field(field: &FieldTokens, out: &mut Vec<u8>) -> Result<(), NoMemory>
    requires { IsField field.now }
    ensures { OnOk result (out.new.items ≡ out.old.items ++ field_marks field.now) }
{
    let words = field.words.as_slice();
    let last = match words.last() {
        Some(token) => token.position,
        None => 0,
    };
    put_number(last, out)?;
    put_number(count_gaps(words), out)?;
    put_gaps(words, out)
}

/// How many words have a boundary before them.
fn count_gaps(words: &[TokenWord]) -> u32
    requires { length words.now < 2 ^ 32 }
    ensures { result ≡ length (filter (λ token. is_boundary token.gap) words.now) }
{
    let mut count = 0;
    for token in words {
        if token.gap != Gap::None {
            count += 1;
        }
    }
    count
}

/// Appends the boundaries of a field.
fn put_gaps(words: &[TokenWord], out: &mut Vec<u8>) -> Result<(), NoMemory>
    requires { All (λ word. word.position ≤ MAX_POSITION) words.now }
    ensures { OnOk result (out.new.items ≡ out.old.items ++ flat_map number (gap_numbers 0 (map (λ token. (token.position - 1, token.gap)) (filter (λ token. is_boundary token.gap) words.now)))) }
{
    let mut before = 0;
    for token in words {
        if token.gap != Gap::None {
            let taken = token.position.saturating_sub(1);
            let distance = taken.saturating_sub(before);
            put_number(2 * distance + kind_bit(token.gap), out)?;
            before = taken;
        }
    }
    Ok(())
}

/// The bit of a boundary's kind.
#[inline]
fn kind_bit(gap: Gap) -> u32
    ensures is { result ≡ kind_bit gap }
    ensures small { result ≤ 1 }
{
    match gap {
        Gap::None | Gap::Sentence => 0,
        Gap::Paragraph => 1,
    }
}

/// How many spans some fields have.
fn count_spans(fields: &[FieldTokens]) -> u32
    requires { sum_by (λ tokens. length tokens.spans) fields.now < 2 ^ 32 }
    ensures { result ≡ sum_by (λ tokens. length tokens.spans) fields.now }
{
    let mut count: u32 = 0;
    for field in fields {
        count += field.spans.len() as u32;
    }
    count
}

/// Appends the spans of a document.
fn put_spans(doc: &Doc, out: &mut Vec<u8>) -> Result<(), NoMemory>
    requires { length doc.now.fields < 2 ^ 16 }
    ensures { OnOk result (out.new.items ≡ out.old.items ++ flat_map span_marks (spans_of (row_of doc.now 0))) }
{
    for (number, field) in doc.fields.as_slice().iter().enumerate() {
        put_field_spans(number as u16, field.spans.as_slice(), out)?;
    }
    Ok(())
}

/// Appends the spans of the field of this number.
fn put_field_spans(field: u16, spans: &[ZoneSpan], out: &mut Vec<u8>) -> Result<(), NoMemory>
    ensures { OnOk result (out.new.items ≡ out.old.items ++ flat_map (marks_in field) spans.now) }
{
    for span in spans {
        put_span(field, span, out)?;
    }
    Ok(())
}

fn put_span(field: u16, span: &ZoneSpan, out: &mut Vec<u8>) -> Result<(), NoMemory>
    ensures { OnOk result (out.new.items ≡ out.old.items ++ marks_in field span.now) }
{
    put_number(u32::from(field), out)?;
    put_number(u32::from(span.zone), out)?;
    put_number(span.first, out)?;
    put_number(span.last.saturating_sub(span.first), out)
}
