//! Marks of a row: short numbers. They are of each field the position of its last word, the number of its boundaries and these; then
//! the number of the spans and these. One pass over them gives what is asked for of all fields.
ghost use Rattle.std.specs.Prelude.{◌≡◌, ◌+◌, ◌-◌, ◌%◌, ◌<◌, ◌≤◌, ◌++◌, ◌==◌, ℕ, List, [], ◌∷◌, Some, All, if◌then◌else◌, length, map, take, drop, slice_get, OnOk, OnErr, IfOk};
ghost use Rattle.std.specs.List.{enumerate_from, flat_map};
ghost use Rattle.std.specs.Option.{option_map, option_map_or};
ghost use Rattle.doc_types.specs.declared.documents.DocRow.{DocRow};
ghost use Rattle.doc_types.specs.declared.tokens.FieldTokens.{FieldTokens};
ghost use Rattle.doc_types.specs.declared.tokens.Gap.{Gap as AnyGap};
ghost use Rattle.doc_types.specs.declared.tokens.ZoneSpan.{ZoneSpan as AnySpan};
ghost use Rattle.doc_types.specs.Chunks.{by_field, gaps_of, last_position, spans_of};
ghost use Rattle.chunk_image.specs.Marks.{field_numbers, gap_numbers, mark_numbers, row_marks, span_numbers};
ghost use Rattle.image_parts.specs.Images.{ArePartsOf, HaveImage};
ghost use Rattle.image_parts.specs.steps.Reading.{AreNumbersAt, GoOn, IsRoomy};

use crate::fixed::u32_in;
use crate::numbers::{behind_numbers, next_number};
use crate::parts::Parts;
use doc_types::{Gap, ZoneSpan};
use srch_base::NoMemory;

/// The bytes of the row's marks, to be copied where chunks are put together.
pub fn marks_of(image: &[u8], parts: Parts, row: u32) -> &[u8]
    requires { (rows : List DocRow) × (words : List (List ℕ)) × HaveImage rows words image.now × ArePartsOf rows words parts × (row < length rows) }
    ensures { (rows : List DocRow) (words : List (List ℕ)) → HaveImage rows words image.now → ArePartsOf rows words parts → option_map row_marks (slice_get rows row) ≡ Some result.now }
{
    let begin = parts.marks_place(image, row);
    let end = parts.marks_end(image, row);
    part_of(image, begin, end)
}

/// Appends the positions of the last words of the row's fields, field by field, each 0 where the field has no word.
pub fn put_lasts(image: &[u8], parts: Parts, row: u32, into: &mut Vec<u32>) -> Result<(), NoMemory>
    requires { (rows : List DocRow) × (words : List (List ℕ)) × HaveImage rows words image.now × ArePartsOf rows words parts × (row < length rows) }
    ensures ok { OnOk result ((rows : List DocRow) (words : List (List ℕ)) → HaveImage rows words image.now → ArePartsOf rows words parts → into.new.items ≡ into.old.items ++ option_map_or (λ found. map last_position found.doc.fields) (slice_get rows row) []) }
    ensures err { OnErr result (into.new.items ≡ into.old.items) }
{
    let before = into.len();
    let at = parts.marks_place(image, row);
    if put_field_lasts(image, at, parts.fields, into).is_err() {
        into.truncate(before);
        return Err(NoMemory);
    }
    Ok(())
}

/// Appends the boundaries of the row, each with its field and the position that it takes, by field and position.
pub fn put_gaps(
    image: &[u8],
    parts: Parts,
    row: u32,
    into: &mut Vec<(u16, (u32, Gap))>,
) -> Result<(), NoMemory>
    requires { (rows : List DocRow) × (words : List (List ℕ)) × HaveImage rows words image.now × ArePartsOf rows words parts × (row < length rows) }
    ensures ok { OnOk result ((rows : List DocRow) (words : List (List ℕ)) → HaveImage rows words image.now → ArePartsOf rows words parts → into.new.items ≡ into.old.items ++ option_map_or (by_field gaps_of) (slice_get rows row) []) }
    ensures err { OnErr result (into.new.items ≡ into.old.items) }
{
    let before = into.len();
    let at = parts.marks_place(image, row);
    if put_fields_gaps(image, at, parts.fields, into).is_err() {
        into.truncate(before);
        return Err(NoMemory);
    }
    Ok(())
}

/// Appends the spans of zones of the row, each with its field, by field, first position, last position and zone.
pub fn put_spans(
    image: &[u8],
    parts: Parts,
    row: u32,
    into: &mut Vec<(u16, ZoneSpan)>,
) -> Result<(), NoMemory>
    requires { (rows : List DocRow) × (words : List (List ℕ)) × HaveImage rows words image.now × ArePartsOf rows words parts × (row < length rows) }
    ensures ok { OnOk result ((rows : List DocRow) (words : List (List ℕ)) → HaveImage rows words image.now → ArePartsOf rows words parts → into.new.items ≡ into.old.items ++ option_map_or spans_of (slice_get rows row) []) }
    ensures err { OnErr result (into.new.items ≡ into.old.items) }
{
    let before = into.len();
    let at = behind_fields(image, parts.marks_place(image, row), parts.fields);
    if put_counted_spans(image, at, into).is_err() {
        into.truncate(before);
        return Err(NoMemory);
    }
    Ok(())
}

impl Parts {
    /// Where the row's marks begin.
    #[inline]
    fn marks_place(self, image: &[u8], row: u32) -> usize
        requires { (rows : List DocRow) × (words : List (List ℕ)) × HaveImage rows words image.now × ArePartsOf rows words self × (row < length rows) }
        ensures place { (rows : List DocRow) (words : List (List ℕ)) → HaveImage rows words image.now → ArePartsOf rows words self → result ≡ self.marks + length (flat_map row_marks (take row rows)) }
        ensures numbers { (rows : List DocRow) (words : List (List ℕ)) (found : DocRow) → HaveImage rows words image.now → ArePartsOf rows words self → slice_get rows row ≡ Some found → AreNumbersAt image.now result (mark_numbers found) }
    {
        self.marks + u32_in(image, self.place(row) + self.stride - 4) as usize
    }

    /// Where they end.
    fn marks_end(self, image: &[u8], row: u32) -> usize
        requires { (rows : List DocRow) × (words : List (List ℕ)) × HaveImage rows words image.now × ArePartsOf rows words self × (row < length rows) }
        ensures { (rows : List DocRow) (words : List (List ℕ)) (found : DocRow) → HaveImage rows words image.now → ArePartsOf rows words self → slice_get rows row ≡ Some found → result ≡ self.marks + length (flat_map row_marks (take row rows)) + length (row_marks found) }
    {
        if row + 1 < self.rows {
            self.marks_place(image, row + 1)
        } else {
            self.table
        }
    }
}

/// The bytes between two places.
#[inline]
fn part_of(bytes: &[u8], begin: usize, end: usize) -> &[u8]
    requires order { begin ≤ end }
    requires within { end ≤ length bytes.now }
    ensures { result.now ≡ take (end - begin) (drop begin bytes.now) }
{
    &bytes[begin..end]
}

/// Appends the positions of last words of so many fields, whose marks begin here.
fn put_field_lasts(bytes: &[u8], at: usize, count: u16, into: &mut Vec<u32>) -> Result<(), NoMemory>
    requires { (fields : List FieldTokens) × (others : List ℕ) × AreNumbersAt bytes.now at (flat_map field_numbers fields ++ others) × (length fields ≡ count) }
    ensures ok { OnOk result ((fields : List FieldTokens) (others : List ℕ) → AreNumbersAt bytes.now at (flat_map field_numbers fields ++ others) → length fields ≡ count → into.new.items ≡ into.old.items ++ map last_position fields) }
    ensures front { take (length into.old.items) into.new.items ≡ into.old.items }
{
    let mut place = at;
    'fields: for _ in 0..count {
        let (last, counted) = next_number(bytes, place);
        into.push(last)?;
        place = behind_gaps(bytes, counted);
    }
    Ok(())
}

/// The place behind the marks of so many fields.
fn behind_fields(bytes: &[u8], at: usize, count: u16) -> usize
    requires { (fields : List FieldTokens) × (others : List ℕ) × AreNumbersAt bytes.now at (flat_map field_numbers fields ++ others) × (length fields ≡ count) }
    ensures { (fields : List FieldTokens) (others : List ℕ) → AreNumbersAt bytes.now at (flat_map field_numbers fields ++ others) → length fields ≡ count → AreNumbersAt bytes.now result others }
{
    let mut place = at;
    'fields: for _ in 0..count {
        let counted = next_number(bytes, place).1;
        place = behind_gaps(bytes, counted);
    }
    place
}

/// The place behind the boundaries of a field, whose number stands here.
#[inline]
fn behind_gaps(bytes: &[u8], at: usize) -> usize
    requires { (numbers : List ℕ) × (others : List ℕ) × AreNumbersAt bytes.now at (length numbers ∷ (numbers ++ others)) }
    ensures { (numbers : List ℕ) (others : List ℕ) → AreNumbersAt bytes.now at (length numbers ∷ (numbers ++ others)) → AreNumbersAt bytes.now result others }
{
    let (count, first) = next_number(bytes, at);
    behind_numbers(bytes, first, count)
}

/// Appends the boundaries of so many fields, whose marks begin here.
fn put_fields_gaps(
    bytes: &[u8],
    at: usize,
    count: u16,
    into: &mut Vec<(u16, (u32, Gap))>,
) -> Result<(), NoMemory>
    requires { (fields : List FieldTokens) × (others : List ℕ) × AreNumbersAt bytes.now at (flat_map field_numbers fields ++ others) × (length fields ≡ count) × All (λ tokens. GoOn 0 (gaps_of tokens)) fields }
    ensures ok { OnOk result ((fields : List FieldTokens) (others : List ℕ) → AreNumbersAt bytes.now at (flat_map field_numbers fields ++ others) → length fields ≡ count → All (λ tokens. GoOn 0 (gaps_of tokens)) fields → into.new.items ≡ into.old.items ++ flat_map (λ e. map (λ x. (e.0, x)) (gaps_of e.1)) (enumerate_from 0 fields)) }
    ensures front { take (length into.old.items) into.new.items ≡ into.old.items }
{
    let mut place = at;
    'fields: for field in 0..count {
        let counted = next_number(bytes, place).1;
        place = put_field_gaps(bytes, counted, field, into)?;
    }
    Ok(())
}

/// Appends the boundaries of a field, whose number stands here, and gives the place behind them.
fn put_field_gaps(
    bytes: &[u8],
    at: usize,
    field: u16,
    into: &mut Vec<(u16, (u32, Gap))>,
) -> Result<usize, NoMemory>
    requires { (gaps : List (ℕ × AnyGap)) × (others : List ℕ) × AreNumbersAt bytes.now at (length gaps ∷ (gap_numbers 0 gaps ++ others)) × GoOn 0 gaps }
    ensures ok { IfOk result (λ end. (gaps : List (ℕ × AnyGap)) (others : List ℕ) → AreNumbersAt bytes.now at (length gaps ∷ (gap_numbers 0 gaps ++ others)) → GoOn 0 gaps → (into.new.items ≡ into.old.items ++ map (λ x. (field, x)) gaps) × AreNumbersAt bytes.now end others) }
    ensures front { take (length into.old.items) into.new.items ≡ into.old.items }
{
    let (count, mut place) = next_number(bytes, at);
    let mut position = 0;
    'gaps: for _ in 0..count {
        let (number, next) = next_number(bytes, place);
        position += number / 2;
        place = next;
        into.push((field, (position, kind_of(number))))?;
    }
    Ok(place)
}

/// The kind of a boundary, by the lowest bit of its number.
#[inline]
fn kind_of(number: u32) -> Gap
    ensures { result ≡ (if number % 2 == 0 then AnyGap.Sentence else AnyGap.Paragraph) }
{
    if number % 2 == 0 {
        Gap::Sentence
    } else {
        Gap::Paragraph
    }
}

/// Appends spans, whose number stands here.
fn put_counted_spans(
    bytes: &[u8],
    at: usize,
    into: &mut Vec<(u16, ZoneSpan)>,
) -> Result<(), NoMemory>
    requires { (spans : List (ℕ × AnySpan)) × AreNumbersAt bytes.now at (length spans ∷ flat_map span_numbers spans) × All IsRoomy spans }
    ensures ok { OnOk result ((spans : List (ℕ × AnySpan)) → AreNumbersAt bytes.now at (length spans ∷ flat_map span_numbers spans) → All IsRoomy spans → into.new.items ≡ into.old.items ++ spans) }
    ensures front { take (length into.old.items) into.new.items ≡ into.old.items }
{
    let (count, mut place) = next_number(bytes, at);
    'spans: for _ in 0..count {
        let (span, next) = span_at(bytes, place);
        place = next;
        into.push(span)?;
    }
    Ok(())
}

/// The span at a place, with its field, and the place behind it.
fn span_at(bytes: &[u8], at: usize) -> ((u16, ZoneSpan), usize)
    requires { (span : ℕ × AnySpan) × (others : List ℕ) × AreNumbersAt bytes.now at (span_numbers span ++ others) × IsRoomy span }
    ensures { (span : ℕ × AnySpan) (others : List ℕ) → AreNumbersAt bytes.now at (span_numbers span ++ others) → IsRoomy span → (result.0 ≡ span) × AreNumbersAt bytes.now result.1 others }
{
    let (field, at) = next_number(bytes, at);
    let (zone, at) = next_number(bytes, at);
    let (first, at) = next_number(bytes, at);
    let (length, at) = next_number(bytes, at);
    let span = ZoneSpan {
        zone: zone as u16,
        first,
        last: first + length,
    };
    ((field as u16, span), at)
}
