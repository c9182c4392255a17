//! The mark of a piece, and the state after it.
ghost use Rattle.std.specs.Prelude.{◌≡◌, ◌≤◌, ◌<◌, ◌^◌, IfOk, OnOk, Some, None, length};
ghost use Rattle.std.specs.Option.{option_map};
ghost use Rattle.std.specs.Str.{chars};
ghost use Rattle.charset_map.specs.Spans.{folded};
ghost use Rattle.query_pieces.specs.declared.piece.Form.TheVariants as forms;
ghost use Rattle.query_marks.specs.LimitNames.{bytes_of as bytes_in, number_of as number_in};
ghost use Rattle.query_marks.specs.Limits.{field_limits as field_limits_of, zone_limits as zone_limits_of};
ghost use Rattle.query_marks.specs.declared.mark.Sign.TheVariants as signs;
ghost use Rattle.query_marks.specs.QueryWords.{letters_in};
ghost use Rattle.query_marks.specs.Marks.{setting_of, mark_of, mark_at, after, with_limits, wrong_count as wrong_count_of, wrong_word as wrong_word_of, is_short as is_too_short, wrong_quoted as wrong_quoted_of, wrong_near as wrong_near_of, wrong_fields as wrong_fields_of, wrong_zones as wrong_zones_of, zone_sign as zone_sign_of};
ghost use Rattle.query_marks.specs.steps.Cuts.{IsCut, AreCut};

use crate::fault::{QueryKind, Wrong};
use crate::faulty::{nameless, wrong_fields, wrong_span, wrong_zones};
use crate::keys::keys;
use crate::limits::{field_limits, zone_limits};
use crate::mark::{Mark, Sign};
use crate::numbers::{how_of, is_out, number_of};
use crate::signs::{quoted_sign, word_sign, zone_sign};
use crate::slices::bytes_of;
use crate::state::State;
use crate::steps::{close, count, open, passes_limit};
use crate::words::{characters, count_words, letters};
use charset_map::Charset;
use doc_types::Schema;
use query_pieces::{FieldLimit, Form, Quotation, Slice, Spelling, ZoneLimit};
use sqlite_items::Boxed;
use srch_base::NoMemory;
use std::alloc::Global;

/// The letters of a slice.
fn slice_letters(
    alloc: Global,
    charset: &Charset,
    text: &str,
    slice: Slice,
) -> Result<Vec<Option<char>>, NoMemory>
    requires { IsCut text.now slice }
    ensures { IfOk result (λ list. list.items ≡ letters_in (folded charset.now) (chars (bytes_in text.now slice))) }
{
    let characters = characters(alloc, &text[slice.from..slice.to])?;
    letters(alloc, charset, characters.as_slice())
}

/// A mark, where there is a sign.
fn marked(at: u32, sign: Option<Sign>, wrong: Option<Boxed<Wrong>>) -> Option<Mark>
    ensures { result ≡ option_map (mark_at at wrong) sign }
{
    match sign {
        Some(sign) => Some(Mark { at, sign, wrong }),
        None => None,
    }
}

/// What is wrong with so many words more.
fn wrong_count(alloc: Global, state: &State, more: usize) -> Result<Option<Boxed<Wrong>>, NoMemory>
    ensures { IfOk result (λ wrong. wrong ≡ wrong_count_of state.now.keywords more) }
{
    if passes_limit(state, more) {
        nameless(alloc, QueryKind::TooManyKeywords)
    } else {
        Ok(None)
    }
}

/// Whether a prefix has too few letters.
fn is_short(schema: &Schema, prefix: bool, letters: usize) -> bool
    ensures { result ≡ is_too_short schema.now.min_prefix prefix letters }
{
    prefix && letters < usize::from(schema.min_prefix)
}

/// What is wrong with a word: the number of its keyword, and then its letters.
fn wrong_word(alloc: Global, state: &State, short: bool) -> Result<Option<Boxed<Wrong>>, NoMemory>
    ensures { IfOk result (λ wrong. wrong ≡ wrong_word_of state.now.keywords short) }
{
    if passes_limit(state, 1) {
        nameless(alloc, QueryKind::TooManyKeywords)
    } else if short {
        nameless(alloc, QueryKind::PrefixTooShort)
    } else {
        Ok(None)
    }
}

/// Marks a word.
fn mark_word(
    alloc: Global,
    charset: &Charset,
    schema: &Schema,
    text: &str,
    state: &mut State,
    at: u32,
    spelling: Spelling,
) -> Result<Option<Mark>, NoMemory>
    requires cut { IsCut text.now spelling.letters }
    requires zones { length schema.now.zones < 2 ^ 16 }
    ensures mark { IfOk result (λ mark. mark ≡ mark_of (setting_of (folded charset.now) schema.now) state.old text.now at (forms.Word spelling)) }
    ensures state { OnOk result (state.new ≡ after (setting_of (folded charset.now) schema.now) state.old text.now (forms.Word spelling)) }
{
    let letters = slice_letters(alloc, charset, text, spelling.letters)?;
    let short = is_short(schema, spelling.prefix, letters.len());
    let wrong = wrong_word(alloc, state, short)?;
    let zones = schema.zones.as_slice();
    let keys = keys(
        alloc,
        zones,
        text.as_bytes(),
        state,
        letters.as_slice(),
        spelling.start,
        spelling.end,
    )?;
    let sign = word_sign(alloc, keys, spelling.prefix)?;
    count(state, 1);
    Ok(marked(at, sign, wrong))
}

/// What is wrong with a quoted piece.
fn wrong_quoted(
    alloc: Global,
    state: &State,
    out: bool,
    more: usize,
) -> Result<Option<Boxed<Wrong>>, NoMemory>
    ensures { IfOk result (λ wrong. wrong ≡ wrong_quoted_of state.now.keywords out more) }
{
    if out {
        nameless(alloc, QueryKind::NumberOutOfRange)
    } else {
        wrong_count(alloc, state, more)
    }
}

/// Marks a quoted piece.
fn mark_quoted(
    alloc: Global,
    charset: &Charset,
    schema: &Schema,
    text: &str,
    state: &mut State,
    at: u32,
    quotation: Quotation,
) -> Result<Option<Mark>, NoMemory>
    requires cut { IsCut text.now quotation.inside }
    requires zones { length schema.now.zones < 2 ^ 16 }
    ensures mark { IfOk result (λ mark. mark ≡ mark_of (setting_of (folded charset.now) schema.now) state.old text.now at (forms.Quoted quotation)) }
    ensures state { OnOk result (state.new ≡ after (setting_of (folded charset.now) schema.now) state.old text.now (forms.Quoted quotation)) }
{
    let letters = slice_letters(alloc, charset, text, quotation.inside)?;
    let how = how_of(text.as_bytes(), quotation.number);
    let more = count_words(letters.as_slice());
    let wrong = wrong_quoted(alloc, state, is_out(how), more)?;
    let zones = schema.zones.as_slice();
    let keys = keys(
        alloc,
        zones,
        text.as_bytes(),
        state,
        letters.as_slice(),
        false,
        false,
    )?;
    let sign = quoted_sign(alloc, keys, how)?;
    count(state, more);
    Ok(marked(at, sign, wrong))
}

/// Marks NEAR.
fn mark_near(
    alloc: Global,
    text: &[u8],
    state: &State,
    at: u32,
    digits: Slice,
) -> Result<Option<Mark>, NoMemory>
    ensures { IfOk result (λ mark. mark ≡ Some (mark_at at (wrong_near_of state.now (number_in (bytes_in text.now digits))) (signs.Near (number_in (bytes_in text.now digits))))) }
{
    let number = number_of(bytes_of(text, digits));
    let wrong = if number == 0 {
        nameless(alloc, QueryKind::NumberOutOfRange)?
    } else {
        wrong_span(alloc, state)?
    };
    Ok(marked(at, Some(Sign::Near(number)), wrong))
}

/// Marks a field limit.
fn mark_fields(
    alloc: Global,
    schema: &Schema,
    text: &[u8],
    state: &mut State,
    at: u32,
    limit: FieldLimit,
) -> Result<Option<Mark>, NoMemory>
    requires { length schema.now.fields ≤ 32 }
    ensures mark { IfOk result (λ mark. mark ≡ Some (mark_at at (wrong_fields_of schema.now.fields state.old.relaxed text.now limit.names limit.positions) signs.Limits)) }
    ensures state { OnOk result (state.new ≡ with_limits state.old (field_limits_of schema.now.fields text.now limit)) }
{
    let fields = schema.fields.as_slice();
    let wrong = wrong_fields(
        alloc,
        fields,
        state.relaxed,
        text,
        limit.names,
        limit.positions,
    )?;
    state.here = field_limits(text, fields, limit);
    Ok(marked(at, Some(Sign::Limits), wrong))
}

/// Marks a zone limit.
fn mark_zones(
    alloc: Global,
    schema: &Schema,
    text: &[u8],
    state: &mut State,
    at: u32,
    limit: ZoneLimit,
) -> Result<Option<Mark>, NoMemory>
    requires { length schema.now.zones < 2 ^ 16 }
    ensures mark { IfOk result (λ mark. mark ≡ Some (mark_at at (wrong_zones_of schema.now.zones (bytes_in text.now limit.names)) (zone_sign_of schema.now.zones text.now limit))) }
    ensures state { OnOk result (state.new ≡ with_limits state.old (zone_limits_of schema.now.zones limit state.old.here)) }
{
    let zones = schema.zones.as_slice();
    let wrong = wrong_zones(alloc, zones, bytes_of(text, limit.names))?;
    let sign = zone_sign(alloc, zones, text, limit)?;
    state.here = zone_limits(zones, state.here, limit);
    Ok(marked(at, Some(sign), wrong))
}

/// A mark with which nothing is wrong.
fn plain(at: u32, sign: Sign) -> Option<Mark>
    ensures { result ≡ Some (mark_at at None sign) }
{
    marked(at, Some(sign), None)
}

/// Marks a piece, if it has a mark, and goes on to the state after it.
pub(crate) fn mark_piece(
    alloc: Global,
    charset: &Charset,
    schema: &Schema,
    text: &str,
    state: &mut State,
    at: u32,
    form: Form,
) -> Result<Option<Mark>, NoMemory>
    requires cut { AreCut text.now form }
    requires fields { length schema.now.fields ≤ 32 }
    requires zones { length schema.now.zones < 2 ^ 16 }
    ensures mark { IfOk result (λ mark. mark ≡ mark_of (setting_of (folded charset.now) schema.now) state.old text.now at form) }
    ensures state { OnOk result (state.new ≡ after (setting_of (folded charset.now) schema.now) state.old text.now form) }
{
    match form {
        Form::Word(spelling) => mark_word(alloc, charset, schema, text, state, at, spelling),
        Form::Quoted(quotation) => mark_quoted(alloc, charset, schema, text, state, at, quotation),
        Form::Unclosed => Ok(plain(at, Sign::Unclosed)),
        Form::Open => {
            open(state)?;
            Ok(plain(at, Sign::Open))
        }
        Form::Close => {
            close(state);
            Ok(plain(at, Sign::Close))
        }
        Form::Or => Ok(plain(at, Sign::Or)),
        Form::Before => {
            let wrong = wrong_span(alloc, state)?;
            Ok(marked(at, Some(Sign::Before), wrong))
        }
        Form::Not => Ok(plain(at, Sign::Not)),
        Form::Maybe => Ok(plain(at, Sign::Maybe)),
        Form::Sentence => Ok(plain(at, Sign::Sentence)),
        Form::Paragraph => Ok(plain(at, Sign::Paragraph)),
        Form::Near(digits) => mark_near(alloc, text.as_bytes(), state, at, digits),
        Form::Fields(limit) => mark_fields(alloc, schema, text.as_bytes(), state, at, limit),
        Form::Zones(limit) => mark_zones(alloc, schema, text.as_bytes(), state, at, limit),
        Form::Relaxed => {
            state.relaxed = true;
            Ok(plain(at, Sign::Relaxed))
        }
        Form::Separator => Ok(None),
    }
}
