//! The marks of a text, from left to right.
ghost use Rattle.std.specs.Prelude.{◌≡◌, ◌≤◌, ◌<◌, ◌^◌, ◌++◌, ◌∷◌, [], ◌&&◌, ◌||◌, not, nat_lt, List, IfOk, OnOk, None, length, option_to_list};
ghost use Rattle.charset_map.specs.Spans.{folded};
ghost use Rattle.doc_types.specs.Schemas.{IsSchema};
ghost use Rattle.query_pieces.specs.declared.piece.Piece.{Piece};
ghost use Rattle.query_pieces.specs.Pieces.{ends_in_letter, ArePieces};
ghost use Rattle.query_marks.specs.declared.mark.Sign.TheVariants as signs;
ghost use Rattle.query_marks.specs.Marks.{alphabet_in, setting_of, mark_at, marks_of};
ghost use Rattle.query_marks.specs.Enough.{has_not, has_wrong, AreEnough};

use crate::mark::{Mark, Sign};
use crate::marking::mark_piece;
use crate::state::State;
use crate::steps::at_start;
use charset_map::Charset;
use doc_types::Schema;
use query_pieces::{Form, piece_at};
use srch_base::NoMemory;
use std::alloc::Global;

/// Whether a letter of a word stands directly before what follows a piece.
fn leaves_letter(form: Form) -> bool
    ensures { result ≡ ends_in_letter form }
{
    match form {
        Form::Word(spelling) => !spelling.end && !spelling.prefix,
        _ => false,
    }
}

/// Whether a mark is there and is NOT.
fn negates(found: &Option<Mark>) -> bool
    ensures { result ≡ has_not (option_to_list found.now) }
{
    match found {
        Some(mark) => matches!(&mark.sign, Sign::Not),
        None => false,
    }
}

/// Whether one of two tests holds.
fn either(a: bool, b: bool) -> bool
    ensures { result ≡ (a || b) }
{
    a || b
}

/// Whether a mark is there and something is wrong with it.
fn is_wrong(found: &Option<Mark>) -> bool
    ensures { result ≡ has_wrong (option_to_list found.now) }
{
    match found {
        Some(mark) => mark.wrong.is_some(),
        None => false,
    }
}

/// Puts a mark at the end, if there is one.
fn put_mark(found: Option<Mark>, marks: &mut Vec<Mark>) -> Result<(), NoMemory>
    ensures { OnOk result (marks.new.items ≡ marks.old.items ++ option_to_list found) }
{
    if let Some(mark) = found {
        marks.push(mark)?;
    }
    Ok(())
}

/// The marks, with the text's end after them.
fn with_end(marks: Vec<Mark>, text: &str) -> Result<Vec<Mark>, NoMemory>
    requires { length text.now < 2 ^ 32 }
    ensures { IfOk result (λ all. all.items ≡ marks.items ++ mark_at (length text.now) None signs.End ∷ []) }
{
    let mut marks = marks;
    let at = text.len() as u32;
    marks.push(Mark {
        at,
        sign: Sign::End,
        wrong: None,
    })?;
    Ok(marks)
}

/// Whether the marks after one change no first fault.
fn decides(state: &State, wrong: bool, negated: bool) -> bool
    ensures { result ≡ (nat_lt 32 (length state.now.around) || (wrong && not negated)) }
{
    state.around.len() > 32 || (wrong && !negated)
}

/// The marks of a text, to its end or as far as its first fault needs them.
///
/// A piece is read at a time, and what was read before is kept as a few numbers and the limits of at most 33 groups, so that
/// the time is linear in what is read. Marking ends with the 33rd parenthesis that is open, and with the first piece by itself
/// wrong where no NOT stands before it.
pub fn marks(
    alloc: Global,
    charset: &Charset,
    schema: &Schema,
    text: &str,
) -> Result<Vec<Mark>, NoMemory>
    requires schema { IsSchema schema.now }
    requires size { length text.now < 2 ^ 32 }
    ensures { IfOk result (λ marks. (pieces : List Piece) → ArePieces (alphabet_in (setting_of (folded charset.now) schema.now)) text.now pieces → AreEnough (length text.now) (marks_of (setting_of (folded charset.now) schema.now) text.now pieces) marks.items) }
{
    let mut marks = Vec::new(alloc);
    let mut state = at_start(alloc, charset, schema);
    let stars = schema.min_prefix > 0;
    let mut inside = false;
    let mut negated = false;
    let mut at = 0;
    'pieces: while at < text.len() {
        let piece = piece_at(charset, stars, text, inside, at);
        let found = mark_piece(
            alloc, charset, schema, text, &mut state, at as u32, piece.form,
        )?;
        let wrong = is_wrong(&found);
        negated = either(negated, negates(&found));
        put_mark(found, &mut marks)?;
        if decides(&state, wrong, negated) {
            return with_end(marks, text);
        }
        inside = leaves_letter(piece.form);
        at = piece.to;
    }
    with_end(marks, text)
}
