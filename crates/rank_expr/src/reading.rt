//! The reader of a text: its value, or its first fault.
ghost use Rattle.std.specs.Prelude.{◌≡◌, ◌≤◌, ◌<◌, ◌^◌, ◌++◌, ◌∷◌, List, IfOk, length};
ghost use Rattle.std.specs.Str.{str_to_ascii_lowercase};
ghost use Rattle.doc_types.specs.declared.schema.TheConstants.{MAX_ATTRS};
ghost use Rattle.rank_expr.specs.declared.mark.Mark.{Mark as MarkValue};
ghost use Rattle.rank_expr.specs.ExprFaults.{ReadsExpr, fault_of, kind_due, kind_of, name_at, told_name};
ghost use Rattle.rank_expr.specs.Marks.{marks_of};

use crate::cursor::MarkCursor;
use crate::expr::RankExpr;
use crate::fault::{ExprFault, ExprKind, MAX_NAME, MAX_TEXT};
use crate::mark::{Mark, Sign};
use crate::pieces::{behind, front, name_len};
use crate::reader::text as whole;
use doc_types::Schema;
use srch_base::{Name, NoMemory, Or};
use std::alloc::Global;

/// The mark at a place where one begins. Reading stops at most once, so the text is gone through up to there again.
fn mark_at(schema: &Schema, text: &[u8], place: u32) -> Mark
    requires few { length schema.now.attrs ≤ MAX_ATTRS }
    requires small { length text.now < 2 ^ 31 }
    ensures { (front rest : List MarkValue) (stop : MarkValue) → marks_of schema.now text.now ≡ front ++ stop ∷ rest → stop.at ≡ place → result ≡ stop }
{
    let mut input = MarkCursor::new(schema, text);
    'marks: while !input.is_at_end() {
        if input.place() >= place {
            break;
        }
        input.skip();
    }
    input.mark()
}

/// Why a piece doesn't stand where an expression is due.
fn kind_due(sign: Sign) -> ExprKind
    ensures { result ≡ kind_due sign }
{
    match sign {
        Sign::TooLarge => ExprKind::Number,
        Sign::Unknown => ExprKind::Factor,
        Sign::Misplaced => ExprKind::Scope,
        Sign::Open | Sign::Single(_) | Sign::Double(_) | Sign::Triple | Sign::Minus => {
            ExprKind::Nesting
        }
        Sign::Division => ExprKind::Division,
        _ => ExprKind::Syntax,
    }
}

/// Why a mark stands where no expression goes on with it.
fn kind_of(mark: Mark) -> ExprKind
    ensures { result ≡ kind_of mark }
{
    if mark.due {
        return kind_due(mark.sign);
    }
    match mark.sign {
        Sign::Division => ExprKind::Division,
        _ => ExprKind::Syntax,
    }
}

/// The name that begins at the place, its first bytes at most.
fn name_at(text: &[u8], place: usize) -> &[u8]
    requires { place ≤ length text.now }
    ensures { result.now ≡ name_at text.now place }
{
    let rest = behind(text, place);
    let name = front(rest, name_len(rest));
    front(name, MAX_NAME)
}

/// What the kind tells of the name at the place.
fn told_name(alloc: Global, kind: ExprKind, text: &[u8], place: usize) -> Result<Name, NoMemory>
    requires { place ≤ length text.now }
    ensures { IfOk result (λ name. name ≡ told_name kind (name_at text.now place)) }
{
    match kind {
        ExprKind::Factor => small_name(alloc, name_at(text, place)),
        ExprKind::Scope => small_name(alloc, name_at(text, place)),
        _ => Ok(Name::from_slice(alloc, b"")?),
    }
}

/// A name in small letters.
fn small_name(alloc: Global, name: &[u8]) -> Result<Name, NoMemory>
    ensures { IfOk result (λ small. small ≡ str_to_ascii_lowercase name.now) }
{
    Ok(Name::new(name.to_ascii_lowercase(alloc)?))
}

/// The fault of a text in which reading stops at the place.
fn fault_at(alloc: Global, schema: &Schema, text: &[u8], place: u32) -> Result<ExprFault, NoMemory>
    requires few { length schema.now.attrs ≤ MAX_ATTRS }
    requires small { length text.now < 2 ^ 31 }
    requires place { place ≤ length text.now }
    ensures { IfOk result (λ fault. (front rest : List MarkValue) (stop : MarkValue) → marks_of schema.now text.now ≡ front ++ stop ∷ rest → stop.at ≡ place → fault ≡ fault_of text.now stop) }
{
    let kind = kind_of(mark_at(schema, text, place));
    let name = told_name(alloc, kind, text, place as usize)?;
    Ok(ExprFault { place, kind, name })
}

/// Reads the text of an expression, whose attributes are those of the schema.
pub fn read_expr(alloc: Global, text: &[u8], schema: &Schema) -> Result<RankExpr, Or<ExprFault>>
    requires { length schema.now.attrs ≤ MAX_ATTRS }
    ensures { ReadsExpr schema.now text.now result }
{
    if text.len() > MAX_TEXT {
        return Err(Or::Fault(ExprFault {
            place: MAX_TEXT as u32,
            kind: ExprKind::Long,
            name: Name::from_slice(alloc, b"")?,
        }));
    }
    let mut input = MarkCursor::new(schema, text);
    match whole(alloc, &mut input) {
        Ok(root) => Ok(RankExpr { root }),
        Err(Or::NoMemory) => Err(Or::NoMemory),
        Err(Or::Fault(place)) => Err(Or::Fault(fault_at(alloc, schema, text, place)?)),
    }
}
