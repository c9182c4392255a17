//! From a text to its statements and back: the canonical text of what a text is read as is that of the table, and is read as the
//! same statements. And what of a statement neither its canonical text nor a reply tells apart.
use crate::tokens::tokens_of;
use ql_parse::{Comparison, Cond, Ids, ParseKind, Scope, Statement, parse, put_statement};
use srch_base::Or;
use std::alloc::Global;

/// Packets of too many statements, and where the 33rd begins.
pub(crate) const PLACES: &str = "
begin;begin;begin;begin;begin;begin;begin;begin;begin;begin;begin;begin;begin;begin;begin;begin;begin;begin;begin;begin;begin;begin;begin;begin;begin;begin;begin;begin;begin;begin;begin;begin;begin ⇒ too many at 192
begin;begin;begin;begin;begin;begin;begin;begin;begin;begin;begin;begin;begin;begin;begin;begin;begin;begin;begin;begin;begin;begin;begin;begin;begin;begin;begin;begin;begin;begin;begin;begin;begin; ⇒ too many at 192
begin;begin;begin;begin;begin;begin;begin;begin;begin;begin;begin;begin;begin;begin;begin;begin;begin;begin;begin;begin;begin;begin;begin;begin;begin;begin;begin;begin;begin;begin;begin;begin;select ⇒ too many at 192
begin;begin;begin;begin;begin;begin;begin;begin;begin;begin;begin;begin;begin;begin;begin;begin;begin;begin;begin;begin;begin;begin;begin;begin;begin;begin;begin;begin;begin;begin;begin;begin; set names = 1 ⇒ too many at 193
";

/// Statements, and a part of each: for whom a SET sets, how a DELETE names its ids, and how the only condition of a SELECT compares,
/// and with which number.
pub(crate) const PARTS: &str = "
set a = 1 ⇒ absent
set global a = 1 ⇒ global
set session a = 1 ⇒ session
delete from rt where id = 5 ⇒ one
delete from rt where id in (5) ⇒ several: 1
delete from rt where id in (5, 6) ⇒ several: 2
select a from rt where b > -5 ⇒ greater than -5
select a from rt where b = -18446744073709551615 ⇒ equal to -18446744073709551615
";

/// Appends the canonical texts of some statements.
fn put_list(list: &[Statement], out: &mut Vec<u8>) -> Option<()> {
    let mut before = " ";
    for statement in list {
        out.extend_from_slice(before.as_bytes()).ok()?;
        put_statement(statement, out).ok()?;
        before = "; ";
    }
    Some(())
}

/// Whether a text is read as these statements.
fn is_read_as(alloc: Global, text: &str, list: &[Statement]) -> bool {
    match tokens_of(alloc, text) {
        Some(tokens) => match parse(alloc, tokens.as_slice()) {
            Ok(again) => again.as_slice() == list,
            Err(_) => false,
        },
        None => false,
    }
}

/// Appends the canonical texts of some statements, which are read as the same statements.
fn put_canonical(alloc: Global, list: &[Statement], told: &mut String) -> Option<()> {
    let mut out = Vec::new(alloc);
    put_list(list, &mut out)?;
    let text = str::from_utf8(out.as_slice()).ok()?;
    if !is_read_as(alloc, text, list) {
        return None;
    }
    told.push_str(text).ok()
}

/// Appends the canonical texts of a text's statements, or the place at which there are too many.
pub(crate) fn put_statements(alloc: Global, text: &str, told: &mut String) -> Option<()> {
    let tokens = tokens_of(alloc, text)?;
    match parse(alloc, tokens.as_slice()) {
        Ok(list) => put_canonical(alloc, list.as_slice(), told),
        Err(Or::Fault(fault)) if matches!(fault.kind, ParseKind::TooMany) => {
            let place = fault.place;
            write!(told, " too many at {place}").ok()
        }
        Err(_) => None,
    }
}

/// The word for whom a SET sets.
fn scope_word(scope: Scope) -> &'static str {
    match scope {
        Scope::Absent => " absent",
        Scope::Global => " global",
        Scope::Session => " session",
    }
}

/// Appends how a condition compares.
fn put_condition(condition: &Cond, told: &mut String) -> Option<()> {
    match condition {
        Cond::Compare {
            op: Comparison::Greater,
            value,
            ..
        } => write!(told, " greater than {value}").ok(),
        Cond::Compare {
            op: Comparison::Equal,
            value,
            ..
        } => write!(told, " equal to {value}").ok(),
        _ => None,
    }
}

/// Appends a part of a statement.
fn put_part_of(statement: &Statement, told: &mut String) -> Option<()> {
    match statement {
        Statement::SetOther { scope, .. } => told.push_str(scope_word(*scope)).ok(),
        Statement::Delete {
            ids: Ids::One(_),
            ..
        } => told.push_str(" one").ok(),
        Statement::Delete {
            ids: Ids::Several(list),
            ..
        } => {
            let count = list.len();
            write!(told, " several: {count}").ok()
        }
        Statement::Select(select) => match select.conds.as_slice() {
            [condition] => put_condition(condition, told),
            _ => None,
        },
        _ => None,
    }
}

/// Appends a part of the only statement of a text.
pub(crate) fn put_part(alloc: Global, text: &str, told: &mut String) -> Option<()> {
    let tokens = tokens_of(alloc, text)?;
    match parse(alloc, tokens.as_slice()) {
        Ok(list) => match list.as_slice() {
            [statement] => put_part_of(statement, told),
            _ => None,
        },
        Err(_) => None,
    }
}
