//! The groups of rows that are taken all at once, in the order in which they are first seen.
use crate::facets::FACETS;
use crate::rows::{column, order_by, rows_of};
use crate::shown::SHOWN;
use crate::tables::{Trial, try_tables};
use group_facet::{Fold, Group, GroupRow, group};
use srch_base::Items;
use std::alloc::Global;
use std::fmt::Write;
use std::test::Fail;

/// The rows, the column that is grouped by or `none`, the keys of WITHIN GROUP ORDER BY, the aggregates, and the groups:
/// the key, the id of the row, and the values of the aggregates.
const GROUPS: &str = "\
weighed: gid; weight desc; count ⇒ [10 18446744073709551614 3][20 1 2][30 18446744073709551615 1][40 5 2]
weighed: gid; weight asc; count ⇒ [10 3 3][20 1 2][30 18446744073709551615 1][40 5 2]
weighed: gid; id desc; count ⇒ [10 18446744073709551614 3][20 2 2][30 18446744073709551615 1][40 6 2]
weighed: gid; id asc; count ⇒ [10 3 3][20 1 2][30 18446744073709551615 1][40 5 2]
weighed: gid; price asc; count ⇒ [10 3 3][20 2 2][30 18446744073709551615 1][40 5 2]
weighed: gid; price desc; count ⇒ [10 4 3][20 1 2][30 18446744073709551615 1][40 5 2]
weighed: gid; gid desc; count ⇒ [10 3 3][20 1 2][30 18446744073709551615 1][40 5 2]
weighed: gid; weight desc, price asc; count ⇒ [10 18446744073709551614 3][20 2 2][30 18446744073709551615 1][40 5 2]
weighed: gid; weight desc, id desc; count ⇒ [10 18446744073709551614 3][20 2 2][30 18446744073709551615 1][40 6 2]
weighed: gid; ; count ⇒ [10 3 3][20 1 2][30 18446744073709551615 1][40 5 2]
weighed: gid; ;  ⇒ [10 3][20 1][30 18446744073709551615][40 5]
weighed: gid; id asc; sum price, least price, greatest price ⇒ [10 3 -9223372036854775804 -9223372036854775808 5][20 1 9223372036854775812 5 9223372036854775807][30 18446744073709551615 9223372036854775807 9223372036854775807 9223372036854775807][40 5 -18446744073709551616 -9223372036854775808 -9223372036854775808]
weighed: gid; id asc; distinct price, count, distinct weight, distinct gid ⇒ [10 3 3 3 2 1][20 1 2 2 1 1][30 18446744073709551615 1 1 1 1][40 5 1 2 1 1]
weighed: gid; id asc; count, count, greatest id, least weight ⇒ [10 3 3 3 18446744073709551614 10][20 1 2 2 2 30][30 18446744073709551615 1 1 18446744073709551615 20][40 5 2 2 6 5]
weighed: weight; id asc; count, distinct gid, sum id ⇒ [10 3 2 1 7][30 1 2 1 3][20 18446744073709551614 2 2 36893488147419103229][5 5 2 1 11]
weighed: price; weight desc; count, sum price ⇒ [5 2 2 10][-1 18446744073709551614 1 -1][9223372036854775807 1 2 18446744073709551614][-9223372036854775808 3 3 -27670116110564327424]
weighed: id; id asc; count ⇒ [4 4 1][2 2 1][18446744073709551614 18446744073709551614 1][1 1 1][18446744073709551615 18446744073709551615 1][3 3 1][6 6 1][5 5 1]
weighed: beyond; id desc; count, sum beyond ⇒ [0 18446744073709551615 8 0]
weighed: none; weight desc; count, distinct price, distinct gid, least id, greatest id ⇒ [0 1 8 4 4 1 18446744073709551615]
weighed: none; id desc; sum id, sum weight, sum price ⇒ [0 18446744073709551615 36893488147419103250 130 -9223372036854775801]
weighed: none; gid desc, weight asc;  ⇒ [0 5]
greetings: gid; weight desc; count, sum price ⇒ [10 1 2 4][20 2 1 5]
greetings: none; weight desc; count ⇒ [0 1 3]
none: gid; weight desc; count, sum price, least id, distinct gid ⇒ 
none: none; weight desc; count, sum price, greatest id, distinct gid ⇒ 
none: none; weight desc;  ⇒ 
";

fn fold(text: &str) -> Option<Fold> {
    let Some((name, of)) = text.split_once(" ") else {
        return Some(Fold::Count);
    };
    let column = column(of)?;
    match name {
        "distinct" => Some(Fold::Distinct(column)),
        "least" => Some(Fold::Least(column)),
        "greatest" => Some(Fold::Greatest(column)),
        _ => Some(Fold::Sum(column)),
    }
}

/// These aggregates, which may be none.
fn folds(alloc: Global, text: &str) -> Option<Items<Fold>> {
    let mut folds = Vec::new(alloc);
    for name in text.split_terminator(", ") {
        folds.push(fold(name)?).ok()?;
    }
    Some(Items::new(folds))
}

/// What groups a text asks for.
fn group_of(alloc: Global, text: &str) -> Option<Group> {
    let (by, rest) = text.split_once("; ")?;
    let (within, aggregates) = rest.split_once("; ")?;
    let within = order_by(alloc, within)?;
    let folds = folds(alloc, aggregates)?;
    let by = column(by);
    Some(Group { by, within, folds })
}

/// The groups of the rows of a name that a text asks for.
pub(crate) fn groups_of(alloc: Global, rows: &str, text: &str) -> Option<Vec<GroupRow>> {
    let rows = rows_of(alloc, rows)?;
    let asked = group_of(alloc, text)?;
    group(rows, &asked).ok()
}

/// Appends a group: its key, the id of its row, and the values of its aggregates.
fn put_one(group: &GroupRow, into: &mut String) -> Option<()> {
    let (key, id) = (group.key, group.best.id);
    write!(into, "[{key} {id}").ok()?;
    for value in group.folded.as_slice() {
        write!(into, " {value}").ok()?;
    }
    into.push(']').ok()
}

/// Appends groups, as the table writes them.
fn put_all(groups: &[GroupRow], into: &mut String) -> Option<()> {
    for group in groups {
        put_one(group, into)?;
    }
    Some(())
}

/// Appends the groups of the rows of a name that a text behind it asks for.
pub(crate) fn put_group(alloc: Global, text: &str, into: &mut String) -> Option<()> {
    let (rows, asked) = text.split_once(": ")?;
    let groups = groups_of(alloc, rows, asked)?;
    put_all(groups.as_slice(), into)
}

#[test]
fn groups_are_those_of_their_rows(rt: HostRuntime) -> Result<(), Fail> {
    try_tables(
        rt.alloc(),
        &[
            (GROUPS, Trial::Groups),
            (SHOWN, Trial::Shown),
            (FACETS, Trial::Facet),
        ],
    )
}
