//! Which groups are shown by what no statement asks for: no keys of an order, an aggregate that isn't there, the greatest pages.
use crate::groups::groups_of;
use crate::rows::page_of;
use group_facet::GroupColumn::{Folded, Key};
use group_facet::{GroupColumn, GroupPage, Having, ShownGroups, top_groups};
use row_select::CompareOp;
use srch_base::Items;
use std::alloc::Global;

/// Of the groups of `weighed` by gid, each with its row of the greatest weight, COUNT(*) and SUM(price): whether HAVING wants 0 of an
/// aggregate that isn't there; what they are ordered by, such an aggregate downwards or their keys upwards; the page; how many groups
/// are found, and the keys of those that are shown.
pub(crate) const SHOWN: &str = "\
none; none; 0 20 1000 ⇒ 4: 20 40 10 30
none; beyond; 0 20 1000 ⇒ 4: 20 40 10 30
beyond; key; 0 20 1000 ⇒ 4: 10 20 30 40
none; key; 2 20 2 ⇒ 4:
none; key; 0 4294967295 4294967295 ⇒ 4: 10 20 30 40
none; key; 4294967295 4294967295 4294967295 ⇒ 4:
";

fn having(word: &str) -> Option<Having> {
    if word != "beyond" {
        return None;
    }
    Some(Having {
        column: Folded(9),
        op: CompareOp::Equal,
        value: 0,
    })
}

/// The keys of an order.
fn keys(word: &str) -> &'static [(GroupColumn, bool)] {
    match word {
        "none" => &[],
        "beyond" => &[(Folded(9), true)],
        _ => &[(Key, false)],
    }
}

/// What a text asks for.
fn asked(alloc: Global, text: &str) -> Option<GroupPage> {
    let (word, rest) = text.split_once("; ")?;
    let (order, numbers) = rest.split_once("; ")?;
    let page = page_of(numbers)?;
    let keys = Items::new(Vec::from_slice(alloc, keys(order)).ok()?);
    let having = having(word);
    Some(GroupPage { having, keys, page })
}

/// The groups that are shown.
fn shown(alloc: Global, asked: &GroupPage) -> Option<ShownGroups> {
    let groups = groups_of(alloc, "weighed", "gid; weight desc; count, sum price")?;
    top_groups(groups, asked).ok()
}

/// Appends how many groups were found, and the keys of those that are shown.
fn put_keys(shown: &ShownGroups, into: &mut String) -> Option<()> {
    let found = shown.found;
    write!(into, "{found}:").ok()?;
    for group in shown.rows.as_slice() {
        let key = group.key;
        write!(into, " {key}").ok()?;
    }
    Some(())
}

/// Appends which groups a text shows.
pub(crate) fn put_shown(alloc: Global, text: &str, into: &mut String) -> Option<()> {
    let asked = asked(alloc, text)?;
    let shown = shown(alloc, &asked)?;
    put_keys(&shown, into)
}
