//! Which groups are shown: HAVING, the order of groups, and the page.
ghost use Rattle.std.specs.Prelude.{◌≡◌, IfOk, IsPermutation, length};
ghost use Rattle.std.specs.List.Sorted.{IsSorted};
ghost use Rattle.row_select.specs.Pages.{cut};
ghost use Rattle.group_facet.specs.ShownGroups.{AreTop, by_group_key, by_group_keys, group_value, having_holds, kept};

use crate::grouping::GroupRow;
use row_select::{ColumnRef, CompareOp, Page};
use srch_base::{Items, NoMemory};
use std::cmp::Ordering;

/// What a group has that is shown of it.
#[derive(Clone, Copy)]
pub enum GroupColumn {
    /// What its rows have in the column that is grouped by.
    Key,
    /// What its row has in a column.
    Best(ColumnRef),
    /// The aggregate of this number, from 0.
    Folded(u16),
}

/// HAVING: a group is kept whose number compares so with another one.
#[derive(Clone, Copy)]
pub struct Having {
    pub column: GroupColumn,
    pub op: CompareOp,
    pub value: i128,
}

/// Which groups are shown, and in which order.
#[derive(Drop)]
pub struct GroupPage {
    pub having: Option<Having>,
    /// The keys of the order, the first one first; with each, whether it descends. Ties go by the id of the group's row, ascending.
    pub keys: Items<(GroupColumn, bool)>,
    pub page: Page,
}

/// The groups that are shown, and how many there are.
#[derive(Drop)]
pub struct ShownGroups {
    pub rows: Vec<GroupRow>,
    /// How many groups HAVING keeps.
    pub found: usize,
}

impl GroupColumn {
    /// What a group has there.
    pub fn value(self, group: &GroupRow) -> i128
        ensures { result ≡ group_value self group.now }
    {
        match self {
            GroupColumn::Key => group.key,
            GroupColumn::Best(column) => column.value(&group.best),
            GroupColumn::Folded(place) => match group.folded.as_slice().get(place as usize) {
                Some(value) => *value,
                None => 0,
            },
        }
    }
}

impl GroupPage {
    /// Whether HAVING keeps a group.
    fn keeps(&self, group: &GroupRow) -> bool
        ensures { result ≡ having_holds self.now.having group.now }
    {
        match self.having {
            Some(having) => having.op.holds(having.column.value(group), having.value),
            None => true,
        }
    }

    /// How a group stands to another one: `Less` where it comes first.
    fn compare(&self, group: &GroupRow, other: &GroupRow) -> Ordering
        ensures { result ≡ by_group_keys self.now.keys group.now other.now }
    {
        for (column, descending) in self.keys.as_slice() {
            let ordering = compare_by(*column, *descending, group, other);
            if ordering != Ordering::Equal {
                return ordering;
            }
        }
        group.best.id.cmp(&other.best.id)
    }
}

/// How two groups stand by one key.
fn compare_by(column: GroupColumn, descending: bool, group: &GroupRow, other: &GroupRow) -> Ordering
    ensures { result ≡ by_group_key (column, descending) group.now other.now }
{
    let value = column.value(group);
    let next = column.value(other);
    if descending {
        next.cmp(&value)
    } else {
        value.cmp(&next)
    }
}

/// The page of the groups that HAVING keeps, in order.
pub fn top_groups(groups: Vec<GroupRow>, asked: &GroupPage) -> Result<ShownGroups, NoMemory>
    ensures rows { IfOk result (λ shown. AreTop asked.now groups.items shown.rows.items) }
    ensures found { IfOk result (λ shown. shown.found ≡ length (kept asked.now.having groups.items)) }
{
    let mut kept = kept_groups(groups, asked)?;
    let found = kept.len();
    put_in_order(&mut kept, asked);
    let rows = page_of(kept, &asked.page)?;
    Ok(ShownGroups { rows, found })
}

/// The groups that HAVING keeps.
fn kept_groups(groups: Vec<GroupRow>, asked: &GroupPage) -> Result<Vec<GroupRow>, NoMemory>
    ensures { IfOk result (λ left. left.items ≡ kept asked.now.having groups.items) }
{
    let alloc = *groups.allocator();
    let left = groups
        .into_iter()
        .filter(|group| asked.keeps(group))
        .collect(alloc)?;
    Ok(left)
}

/// Puts groups in order.
fn put_in_order(groups: &mut Vec<GroupRow>, asked: &GroupPage)
    ensures same { IsPermutation groups.old.items groups.new.items }
    ensures ascend { IsSorted (by_group_keys asked.now.keys) groups.new.items }
{
    groups.sort_unstable_by(|group, other| asked.compare(group, other));
}

/// The page of groups that are in order.
fn page_of(groups: Vec<GroupRow>, page: &Page) -> Result<Vec<GroupRow>, NoMemory>
    ensures { IfOk result (λ shown. shown.items ≡ cut page.now groups.items) }
{
    let alloc = *groups.allocator();
    let shown = groups
        .into_iter()
        .take(page.max_matches as usize)
        .skip(page.offset as usize)
        .take(page.count as usize)
        .collect(alloc)?;
    Ok(shown)
}
