//! The groups of rows that come one after the other, in the order in which they are first seen.
ghost use Rattle.std.specs.Prelude.{◌≡◌, ◌++◌, [], ◌∷◌, List, IfOk, OnOk};
ghost use Rattle.std.specs.List.{AllZip};
ghost use Rattle.row_select.specs.declared.row.Row.{Row as RowValue};
ghost use Rattle.group_facet.specs.Gathering.{GathersGroups};
ghost use Rattle.group_facet.specs.Groups.{AreGroups};
ghost use Rattle.group_facet.specs.steps.Showing.{Shows};
ghost use Rattle.group_facet.specs.declared.grouping.Group.{Group as GroupValue};

use crate::grouping::{Group, GroupRow};
use crate::part::Part;
use crate::places::place_of;
use indexmap::IndexMap;
use row_select::{FoundRow, Row};
use srch_base::NoMemory;
use std::alloc::Global;

/// The groups of the rows that were offered so far.
///
/// A row of a group that is there costs one look-up, or none where the row before was of the same group, and one step of each
/// aggregate; it is copied only where it becomes the first of its group by WITHIN GROUP ORDER BY. No list of rows is kept.
#[derive(Drop)]
pub struct Groups<'a> {
    alloc: Global,
    group: &'a Group,
    parts: IndexMap<i128, Part>,
    /// The place of the group that was found last.
    last: usize,
}

impl<'a> Groups<'a> {
    /// Nothing was offered yet.
    pub fn new(alloc: Global, group: &'a Group) -> Groups<'a>
        ensures { GathersGroups group.now [] result }
    {
        Groups {
            alloc,
            group,
            parts: IndexMap::new(alloc),
            last: 0,
        }
    }

    /// Offers a row. After an error the groups are of no use.
    pub fn offer<R: FoundRow>(&mut self, row: &R) -> Result<(), NoMemory>
        ensures { (group : GroupValue) (offered : List RowValue) → GathersGroups group offered self.old → OnOk result (GathersGroups group (offered ++ R.as_row row.now ∷ []) self.new) }
    {
        let key = self.group.key(row);
        match place_of(&self.parts, self.last, &key) {
            Some(place) => {
                self.last = place;
                self.parts[place].add(self.group, row)?;
            }
            None => {
                let part = Part::first(self.alloc, self.group, row)?;
                self.last = self.parts.len();
                self.parts.insert(key, part)?;
            }
        }
        Ok(())
    }

    /// The groups of all rows that were offered, in the order in which they were first seen.
    pub fn finish(self) -> Result<Vec<GroupRow>, NoMemory>
        ensures { (group : GroupValue) (offered : List RowValue) → GathersGroups group offered self.entry → IfOk result (λ groups. AreGroups group offered groups.items) }
    {
        let Groups { alloc, parts, .. } = self;
        rows_of(alloc, parts)
    }
}

/// The groups, as they are shown.
#[tactic(auto, using(crate::proofs::Finished::showing_first, crate::proofs::Finished::showing_last))]
fn rows_of(alloc: Global, parts: IndexMap<i128, Part>) -> Result<Vec<GroupRow>, NoMemory>
    ensures { IfOk result (λ groups. AllZip Shows parts.entries groups.items) }
{
    let mut groups = Vec::with_capacity(alloc, parts.len())?;
    for (key, part) in parts {
        groups.push(part.into_row(alloc, key)?)?;
    }
    Ok(groups)
}

/// The groups of rows, in the order in which they are first seen.
pub fn group(rows: Vec<Row>, group: &Group) -> Result<Vec<GroupRow>, NoMemory>
    ensures { IfOk result (λ groups. AreGroups group.now rows.items groups.items) }
{
    let mut groups = Groups::new(*rows.allocator(), group);
    for row in rows.as_slice() {
        groups.offer(row)?;
    }
    groups.finish()
}
