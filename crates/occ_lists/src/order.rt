//! Lists of occurrences in order, each once.
ghost use Rattle.occ_lists.specs.OccLists.{Ascend, SameMembers};

use crate::occ::Occ;

/// Puts the occurrences in order, by field, first and last position, and leaves each once.
pub fn sort_distinct(list: &mut Vec<Occ>)
    ensures ascend { Ascend list.new.items }
    ensures same { SameMembers list.new.items list.old.items }
{
    list.sort_unstable_by_key(|occ| (occ.field, occ.first, occ.last));
    list.dedup();
}
