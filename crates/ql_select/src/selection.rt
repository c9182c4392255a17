//! What a SELECT means.
use group_facet::GroupColumn;
use mysql_wire::Column;
use srch_base::Items;
use table_search::Asked;

/// A column of the result set, and what it shows of a group. Where no groups are asked for, each document stands for one, and what
/// is shown is always of the document.
#[derive(Drop)]
pub struct Shown {
    pub column: Column,
    pub from: GroupColumn,
}

/// What a SELECT asks of its index, and what it shows of that.
pub struct Selection {
    pub asked: Asked,
    pub shown: Items<Shown>,
    /// For each facet the column of its values. The other column of its result set is `count(*)`.
    pub facets: Items<Column>,
}

// Not derived: so letting go of a selection is a call, and no caller's proof takes the tree of its query apart.
impl Drop for Selection {
    fn drop(self) {
        let Selection {
            asked: _asked,
            shown: _shown,
            facets: _facets,
        } = self;
    }
}
