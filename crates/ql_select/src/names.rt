//! A SELECT with its names turned into what they mean. Nothing after this looks a name up.
ghost use Rattle.std.specs.Prelude.{◌≡◌};

use group_facet::{Facet, Fold};
use mysql_wire::Column;
use row_select::{ColumnRef, CompareOp, Filter};
use srch_base::Items;

/// What an item of the list is the value of.
#[derive(Clone, Copy)]
pub enum Source {
    /// `*`
    All,
    /// A column, or the weight, of each row; of a group, of its best row.
    Row(ColumnRef),
    /// What a group's rows have in the column that is grouped by.
    Key,
    /// An aggregate of a group's rows.
    Folded(Fold),
}

/// What a key of ORDER BY, or HAVING, looks at.
#[derive(Clone, Copy)]
pub enum KeySource {
    /// The item of the list at this place, by its alias.
    Item(usize),
    Column(ColumnRef),
    /// `COUNT(*)`
    Count,
}

/// What HAVING compares.
#[derive(Clone, Copy)]
pub struct HavingSource {
    pub left: KeySource,
    pub op: CompareOp,
    pub value: i128,
}

/// The names of a SELECT, by what they mean.
pub struct Names {
    /// One for each item of the list.
    pub sources: Items<Source>,
    pub filters: Items<Filter>,
    /// GROUP BY
    pub group: Option<ColumnRef>,
    /// WITHIN GROUP ORDER BY; with each key, whether it descends.
    pub within: Items<(ColumnRef, bool)>,
    pub having: Option<HavingSource>,
    /// ORDER BY; with each key, whether it descends.
    pub order: Items<(KeySource, bool)>,
    pub facets: Items<Facet>,
    /// The column of each facet's values.
    pub facet_columns: Items<Column>,
}

impl Names {
    /// What a selection has as it stands here: the conditions, the facets, and the columns of the facets' values.
    pub(crate) fn into_kept(self) -> (Items<Filter>, Items<Facet>, Items<Column>)
        ensures { result ≡ (self.filters, self.facets, self.facet_columns) }
    {
        let Names {
            sources: _sources,
            filters,
            group: _,
            within: _within,
            having: _,
            order: _order,
            facets,
            facet_columns,
        } = self;
        (filters, facets, facet_columns)
    }
}

// Not derived: so letting go of names is a call, and no caller's proof takes their lists apart.
impl Drop for Names {
    fn drop(self) {
        let Names {
            sources: _sources,
            filters: _filters,
            group: _,
            within: _within,
            having: _,
            order: _order,
            facets: _facets,
            facet_columns: _facet_columns,
        } = self;
    }
}
