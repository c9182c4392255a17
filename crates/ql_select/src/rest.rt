//! What a SELECT means, all but its query and how it is weighed.
ghost use Rattle.std.specs.Prelude.{◌≡◌};
ghost use Rattle.ql_select.specs.steps.Rests.{with_query};

use crate::selection::{Selection, Shown};
use doc_search::{Question, Ranking};
use group_facet::Facet;
use mysql_wire::Column;
use query_tree::Query;
use rankers::Weights;
use row_select::{Filter, Order, Page};
use srch_base::Items;
use table_search::{Asked, Table};

/// What a SELECT asks of its index, and what it shows of that, before the text of its MATCH is read.
pub struct Rest {
    pub weights: Weights,
    pub filters: Items<Filter>,
    pub order: Order,
    pub page: Page,
    /// How many attributes the documents of the index have.
    pub attrs: u16,
    pub table: Table,
    pub facets: Items<Facet>,
    pub shown: Items<Shown>,
    /// The column of each facet's values.
    pub facet_columns: Items<Column>,
}

impl Rest {
    /// What the SELECT means with this query, and weighed so.
    pub(crate) fn with_query(self, query: Query, ranking: Ranking) -> Selection
        ensures { result ≡ with_query query ranking self }
    {
        let Rest {
            weights,
            filters,
            order,
            page,
            attrs,
            table,
            facets,
            shown,
            facet_columns,
        } = self;
        let question = Question {
            query,
            ranker: ranking,
            weights,
            filters,
            order,
            page,
            attrs,
        };
        let asked = Asked {
            question,
            table,
            facets,
        };
        Selection {
            asked,
            shown,
            facets: facet_columns,
        }
    }
}

// Not derived: so letting go of it is a call, and no caller's proof takes its lists apart.
impl Drop for Rest {
    fn drop(self) {
        let Rest {
            weights: _weights,
            filters: _filters,
            order: _order,
            page: _,
            attrs: _,
            table: _table,
            facets: _facets,
            shown: _shown,
            facet_columns: _facet_columns,
        } = self;
    }
}
