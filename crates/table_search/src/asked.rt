//! What is asked of an index with groups and facets (the manual of Sphinx, "SELECT syntax": GROUP BY, HAVING, FACET).
use doc_search::Question;
use group_facet::{Facet, Group, GroupPage};
use srch_base::Items;

/// Groups of what is found, and which of them are shown.
#[derive(Drop)]
pub struct GroupTable {
    pub group: Group,
    pub page: GroupPage,
}

/// What is shown of the documents that are found.
#[derive(Drop)]
pub enum Table {
    /// Documents, in the order of the question, and its page of them. Groups have an order and a page of their own.
    Rows,
    Groups(GroupTable),
}

/// What a SELECT asks: its search, what is shown of what that finds, and its facets over all of it.
pub struct Asked {
    pub question: Question,
    pub table: Table,
    pub facets: Items<Facet>,
}

// Not derived: so letting go of it is a call, and no caller's proof takes the tree of its query apart.
impl Drop for Asked {
    fn drop(self) {
        let Asked {
            question: _question,
            table: _table,
            facets: _facets,
        } = self;
    }
}
