//! The sets of documents: what stands of each in the tables.
use crate::cases::{DOCUMENTS, SETS};

/// The lines of a table that are of a set; there are none of any other name.
fn lines_of(table: &'static str, set: &str) -> &'static str {
    for section in table.split("\n# ") {
        if let Some((name, lines)) = section.split_once("\n") {
            if name == set {
                return lines;
            }
        }
    }
    ""
}

/// The configuration of the index of a set.
pub(crate) fn index_of(set: &str) -> &'static str {
    lines_of(SETS, set)
}

/// The documents of a set.
pub(crate) fn documents_of(set: &str) -> &'static str {
    lines_of(DOCUMENTS, set)
}
