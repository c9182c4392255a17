//! Groups and facets of the rows that a select found, and which groups are shown.
#![tactic(auto)]

mod facet_counts;
mod facets;
mod fold;
mod grouping;
mod groups;
mod part;
mod places;
mod shown;
mod sinks;

pub use facet_counts::{FacetCounts, facet};
pub use facets::Facet;
pub use fold::Fold;
pub use grouping::{Group, GroupRow};
pub use groups::{Groups, group};
pub use shown::{GroupColumn, GroupPage, Having, ShownGroups, top_groups};
