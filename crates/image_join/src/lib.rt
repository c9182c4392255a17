//! Segments put together by their bytes.
//!
//! A segment keeps nothing but its image, so there are no documents to copy and to index anew when some of them become one. What
//! lives of them is gone over in the order of the ids, which gives each row its new number. Columns and marks are copied row by row.
//! The dictionaries are merged as sorted lists are, the least of the next words first, most of them told by their first bytes. Where
//! the rows of all segments keep their order, a posting list is the lists of its word, one behind the other, of which only the
//! distance of the first entry is written anew (`stacking.rt`); else it's their entries that live, by new numbers, with each hit list
//! copied as it is. So the costs are those of copying, with one comparison for each word of each segment.
#![tactic(auto)]

mod columns;
mod copying;
mod joining;
mod lists;
mod nexts;
mod ordering;
mod parts;
mod places;
mod stacking;
mod words;

pub use copying::CopyBytes;
pub use joining::{JoinedImage, join, join_or_tell};
