//! Layers in memory, put together.
//!
//! A commit puts its rows into a layer of their own (`layer_commit`), so a snapshot would have more and more layers. They are put
//! together where that is cheap by then: as soon as more than half of the rows of a layer are dead, or as the layers behind it have
//! four times its living rows or more, it becomes one with them; and where that leaves more than thirty-two layers in memory, the
//! last ones become one, so that just so many are left. An id is found by binary search in each of them. Where documents come one by
//! one, five layers of one size become one, and a row is copied once for each power of five, eight times among 200,000, and some times
//! more among the last few rows. Where several layers are cheap to put together, the last one comes first: what is small becomes one,
//! and that one with what is as large, so that five become one each time. To make one of all at once would copy a row less often, but
//! for each word goes over all of the layers, some four more for each power of five. Putting together changes no document, and no
//! layer on a disk takes part nor stands behind one that does, so `shape` doesn't count it; and where memory for it is refused, or one
//! layer can't number so many words, the layers stay as they are by then.
#![tactic(auto)]

mod copying;
mod joining;
mod merging;

pub use joining::JoinChunk;
pub use merging::merge_last;
