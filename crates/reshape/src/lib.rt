//! Jobs over the layers of a snapshot, for chunks of any kind.
//!
//! FLUSH puts what lives in memory into one chunk, OPTIMIZE all that lives. The layers that a job takes (`plan`) are put together by
//! the bytes of their images (`build`), which takes long, and commits go on meanwhile. Once the chunk is whole it takes its place in
//! the snapshot of that moment (`rebase`): rows of it that died meanwhile are dead in it, and rows that were put meanwhile stay in
//! memory. That is done while commits wait, so it costs one pass over what moves: the ids of the rows that live where the job took
//! layers are put in order, and gone over side by side with those of the new chunk. No word and no value is looked at.
#![tactic(auto)]

mod building;
mod moving;
mod numbering;
mod planning;
mod rebasing;

pub use building::build;
pub use planning::plan;
pub use rebasing::rebase;
