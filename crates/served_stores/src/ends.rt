//! What is left of indexes, without the names that they were served under.
ghost use Rattle.std.specs.Prelude.{◌≡◌, ◌≤◌, [], Err, length, map, vec_capacity};
ghost use Rattle.srch_base.specs.declared.faults.Or.TheVariants.{NoMemory};
ghost use Rattle.served_stores.specs.Serving.{end_of};

use chunk_store::Disk;
use commit_outcomes::Strayed;
use engine_tables::Ended;
use srch_base::Or;
use step_book::Naming;
use store_keep::Opened;

/// What is left of an index.
#[derive(Drop)]
pub struct IndexEnd<D: Disk> {
    pub disk: D,
    /// Whether its one history could be told in the end.
    pub answer: Result<(), Or<Strayed>>,
}

/// Forgets the notes of what is left of engines.
pub(crate) fn without_notes<D: Disk, J: Naming>(
    mut ended: Vec<Ended<D, J>>,
    room: Vec<IndexEnd<D>>,
) -> Vec<IndexEnd<D>>
    requires room { (room.items ≡ []) × (length ended.items ≤ vec_capacity room) }
    ensures ends { result.items ≡ map end_of ended.items }
    ensures room { vec_capacity result ≡ vec_capacity room }
{
    match ended.pop() {
        None => {
            ended.destroy_empty();
            room
        }
        Some(
            Ended {
                disk,
                note: _note,
                answer,
            },
        ) => {
            let mut ends = without_notes(ended, room);
            ends.push_reserved(IndexEnd { disk, answer });
            ends
        }
    }
}

/// The disks of stores that weren't served.
pub(crate) fn unserved<D: Disk>(
    mut stores: Vec<Opened<D>>,
    room: Vec<IndexEnd<D>>,
) -> Vec<IndexEnd<D>>
    requires room { (room.items ≡ []) × (length stores.items ≤ vec_capacity room) }
    ensures ends { result.items ≡ map (λ store. record { disk = store.disk; answer = Err NoMemory }) stores.items }
    ensures room { vec_capacity result ≡ vec_capacity room }
{
    match stores.pop() {
        None => {
            stores.destroy_empty();
            room
        }
        Some(store) => {
            let mut ends = unserved(stores, room);
            ends.push_reserved(IndexEnd {
                disk: store.into_disk(),
                answer: Err(Or::NoMemory),
            });
            ends
        }
    }
}
