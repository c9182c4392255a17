//! What the files of an index stand for, what a disk keeps of its history, and when a commit is refused: the words of the keeper's
//! contracts, and the laws that it stands on.
#![tactic(auto)]

mod damage;
mod files;
mod laws;
mod limits;

pub use commit_outcomes::Strayed;
pub use damage::{Damage, DamageKind, MOST_OPENED_CHUNKS};
pub use files::Files;
pub use laws::{
    another_length_is_damage, no_open_slot_stands_for_no_document, the_example_has_these_bytes,
};
pub use limits::{LAST_COMMIT, MOST_LOG, MOST_LOG_BY_REMOVALS};
