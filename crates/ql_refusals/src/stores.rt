//! Why the store of an index refuses what a statement commits, or a job, or doesn't acknowledge it.
ghost use Rattle.std.specs.Prelude.{◌≡◌, ◌≤◌, length};
ghost use Rattle.ql_refusals.specs.Refusals.{disk_failed as disk_failed_row, disk_in_doubt as disk_in_doubt_row, duplicate_id as duplicate_id_row, full_text, index_full as index_full_row, job_in_doubt as job_in_doubt_row, memory_in_doubt as memory_in_doubt_row, overtaken as overtaken_row, strayed as strayed_row};

use crate::refusal::{DISK, MEMORY, Refusal, WRONG};
use commit_outcomes::{Full, FullKind, Strayed};

/// A document with the id is there, or was put by the same statement.
pub fn duplicate_id(id: u64) -> Refusal
    ensures { result ≡ duplicate_id_row id }
{
    Refusal::numbered(b"duplicate id ", id)
}

/// What an index is full of.
fn full_text(kind: FullKind) -> &'static [u8]
    ensures value { result.now ≡ full_text kind }
    ensures short { length result.now ≤ 16 }
{
    match kind {
        FullKind::Log => b"log",
        FullKind::Documents => b"documents",
        FullKind::Chunks => b"chunks",
        FullKind::Images => b"images",
        FullKind::Numbers => b"numbers",
        FullKind::Root => b"root",
    }
}

/// A limit of the index would be passed.
pub fn index_full(full: Full) -> Refusal
    ensures { result ≡ index_full_row full }
{
    Refusal::plain(WRONG, full_text(full.what))
        .then(b" full at ")
        .then_number(full.at)
        .then(b" needs ")
        .then_number(full.need)
}

/// What a worker and the index count of the history contradicts each other.
pub fn strayed(numbers: Strayed) -> Refusal
    ensures { result ≡ strayed_row numbers }
{
    Refusal::plain(WRONG, b"history at ")
        .then_number(numbers.seen)
        .then(b" of ")
        .then_number(numbers.place)
        .then(b", commits ")
        .then_number(numbers.made)
        .then(b" of ")
        .then_number(numbers.kept)
}

/// Another job ended before this one: the index has a greater shape now.
pub fn overtaken(shape: u64) -> Refusal
    ensures { result ≡ overtaken_row shape }
{
    Refusal::numbered(b"overtaken by shape ", shape)
}

/// The disk failed, and nothing of the commit or job takes effect.
pub fn disk_failed() -> Refusal
    ensures { result ≡ disk_failed_row }
{
    Refusal::plain(DISK, b"disk fault: nothing was changed")
}

/// The disk failed, and the commit takes effect later or never.
pub fn disk_in_doubt() -> Refusal
    ensures { result ≡ disk_in_doubt_row }
{
    Refusal::plain(DISK, b"disk fault: commit in doubt")
}

/// Memory was refused, and the commit, which is on the disk, takes effect later.
pub fn memory_in_doubt() -> Refusal
    ensures { result ≡ memory_in_doubt_row }
{
    Refusal::plain(MEMORY, b"out of memory: commit in doubt")
}

/// Memory was refused, and the job, which is on the disk, takes effect later; it changes no document.
pub fn job_in_doubt() -> Refusal
    ensures { result ≡ job_in_doubt_row }
{
    Refusal::plain(MEMORY, b"out of memory: job in doubt")
}
