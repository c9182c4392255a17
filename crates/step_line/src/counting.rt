//! Counts by workers: of commits, and of calls that were ended.
ghost use Rattle.std.specs.Prelude.{◌≡◌, ◌+◌, ◌-◌, ◌<◌, ◌≤◌, ◌^◌, length, slice_index_or, slice_set};
ghost use Rattle.std.specs.Option.{ForSome};
ghost use Rattle.step_line.specs.steps.Queues.{one_more};

/// Counts one more of a worker. The first place is that of worker 1.
pub(crate) fn count_one(counts: &mut Vec<u64>, worker: u32)
    requires among { (0 < worker) × (worker ≤ length counts.old.items) }
    requires room { slice_index_or counts.old.items (worker - 1) 0 + 1 < 2 ^ 64 }
    ensures { counts.new.items ≡ slice_set counts.old.items (worker - 1) (slice_index_or counts.old.items (worker - 1) 0 + 1) }
{
    counts[worker as usize - 1] += 1;
}

/// Counts one commit more where it is some worker's.
pub(crate) fn count_step(counts: &mut Vec<u64>, worker: Option<u32>)
    requires among { ForSome worker (λ w. (0 < w) × (w ≤ length counts.old.items)) }
    requires room { ForSome worker (λ w. slice_index_or counts.old.items (w - 1) 0 + 1 < 2 ^ 64) }
    ensures { counts.new.items ≡ one_more worker counts.old.items }
{
    if let Some(worker) = worker {
        count_one(counts, worker);
    }
}
