//! Laws of good histories. Each is a function with an empty body: its clauses are the law.
ghost use Rattle.std.specs.Prelude.{◌≡◌, ℕ, ◌+◌, List, [], ◌∷◌, ◌++◌, Some, length, map, slice_get};
ghost use Rattle.doc_types.specs.declared.schema.Schema.{Schema};
ghost use Rattle.doc_types.specs.declared.transactions.Txn.{Txn};
ghost use Rattle.doc_types.specs.Commits.{Entry, after, change_of};
ghost use Rattle.doc_types.specs.Payloads.{payload_length};
ghost use Rattle.doc_types.specs.Snapshots.{SnapshotValue, live};
ghost use Rattle.step_history.specs.declared.job.Job.{Job};
ghost use Rattle.step_history.specs.History.{AreOf, Base, Commit, Follows, IsGood, Reshape, Step, commits, commits_by, last_snapshot, made_by, place_of, snapshot_of};
ghost use Rattle.step_history.specs.Logs.{log_at, record_length};
ghost use Rattle.step_history.specs.Since.{OnlyCommits};

/// A beginning of a good history is good.
pub fn a_beginning_is_good()
    ensures { (schema : Schema) (base : Base) (steps more : List Step) → IsGood schema base (steps ++ more) → IsGood schema base steps }
{}

/// A good history stays good with a step that follows it, whose rows are of the schema.
pub fn a_step_that_follows_keeps_it_good()
    ensures { (schema : Schema) (base : Base) (steps : List Step) (step : Step) → IsGood schema base steps → Follows base steps step → AreOf schema (snapshot_of step) → IsGood schema base (steps ++ step ∷ []) }
{}

/// Each step of a good history raises its place by one. So a history's length tells its place.
pub fn each_step_raises_the_place()
    ensures { (schema : Schema) (base : Base) (steps : List Step) → IsGood schema base steps → place_of (last_snapshot base steps) ≡ place_of base.opening + length steps }
{}

/// The rows of a good history are those after its entries over the rows at opening: jobs change none.
pub fn the_rows_are_those_of_the_commits()
    ensures { (schema : Schema) (base : Base) (steps : List Step) → IsGood schema base steps → live (last_snapshot base steps) ≡ after (live base.opening) (commits steps) }
{}

/// The commits of a good history are numbered one after the other, from the number at opening on.
pub fn commits_are_numbered()
    ensures { (schema : Schema) (base : Base) (steps : List Step) (k : ℕ) (entry : Entry) → IsGood schema base steps → slice_get (commits steps) k ≡ Some entry → entry.number ≡ base.opening.number + (k + 1) }
{}

/// The commits of one worker are numbered 1, 2, 3 and so on.
pub fn a_worker_numbers_its_commits()
    ensures { (schema : Schema) (base : Base) (steps : List Step) (worker k : ℕ) (entry : Entry) → IsGood schema base steps → slice_get (commits_by worker steps) k ≡ Some entry → entry.seq ≡ k + 1 }
{}

/// How many commits are a worker's adds up over histories in a row.
pub fn commits_add_up()
    ensures { (worker : ℕ) (first more : List Step) → made_by worker (first ++ more) ≡ made_by worker first + made_by worker more }
{}

/// Where the shape is what it was at the end of a beginning, only commits came since. That is all that a job has to ask.
pub fn what_lies_between_two_snapshots_of_one_shape()
    ensures { (schema : Schema) (base : Base) (steps more : List Step) → IsGood schema base (steps ++ more) → (last_snapshot base (steps ++ more)).shape ≡ (last_snapshot base steps).shape → OnlyCommits (last_snapshot base steps) (last_snapshot base (steps ++ more)) (commits more) }
{}

/// A commit adds its record to the log, which has the length of its transaction's payload and 13 bytes more, and a job begins a
/// new log.
pub fn the_log_holds_what_came_since()
    ensures commit { (base : Base) (steps : List Step) (entry : Entry) (snapshot : SnapshotValue) → log_at base (steps ++ Commit entry snapshot ∷ []) ≡ log_at base steps + record_length entry }
    ensures reshape { (base : Base) (steps : List Step) (job : Job) (through : ℕ) (snapshot : SnapshotValue) → log_at base (steps ++ Reshape job through snapshot ∷ []) ≡ 0 }
    ensures payload { (entry : Entry) (txn : Txn) → entry.changes ≡ map change_of txn.ops → record_length entry ≡ 13 + payload_length txn }
{}
