//! Laws of jobs. Each is a function with an empty body: its clauses are the law.
ghost use Rattle.std.specs.Prelude.{◌≡◌, ℕ, List, [], ◌∷◌, ◌++◌, Contains, map, true};
ghost use Rattle.std.specs.List.Sorted.{IsPermutation};
ghost use Rattle.doc_types.specs.Commits.{Entry};
ghost use Rattle.doc_types.specs.Documents.{AreRowsOf};
ghost use Rattle.doc_types.specs.Snapshots.{SnapshotValue, all_living, live};
ghost use Rattle.doc_types.specs.declared.documents.DocRow.{DocRow};
ghost use Rattle.doc_types.specs.declared.schema.Schema.{Schema};
ghost use Rattle.layer_joins.specs.Joins.{AreApart};
ghost use Rattle.step_history.specs.declared.job.Job.{Job};
ghost use Rattle.step_history.specs.History.{AreOf, Base, IsGood, ReshapeFollows, Step, last_snapshot};
ghost use Rattle.step_history.specs.Places.{disk_chunks, LivesOnDisk};
ghost use Rattle.step_history.specs.Since.{OnlyCommits};
ghost use Rattle.reshape_laws.specs.Rebasing.{HasMoved, is_old, rebased, some_chunk, staying, taken};

/// A chunk that has each row that moves loses no row and brings none back, whatever came since: the same rows live, no id twice. The
/// chunks on the disk are those that the job leaves and then the new one, and each old row that lives stands in one of them.
pub fn rebasing_keeps_rows()
    ensures same { (job : Job) (front : ℕ) (new : List DocRow) (now : SnapshotValue) → AreApart (all_living now.layers) → AreApart new → HasMoved job front new now → IsPermutation (all_living now.layers) (all_living (rebased job front new now).layers) }
    ensures rows { (job : Job) (front : ℕ) (new : List DocRow) (now : SnapshotValue) → AreApart (all_living now.layers) → AreApart new → HasMoved job front new now → live (rebased job front new now) ≡ live now }
    ensures apart { (job : Job) (front : ℕ) (new : List DocRow) (now : SnapshotValue) → AreApart (all_living now.layers) → AreApart new → HasMoved job front new now → AreApart (all_living (rebased job front new now).layers) }
    ensures chunks { (job : Job) (front : ℕ) (new : List DocRow) (now : SnapshotValue) → disk_chunks (rebased job front new now) ≡ map (λ layer. layer.rows) (staying job now) ++ some_chunk new }
    ensures disk { (job : Job) (front : ℕ) (new : List DocRow) (now : SnapshotValue) (row : DocRow) → Contains (all_living (rebased job front new now).layers) row → is_old front row ≡ true → LivesOnDisk (rebased job front new now) row }
{}

/// The rows of all layers are of the schema where those before and those of the chunk are.
pub fn rebasing_keeps_the_schema()
    ensures { (schema : Schema) (job : Job) (front : ℕ) (new : List DocRow) (now : SnapshotValue) → AreOf schema now → AreRowsOf schema new → AreOf schema (rebased job front new now) }
{}

/// Where only commits came since a job began, each row that moves is one that it took.
pub fn moved_rows_were_taken()
    ensures { (job : Job) (from now : SnapshotValue) (entries : List Entry) → OnlyCommits from now entries → AreApart (all_living from.layers) → AreApart (all_living now.layers) → HasMoved job from.number (taken job from) now }
{}

/// A chunk of the rows that a job took from an earlier snapshot of the same shape ends in a step that follows, whatever commits came
/// since. So the shape is all that is compared before a job's chunk takes its place.
pub fn a_job_follows()
    ensures { (schema : Schema) (base : Base) (steps more : List Step) (job : Job) (new : List DocRow) → IsGood schema base (steps ++ more) → (last_snapshot base (steps ++ more)).shape ≡ (last_snapshot base steps).shape → AreApart (all_living (last_snapshot base steps).layers) → AreApart (all_living (last_snapshot base (steps ++ more)).layers) → IsPermutation (taken job (last_snapshot base steps)) new → ReshapeFollows base (steps ++ more) job (last_snapshot base steps).number (rebased job (last_snapshot base steps).number new (last_snapshot base (steps ++ more))) }
{}
