//! The laws.
ghost use Rattle.std.specs.Prelude.{◌≡◌, ◌++◌, ◌∷◌, [], None, List};
ghost use Rattle.chunk_store.specs.Images.{Image};
ghost use Rattle.job_chunks.specs.Chunks.{IsNewChunk};
ghost use Rattle.step_history.specs.History.{Step, last_snapshot};
ghost use Rattle.store_steps.specs.Kept.{GivesEither};
ghost use Rattle.store_keep.specs.Keepers.{IsSound};
ghost use Rattle.job_laws.specs.Endings.{EndsIn, KeepsRoot, WasAnswered, end_behind};

use chunk_store::Disk;
use job_chunks::NewChunk;
use step_book::Naming;
use store_keep::Keeper;

/// Where the history ends with the end of a job, the root's own state is the job's: it has the commits up to that of the snapshot over
/// which the job began, and names the chunks that stayed, and behind them the new one, if the job made one. FLUSH leaves all chunks,
/// and makes one where a row lived in memory; OPTIMIZE leaves none, and makes one where a row lived. Whatever a crash leaves has these
/// chunks in the files that the state names, and the new one byte by byte.
pub fn a_job_that_ended_stands_in_the_files<D: Disk, J: Naming>(
    keeper: &Keeper<D, J>,
    new: &NewChunk,
)
    requires sound { IsSound D.Disk J.schema J.base J.opened keeper.now }
    requires none { keeper.now.kept.line.waiting ≡ None }
    requires chunk { IsNewChunk (J.schema keeper.now.kept.line.index) new.now }
    ensures { (before : List Step) → keeper.now.kept.line.history ≡ before ++ end_behind (J.base keeper.now.kept.line.index) before new.now ∷ [] → EndsIn D.Disk (J.schema keeper.now.kept.line.index) (last_snapshot (J.base keeper.now.kept.line.index) before) new.now keeper.now.kept.files keeper.now.kept.disk }
{}

/// Where `install` answered a note, as it left the keeper, the history ends with the end of the job, and the files are as the law
/// above says; and whatever a crash leaves has a root of that state, so no crash brings an older one back.
pub fn a_job_that_was_answered_has_its_root<D: Disk, J: Naming>(
    keeper: &Keeper<D, J>,
    new: &NewChunk,
)
    requires sound { IsSound D.Disk J.schema J.base J.opened keeper.now }
    requires chunk { IsNewChunk (J.schema keeper.now.kept.line.index) new.now }
    ensures ends { (before : List Step) → WasAnswered J (J.base keeper.now.kept.line.index) before new.now keeper.now.kept.line keeper.now.kept.files → keeper.now.kept.line.history ≡ before ++ end_behind (J.base keeper.now.kept.line.index) before new.now ∷ [] }
    ensures files { (before : List Step) → WasAnswered J (J.base keeper.now.kept.line.index) before new.now keeper.now.kept.line keeper.now.kept.files → EndsIn D.Disk (J.schema keeper.now.kept.line.index) (last_snapshot (J.base keeper.now.kept.line.index) before) new.now keeper.now.kept.files keeper.now.kept.disk }
    ensures root { (before : List Step) → WasAnswered J (J.base keeper.now.kept.line.index) before new.now keeper.now.kept.line keeper.now.kept.files → KeepsRoot D.Disk keeper.now.kept.files keeper.now.kept.disk }
{}

/// In any state between calls, whatever a crash leaves gives the documents of the history, or of the history and the step that waits,
/// be that a commit or the end of a job.
pub fn a_step_that_waits_or_not_survives_a_crash<D: Disk, J: Naming>(keeper: &Keeper<D, J>)
    requires { IsSound D.Disk J.schema J.base J.opened keeper.now }
    ensures { (x : Image) → D.may_leave keeper.now.kept.disk x → GivesEither (J.schema keeper.now.kept.line.index) (J.base keeper.now.kept.line.index) keeper.now.kept.line.history keeper.now.kept.line.waiting x }
{}
