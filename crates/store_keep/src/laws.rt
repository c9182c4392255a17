//! What a sound keeper means. Each law is a function with an empty body: its clauses are the law.
ghost use Rattle.std.specs.Prelude.{◌≡◌, None};
ghost use Rattle.std.specs.List.{AllZip};
ghost use Rattle.chunk_store.specs.Images.{Image, Told};
ghost use Rattle.step_history.specs.History.{last_snapshot};
ghost use Rattle.step_history.specs.Logs.{log_at};
ghost use Rattle.step_history.specs.Places.{disk_chunks};
ghost use Rattle.step_line.specs.Lines.{entered};
ghost use Rattle.store_steps.specs.Directory.{IsChunkFile};
ghost use Rattle.store_steps.specs.Kept.{Gives, GivesEither};
ghost use Rattle.store_keep.specs.Keepers.{IsSound};

use crate::keeper::Keeper;
use chunk_store::Disk;
use step_book::Naming;

/// Whatever a crash leaves between two calls gives the published documents, or these and the step that waits; and once no record is
/// staged, as after a commit that was made or that found no memory to be published, it gives all of them.
pub fn a_crash_between_calls_leaves_the_documents<D: Disk, J: Naming>(keeper: &Keeper<D, J>)
    requires { IsSound D.Disk J.schema J.base J.opened keeper.now }
    ensures either { (x : Image) → D.may_leave keeper.now.kept.disk x → GivesEither (J.schema keeper.now.kept.line.index) (J.base keeper.now.kept.line.index) keeper.now.kept.line.history keeper.now.kept.line.waiting x }
    ensures all { keeper.now.kept.files.log.staged ≡ None → (x : Image) → D.may_leave keeper.now.kept.disk x → Gives (J.schema keeper.now.kept.line.index) (J.base keeper.now.kept.line.index) (entered keeper.now.kept.line) x }
{}

/// The files that the root's own state names are images of the chunks on the disk, in order: those of the last snapshot, or of the
/// step that waits. Where nothing waits, and no record is staged, the log ends where the history's does.
pub fn files_between_calls_are_those_of_the_history<D: Disk, J: Naming>(keeper: &Keeper<D, J>)
    requires { IsSound D.Disk J.schema J.base J.opened keeper.now }
    ensures chunks { Told (λ image. AllZip (IsChunkFile (J.schema keeper.now.kept.line.index) image) keeper.now.kept.files.state.chunks (disk_chunks (last_snapshot (J.base keeper.now.kept.line.index) (entered keeper.now.kept.line)))) (D.told keeper.now.kept.disk) }
    ensures end { keeper.now.kept.line.waiting ≡ None → keeper.now.kept.files.log.staged ≡ None → keeper.now.kept.files.log.end ≡ log_at (J.base keeper.now.kept.line.index) keeper.now.kept.line.history }
{}
