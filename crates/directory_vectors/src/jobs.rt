//! Jobs of a script: each is begun and ended with a token of its own, so that commits go on between.
ghost use Rattle.std.specs.Prelude.{◌≡◌, None};
ghost use Rattle.directory_vectors.specs.Ready.{IsOwn, IsReady, IsSeat};
ghost use Rattle.doc_types.specs.Schemas.{IsSchema};

use crate::seats::Seat;
use chunk_store::Disk;
use job_chunks::NewChunk;
use srch_base::NoMemory;
use std::alloc::Global;
use std::sync::Wait;
use step_book::Naming;
use step_history::Job;
use step_tokens::{Note, Token, snapshot};
use store_keep::{InstallFault, Keeper};

/// A worker that began no job.
pub(crate) fn seated<J: Naming>(token: Token<J>) -> Seat<J>
    requires { IsOwn token }
    ensures { IsSeat (J.schema 0) (J.base 0) result.token result.chunk }
{
    Seat { token, chunk: None }
}

/// What became of a job. `#` is that it took effect, `~` that another one did before it, and `!` that the disk failed before it could.
fn word_of_job<J: Naming>(answer: &Result<Note<J>, InstallFault<J>>) -> &'static str {
    match answer {
        Ok(_) => " #",
        Err(InstallFault::Overtaken { .. }) => " ~",
        Err(InstallFault::DiskFault) => " !",
        Err(_) => " no answer of these",
    }
}

/// Begins a job over what is there, in place of one that was begun before.
pub(crate) fn begin<J: Naming>(alloc: Global, seat: &mut Seat<J>, job: Job) -> Option<()>
    requires columns { IsSchema (J.schema 0) }
    requires seat { IsSeat (J.schema 0) (J.base 0) seat.old.token seat.old.chunk }
    ensures { IsSeat (J.schema 0) (J.base 0) seat.new.token seat.new.chunk }
{
    seat.chunk = None;
    match snapshot(&mut seat.token) {
        Ok(found) => match NewChunk::build(alloc, &found, job) {
            Ok(new) => {
                seat.chunk = Some(new);
                Some(())
            }
            Err(_) => None,
        },
        Err(NoMemory) => None,
    }
}

/// Ends the job that was begun, and answers what became of it.
pub(crate) fn end<D: Disk, J: Naming, R: Wait>(
    rt: &R,
    keeper: &mut Keeper<D, J>,
    seat: &mut Seat<J>,
) -> &'static str
    requires ready { IsReady D.Disk J.schema J.base J.opened keeper.old }
    requires seat { IsSeat (J.schema 0) (J.base 0) seat.old.token seat.old.chunk }
    ensures ready { IsReady D.Disk J.schema J.base J.opened keeper.new }
    ensures seat { IsSeat (J.schema 0) (J.base 0) seat.new.token seat.new.chunk }
{
    match seat.chunk.take() {
        Some(new) => {
            let answer = keeper.install(rt, &mut seat.token, new);
            word_of_job(&answer)
        }
        None => " no job",
    }
}
