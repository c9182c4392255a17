//! One worker at its seat.
ghost use Rattle.std.specs.Prelude.{◌<◌, ◌^◌, ◌*◌};
ghost use Rattle.line_workers.specs.steps.Working.{CanWork, HasWorked};

use crate::Seat;
use crate::serving::serve_lines;
use chunk_store::Disk;
use engine_tables::{Engines, WorkerTables};
use srch_base::Door;
use std::alloc::Global;
use std::sync::Wait;
use step_book::Naming;

/// Serves the lines of the seat's door, at most `sessions` many, over the seat's tokens of these engines.
pub(crate) fn work<D: Disk, E: Door, J: Naming, R: Wait>(
    rt: &R,
    alloc: Global,
    engines: &Engines<D, J>,
    sessions: u32,
    seat: &mut Seat<E, J>,
)
    requires numbers { engines.now.workers * sessions < 2 ^ 32 }
    requires can { CanWork E.Door engines.now seat.old }
    ensures { HasWorked E.Door E.Line.Link J.schema J.base engines.now sessions seat.old seat.new }
{
    let Some(tokens) = seat.tokens.take() else {
        unreachable!()
    };
    let worker = tokens.worker();
    let workers = engines.workers();
    let mut tables = WorkerTables::over(rt, engines, tokens);
    seat.end = serve_lines(
        alloc,
        &mut tables,
        workers,
        worker,
        sessions,
        &mut seat.door,
    );
    seat.tokens = Some(tables.into_tokens());
}
