//! The lines of one door, one after another, over any store.
ghost use Rattle.std.specs.Prelude.{◌≡◌, ◌<◌, ◌≤◌, ◌^◌, ◌*◌, List, length};
ghost use Rattle.line_workers.specs.Lines.{ServesDoor, Service};
ghost use Rattle.line_workers.specs.steps.Turns.{ServesNext};

use ql_session::{TableStore, serve_link};
use srch_base::{Door, Failed};
use std::alloc::Global;

/// How a worker ended.
#[derive(Clone, Copy, PartialEq, Eq)]
pub enum SeatEnd {
    /// It hasn't begun.
    Ready,
    /// Its door has ended, or gave as many lines as it may.
    Done,
    /// Its door failed.
    HostFault,
}

/// What came of the next line of a door.
#[derive(Clone, Copy)]
pub(crate) enum Next {
    /// It was served and handed back.
    Served,
    /// There is none any more.
    Ended,
    /// The door failed.
    Failed,
}

/// Takes the next line from the door, serves it to its end and hands it back. However the line ends, its door goes on.
fn serve_next<T: TableStore, E: Door>(
    alloc: Global,
    tables: &mut T,
    connection: u32,
    door: &mut E,
) -> Next
    requires { length (E.returned door.old) ≤ length (E.given door.old) }
    ensures { ServesNext E.Door E.Line.Link T.confs T.words connection door.old door.new tables.old tables.new result }
{
    match door.next() {
        Ok(Some(mut line)) => {
            let _end = serve_link(alloc, tables, connection, &mut line);
            door.done(line);
            Next::Served
        }
        Ok(None) => Next::Ended,
        Err(Failed) => Next::Failed,
    }
}

/// Serves the lines of a worker's door, at most `sessions` many. The worker is one of so many, counted from 1.
pub fn serve_lines<T: TableStore, E: Door>(
    alloc: Global,
    tables: &mut T,
    workers: u32,
    worker: u32,
    sessions: u32,
    door: &mut E,
) -> SeatEnd
    requires within { length (E.returned door.old) ≤ length (E.given door.old) }
    requires worker { worker ≤ workers }
    requires numbers { workers * sessions < 2 ^ 32 }
    ensures { (services : List (Service E.Line T.Front)) × ServesDoor E.Door E.Line.Link T.confs T.words workers worker sessions services door.old door.new result tables.old tables.new }
{
    for line in 0..sessions {
        match serve_next(alloc, tables, workers * line + worker, door) {
            Next::Served => {}
            Next::Ended => return SeatEnd::Done,
            Next::Failed => return SeatEnd::HostFault,
        }
    }
    SeatEnd::Done
}
