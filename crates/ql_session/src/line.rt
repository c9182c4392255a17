//! A session over a connection: `serve_line` reads and writes, and the session answers.
ghost use Rattle.std.specs.Prelude.{List};
ghost use Rattle.srch_base.specs.Moves.{Moves};
ghost use Rattle.serve_line.specs.Machines.{FollowAll};
ghost use Rattle.ql_session.specs.Events.{Event, Follows};
ghost use Rattle.ql_session.specs.Session.{IsSession};

use crate::TableStore;
use crate::answering::SessionOver;
use serve_line::{LinkEnd, serve};
use srch_base::Link;
use std::alloc::Global;

/// Serves one connection from the greeting to its end. `connection` is the number that the greeting shows.
///
/// The packets before a read that failed are answered. Documents that were committed stay, however the connection ends.
pub fn serve_link<T: TableStore, K: Link>(
    alloc: Global,
    tables: &mut T,
    connection: u32,
    link: &mut K,
) -> LinkEnd
    ensures { Moves K.Link link.old link.new (λ before now read written.
        (events : List (Event T.Front)) × IsSession T.words.documents connection before now read written result events × FollowAll (Follows T.confs T.words) tables.old events tables.new) }
{
    let mut session: SessionOver<T> = SessionOver::new();
    serve(alloc, &mut session, tables, connection, link)
}
