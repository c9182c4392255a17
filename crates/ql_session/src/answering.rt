//! A session as what answers the commands of a connection, over stores of one type.
ghost use Rattle.std.specs.Prelude.{◌≡◌};

use crate::{Session, TableStore};
use mysql_wire::Command;
use reply_rows::Replies;
use serve_line::Answerer;
use std::alloc::Global;
use std::marker::{Model, PhantomData};

/// A session over stores of one type. Contracts see it as a `State`.
#[derive(Drop)]
pub(crate) struct SessionOver<T: TableStore> {
    session: Session,
    store: PhantomData<T>,
}

impl<T: TableStore> Model for SessionOver<T> {
    ghost use Rattle.ql_answers.specs.declared.state.State.{State};

    ghost Value = { State };

    ghost view = { λ over. over.session };
}

impl<T: TableStore> SessionOver<T> {
    ghost use Rattle.ql_answers.specs.States.{new_state};

    /// A session that begins.
    pub(crate) fn new() -> SessionOver<T>
        ensures { result ≡ new_state }
    {
        SessionOver {
            session: Session::new(),
            store: PhantomData,
        }
    }
}

impl<T: TableStore> Answerer for SessionOver<T> {
    ghost use Rattle.ql_session.specs.Events.{Event, Follows};
    ghost use Rattle.ql_session.specs.Fitting.{Fits};
    ghost use Rattle.ql_session.specs.Session.{statement_machine};

    type Store = T;

    ghost Event = { Event T.Front };

    ghost machine = { statement_machine T.words.documents };

    ghost follows = { Follows T.confs T.words };

    ghost fits = { λ session store. Fits (T.confs store) session };

    fn status(&self) -> u16 {
        self.session.status()
    }

    fn answer(
        &mut self,
        alloc: Global,
        tables: &mut T,
        command: Command<'_>,
        replies: &mut Replies,
    ) {
        let _end = self.session.step(alloc, tables, command, replies);
    }
}
