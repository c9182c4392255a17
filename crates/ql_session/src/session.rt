//! A session: it answers the commands of a connection, and a command's text is read and its statements run.
ghost use Rattle.std.specs.Prelude.{◌≡◌};
ghost use Rattle.mysql_wire.specs.CommandValues.{command_value};
ghost use Rattle.reply_rows.specs.Written.{begun};
ghost use Rattle.ql_session.specs.Fitting.{Fits};
ghost use Rattle.ql_session.specs.Session.{TakesStep};
ghost use Rattle.ql_session.specs.steps.Running.{RepliesText};

use crate::TableStore;
use crate::running::run_all;
use crate::texts::statements;
use mysql_wire::Command;
use ql_answers::{StatementMachine, put_refusal};
use ql_refusals::no_memory;
use reply_rows::Replies;
use srch_base::Or;
use std::alloc::Global;
use std::marker::Model;

/// What came of a command.
#[derive(Clone, Copy, PartialEq, Eq)]
pub enum StepEnd {
    /// A reply was appended.
    Reply,
    /// COM_QUIT: nothing is replied, and the connection ends.
    Quit,
}

/// One client's session: what is kept between its statements. Contracts see it as a `State`.
#[derive(Drop)]
pub struct Session {
    machine: StatementMachine,
}

impl Model for Session {
    ghost use Rattle.ql_answers.specs.declared.state.State.{State};

    ghost Value = { State };

    ghost view = { λ session. session.machine.state };
}

impl Session {
    ghost use Rattle.ql_answers.specs.States.{new_state, status_of};
    ghost use Rattle.std.specs.Prelude.{false};

    /// A session that begins: autocommit is 1.
    pub fn new() -> Session
        ensures { result ≡ new_state }
    {
        Session {
            machine: StatementMachine::new(),
        }
    }

    /// Answers one command by packets from number 1 on, over indexes of which that is pending in the session can be committed, as it is
    /// where a session has always one store. Replies of one packet take no memory. Where a statement's memory is refused, nothing of it
    /// was done, and the reply says so.
    pub fn step<T: TableStore>(
        &mut self,
        alloc: Global,
        tables: &mut T,
        command: Command<'_>,
        replies: &mut Replies,
    ) -> StepEnd
        requires begun { replies.old ≡ begun 1 }
        requires fits { Fits (T.confs tables.old) self.old }
        ensures steps { TakesStep T.confs T.words result self.old (command_value command.entry) tables.old tables.new replies.new.bytes self.new }
        ensures fits { Fits (T.confs tables.new) self.new }
        ensures confs { T.confs tables.new ≡ T.confs tables.old }
    {
        match command {
            Command::Quit => StepEnd::Quit,
            Command::Query(text) => {
                self.query(alloc, tables, text, replies);
                StepEnd::Reply
            }
            Command::Ping | Command::InitDb(_) => {
                replies.put_ok(0, self.status());
                StepEnd::Reply
            }
            Command::SetOption(_) => {
                replies.put_eof(self.status());
                StepEnd::Reply
            }
            Command::Unknown(_) => {
                replies.put_error(1047, *b"08S01", b"unknown command");
                StepEnd::Reply
            }
        }
    }

    /// The status of a packet after which none of the same command follows.
    pub(crate) fn status(&self) -> u16
        ensures { result ≡ status_of self.now false }
    {
        self.machine.status(false)
    }

    /// Answers a text.
    fn query<T: TableStore>(
        &mut self,
        alloc: Global,
        tables: &mut T,
        text: &[u8],
        replies: &mut Replies,
    )
        requires begun { replies.old ≡ begun 1 }
        requires fits { Fits (T.confs tables.old) self.old }
        ensures replies { RepliesText T.confs T.words self.old text.now tables.old tables.new replies.new.bytes self.new }
        ensures fits { Fits (T.confs tables.new) self.new }
        ensures confs { T.confs tables.new ≡ T.confs tables.old }
    {
        match statements(alloc, text) {
            Ok(list) => run_all(alloc, &mut self.machine, tables, &list, replies),
            Err(Or::NoMemory) => put_refusal(&no_memory(), replies),
            Err(Or::Fault(refusal)) => put_refusal(&refusal, replies),
        }
    }
}
