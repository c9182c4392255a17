//! What answers the commands of a connection. The connection reads whole packets, writes whole replies and knows when to stop; what a
//! command asks for, COM_QUIT aside, it hands on. So a server of other commands or statements writes an `Answerer`, and
//! the loops that serve a connection stay as they are.
ghost use Rattle.std.specs.Prelude.{◌≡◌, ◌≢◌};
ghost use Rattle.mysql_wire.specs.CommandValues.{command_value};
ghost use Rattle.mysql_wire.specs.Commands.{Quit as asks_quit};
ghost use Rattle.reply_rows.specs.Written.{begun};
ghost use Rattle.serve_line.specs.Machines.{Answered};

use mysql_wire::Command;
use reply_rows::Replies;
use std::alloc::Global;

/// One client's session: it answers the commands of one connection, and keeps what must be kept between them.
pub trait Answerer {
    ghost use Rattle.std.specs.Prelude.{◌≡◌};
    ghost use Rattle.serve_line.specs.Machines.{Machine};

    /// What the answers come from and change, beside the session: the documents.
    type Store;

    /// What the store decided about a command, as contracts see it.
    ghost Event: { Type 0 };

    /// How commands are answered.
    ghost machine: { Machine Self Event };

    /// What an event says of the store before and after it.
    ghost follows: { Self.Store → Event → Self.Store → Type 0 };

    /// What holds between the session and the store before and after each answer.
    ghost fits: { Self → Self.Store → Type 0 };

    /// The status that packets carry in this state of the session.
    fn status(&self) -> u16
        ensures { result ≡ machine.status self.now };

    /// Answers a command, by packets from number 1 on.
    fn answer(
        &mut self,
        alloc: Global,
        store: &mut Self::Store,
        command: Command<'_>,
        replies: &mut Replies,
    )
        requires other { command_value command ≢ asks_quit }
        requires begun { replies.old ≡ begun 1 }
        requires fits { fits self.old store.old }
        ensures answers { Answered machine follows self.old (command_value command.entry) store.old store.new replies.new.bytes self.new }
        ensures fits { fits self.new store.new };
}
