//! Taking the next packet from the framer: the response to the greeting, or a command.
ghost use Rattle.std.specs.Prelude.{◌≡◌, None};
ghost use Rattle.mysql_wire.specs.Framing.{Waits};
ghost use Rattle.reply_rows.specs.Written.{begun};
ghost use Rattle.serve_line.specs.steps.Serving.{TakesCommand, TakesResponse};

use crate::Answerer;
use mysql_wire::{BadHandshake, Command, Framer, Next, read_command, read_response41};
use reply_rows::Replies;
use std::alloc::Global;

/// What came of the next command's packet.
#[derive(Clone, Copy)]
pub(crate) enum Taken {
    Reply,
    Quit,
    TooLarge { length: u32, seq: u8 },
    OutOfOrder { seq: u8 },
}

/// What came of the packet that answers the greeting.
#[derive(Clone, Copy)]
pub(crate) enum Shaken {
    Accepted,
    Bad { place: u32 },
    TooLarge { length: u32, seq: u8 },
    OutOfOrder { seq: u8 },
}

/// Takes the next command's packet from the framer, and has it answered.
pub(crate) fn take_command<A: Answerer>(
    alloc: Global,
    answerer: &mut A,
    store: &mut A::Store,
    framer: &mut Framer,
    replies: &mut Replies,
) -> Taken
    requires whole { Waits 0 framer.old → ⊥ }
    requires good { framer.old.refused ≡ None }
    requires begun { replies.old ≡ begun 1 }
    requires fits { A.fits answerer.old store.old }
    ensures takes { TakesCommand A.machine A.follows result framer.old.held framer.new answerer.old answerer.new store.old store.new replies.new.bytes }
    ensures fits { A.fits answerer.new store.new }
{
    match framer.next(0) {
        Next::NeedMore => unreachable!(),
        Next::TooLarge { length, seq } => Taken::TooLarge { length, seq },
        Next::OutOfOrder { seq } => Taken::OutOfOrder { seq },
        Next::Packet { payload, .. } => match read_command(payload) {
            Command::Quit => Taken::Quit,
            command => {
                answerer.answer(alloc, store, command, replies);
                Taken::Reply
            }
        },
    }
}

/// Takes the packet that answers the greeting from the framer.
pub(crate) fn take_response(framer: &mut Framer) -> Shaken
    requires whole { Waits 1 framer.old → ⊥ }
    requires good { framer.old.refused ≡ None }
    ensures { TakesResponse result framer.old.held framer.new }
{
    match framer.next(1) {
        Next::NeedMore => unreachable!(),
        Next::TooLarge { length, seq } => Shaken::TooLarge { length, seq },
        Next::OutOfOrder { seq } => Shaken::OutOfOrder { seq },
        Next::Packet { payload, .. } => match read_response41(payload) {
            Ok(_) => Shaken::Accepted,
            Err(BadHandshake { place }) => Shaken::Bad { place },
        },
    }
}
