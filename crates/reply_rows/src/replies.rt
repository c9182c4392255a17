//! The replies to one command, as they are written: packets numbered on from one another.
//!
//! What was done is answered OK, and what can't be done is refused, also where no memory is left. So the buffer has room
//! kept in it: 1,024 bytes hold 32 OKs of 24 bytes at most and a refusal of 256. Result sets take memory, and leave the
//! room as they found it.
ghost use Rattle.std.specs.Prelude.{◌≡◌, ◌+◌, ◌-◌, ◌%◌, ◌≤◌, [], ◌∷◌, ◌++◌, IfOk, OnOk, OnErr, false, true, length, map, vec_capacity};
ghost use Rattle.mysql_wire.specs.Replies.{ok_payload, err_payload, eof_payload};
ghost use Rattle.reply_rows.specs.ResultSets.{sets_payloads};
ghost use Rattle.reply_rows.specs.Written.{IsOpen, begun, then_reply};

use crate::result_set::ResultSet;
use crate::table::Table;
use crate::writing::append_tables;
use mysql_wire::{Small, eof_packet, err_packet, ok_packet};
use srch_base::NoMemory;
use std::alloc::Global;
use std::marker::Model;
use std::slice;

/// The size that the buffer begins with, in bytes.
const ROOM: usize = 1024;

/// The size up to which the buffer is kept for the next command, in bytes.
const KEPT: usize = 65_536;

/// How many replies a command may have.
const REPLIES: u8 = 32;

/// The replies to one command. Contracts see them as a `Written`.
#[derive(Drop)]
pub struct Replies {
    out: Vec<u8>,
    next: u8,
    room: u8,
    refused: bool,
}

impl Model for Replies {
    ghost use Rattle.std.specs.Prelude.{◌≡◌, ◌+◌, ◌*◌, ◌≤◌, false, vec_len, vec_capacity};
    ghost use Rattle.reply_rows.specs.Written.{Written};

    ghost Value = { Written };

    ghost view = { λ r. record { bytes = r.out.items; next = r.next; room = r.room; refused = r.refused } };

    ghost invariant = { λ r. (1024 ≤ vec_capacity r.out) × (r.refused ≡ false → vec_len r.out + 256 + 24 * r.room ≤ vec_capacity r.out) };
}

impl Replies {
    /// No reply, with the room for 32. The first packet has the number `seq`.
    pub fn new(alloc: Global, seq: u8) -> Result<Replies, NoMemory>
        ensures { IfOk result (λ replies. replies ≡ begun seq) }
    {
        Ok(Replies {
            out: Vec::with_capacity(alloc, ROOM)?,
            next: seq,
            room: REPLIES,
            refused: false,
        })
    }

    /// No reply, in a buffer that is empty. The first packet has the number `seq`.
    pub fn over(out: Vec<u8>, seq: u8) -> Replies
        requires empty { out.items ≡ [] }
        requires room { 1024 ≤ vec_capacity out }
        ensures { result ≡ begun seq }
    {
        Replies {
            out,
            next: seq,
            room: REPLIES,
            refused: false,
        }
    }

    /// The buffer, which has 1,024 bytes at least.
    pub fn into_out(self) -> Vec<u8>
        ensures items { result.items ≡ self.bytes }
        ensures room { 1024 ≤ vec_capacity result }
    {
        self.out
    }

    /// Begins anew. Memory beyond 65,536 bytes is given back.
    pub fn begin(&mut self, seq: u8)
        ensures { self.new ≡ begun seq }
    {
        self.out.clear();
        self.out.shrink_to(KEPT);
        self.next = seq;
        self.room = REPLIES;
        self.refused = false;
    }

    /// The packets so far.
    pub fn bytes(&self) -> &[u8]
        ensures { result.now ≡ self.now.bytes }
    {
        self.out.as_slice()
    }

    /// Whether the last reply is a refusal, after which none may follow.
    pub fn is_refused(&self) -> bool
        ensures { result ≡ self.now.refused }
    {
        self.refused
    }

    /// Appends a reply of one packet, for which there is room.
    fn put_small(&mut self, packet: &Small, refused: bool)
        requires open { IsOpen self.old }
        requires short { refused ≡ false → length packet.now ≤ 24 }
        ensures { self.new ≡ record { bytes = self.old.bytes ++ packet.now; next = (self.old.next + 1) % 256; room = self.old.room - 1; refused = refused } }
    {
        let _ = self.out.extend_from_slice(packet.bytes());
        self.next = self.next.wrapping_add(1);
        self.room -= 1;
        self.refused = refused;
    }

    /// OK, with the number of rows affected. It takes no memory.
    #[tactic(auto, using(crate::proofs::Short::ok_is_short))]
    pub fn put_ok(&mut self, affected: u64, status: u16)
        requires { IsOpen self.old }
        ensures { self.new ≡ then_reply self.old (ok_payload affected status ∷ []) false }
    {
        let packet = ok_packet(self.next, affected, status);
        self.put_small(&packet, false);
    }

    /// EOF, which answers COM_SET_OPTION. It takes no memory.
    #[tactic(auto, using(crate::proofs::Short::eof_is_short))]
    pub fn put_eof(&mut self, status: u16)
        requires { IsOpen self.old }
        ensures { self.new ≡ then_reply self.old (eof_payload status ∷ []) false }
    {
        let packet = eof_packet(self.next, status);
        self.put_small(&packet, false);
    }

    /// ERR: a refusal, by the protocol's code, the SQL state and a text. No reply follows it. It takes no memory.
    pub fn put_error(&mut self, code: u16, state: [u8; 5], text: &[u8])
        requires open { IsOpen self.old }
        requires short { length text.now ≤ 200 }
        ensures { self.new ≡ then_reply self.old (err_payload code state text.now ∷ []) true }
    {
        let packet = err_packet(self.next, code, state, text);
        self.put_small(&packet, true);
    }

    /// A result set. After an `Err` the replies are as they were.
    pub fn put_set(&mut self, alloc: Global, set: &ResultSet, status: u16) -> Result<(), NoMemory>
        requires { IsOpen self.old }
        ensures ok { OnOk result (self.new ≡ then_reply self.old (sets_payloads status (set.now ∷ [])) false) }
        ensures err { OnErr result (self.new ≡ self.old) }
    {
        self.put_tables(alloc, slice::from_ref(set), status)
    }

    /// What is shown as result sets, one after another, as one reply: all but the last say by their status that another follows.
    /// One buffer serves all payloads of a set, so that a row takes no memory of its own. After an `Err` the replies are as they
    /// were.
    pub fn put_tables<T: Table>(
        &mut self,
        alloc: Global,
        tables: &[T],
        status: u16,
    ) -> Result<(), NoMemory>
        requires { IsOpen self.old }
        ensures ok { OnOk result (self.new ≡ then_reply self.old (sets_payloads status (map T.set tables.now)) false) }
        ensures err { OnErr result (self.new ≡ self.old) }
    {
        self.next = append_tables(alloc, tables, self.next, status, &mut self.out)?;
        self.room -= 1;
        Ok(())
    }
}
