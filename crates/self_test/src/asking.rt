//! A client of a session: it sends texts, and looks at what is replied.
ghost use Rattle.std.specs.Prelude.{◌≡◌, ◌+◌, ◌≤◌, ◌++◌, ◌∷◌, [], ℕ, List, IfOk, drop, false, length};
ghost use Rattle.mysql_wire.specs.Packets.{max_payload, packet, packets_from};
ghost use Rattle.ql_session.specs.Fitting.{Fits};
ghost use Rattle.ql_session.specs.Statements.{States};
ghost use Rattle.ql_tree.specs.declared.statement.Statement.{Statement};
ghost use Rattle.ql_tree.specs.declared.statement.Statement.TheVariants as statements;
ghost use Rattle.ql_write.specs.Canonical.{canonical_text};
ghost use Rattle.self_test.specs.Asking.{AreTold, Asks, Leads};
ghost use Rattle.self_test.specs.Texts.{count_select};
ghost use Rattle.self_test.specs.declared.summary.Count.{Count};
ghost use Rattle.self_test.specs.steps.Replies.{RowsOr, is_err, is_err_of, stops};

use crate::Astray;
use mysql_wire::{Command, ok_packet};
use ql_session::{Session, TableStore, a_text_is_read_in_one_way};
use reply_rows::Replies;
use srch_base::{NoMemory, Or};
use std::alloc::Global;

/// The longest reply whose rows are counted, in bytes: as long as the payload of a packet may be.
const MAX_REPLY: usize = 8_388_608;

/// The packets of a result set beside its rows: the number of columns, the one column, and an EOF after each part.
const PACKETS_BESIDE_ROWS: usize = 4;

/// The codes of an ERR for want of memory and for a fault of the disk.
const OUT_OF_MEMORY: usize = 1037;

const DISK_FAULT: usize = 1105;

/// A client with a session of its own.
#[derive(Drop)]
pub(crate) struct Client {
    alloc: Global,
    session: Session,
    replies: Replies,
}

impl Client {
    ghost use Rattle.ql_answers.specs.States.{new_state};

    /// A client whose session begins.
    pub(crate) fn new(alloc: Global) -> Result<Client, NoMemory>
        ensures { IfOk result (λ client. client.session ≡ new_state) }
    {
        Ok(Client {
            alloc,
            session: Session::new(),
            replies: Replies::new(alloc, 1)?,
        })
    }

    /// Asks a text.
    fn ask<T: TableStore>(&mut self, tables: &mut T, text: &str)
        requires fits { Fits (T.confs tables.old) self.old.session }
        ensures asks { Asks T.confs T.words text.now self.new.replies.bytes self.old.session tables.old self.new.session tables.new }
        ensures fits { Fits (T.confs tables.new) self.new.session }
        ensures confs { T.confs tables.new ≡ T.confs tables.old }
        ensures leads { Leads T.confs T.words tables.old tables.new }
    {
        self.replies.begin(1);
        let query = Command::Query(text.as_bytes());
        let _end = self
            .session
            .step(self.alloc, tables, query, &mut self.replies);
    }

    /// Tells a text that is to be answered OK, with so many rows affected and this status, or else the answer is this fault. A fault of
    /// the disk is want of memory: the disk is in memory.
    pub(crate) fn tell<T: TableStore>(
        &mut self,
        tables: &mut T,
        text: &str,
        affected: u64,
        status: u16,
        otherwise: Astray,
    ) -> Result<(), Or<Astray>>
        requires fits { Fits (T.confs tables.old) self.old.session }
        ensures told { (statement : Statement) → text.now ≡ canonical_text statement → States text.now (statement ∷ []) → AreTold T.confs T.words (record { statement = statement; affected = affected; status = status; otherwise = otherwise } ∷ []) result self.old.session tables.old self.new.session tables.new }
        ensures fits { Fits (T.confs tables.new) self.new.session }
        ensures confs { T.confs tables.new ≡ T.confs tables.old }
        ensures leads { Leads T.confs T.words tables.old tables.new }
    {
        a_text_is_read_in_one_way();
        self.ask(tables, text);
        if self.replies.bytes() == ok_packet(1, affected, status).bytes() {
            return Ok(());
        }
        if is_stop(self.replies.bytes()) {
            return Err(Or::NoMemory);
        }
        Err(Or::Fault(otherwise))
    }

    /// Asks a text that counts, and gives how many rows were replied.
    pub(crate) fn count_rows<T: TableStore>(
        &mut self,
        tables: &mut T,
        text: &str,
    ) -> Result<u32, Or<Astray>>
        requires fits { Fits (T.confs tables.old) self.old.session }
        ensures rows { (count : Count) → (number : ℕ) → text.now ≡ canonical_text (statements.Select (count_select count number)) → States text.now (statements.Select (count_select count number) ∷ []) → RowsOr T.confs T.words (count_select count number) result self.old.session tables.old self.new.session tables.new }
        ensures fits { Fits (T.confs tables.new) self.new.session }
        ensures confs { T.confs tables.new ≡ T.confs tables.old }
        ensures leads { Leads T.confs T.words tables.old tables.new }
    {
        a_text_is_read_in_one_way();
        self.ask(tables, text);
        let reply = self.replies.bytes();
        if is_stop(reply) {
            return Err(Or::NoMemory);
        }
        if says_err(reply) {
            return Err(Or::Fault(Astray::Unexpected));
        }
        if reply.len() > MAX_REPLY {
            return Err(Or::Fault(Astray::Unexpected));
        }
        Ok(count_packets(reply).saturating_sub(PACKETS_BESIDE_ROWS) as u32)
    }
}

/// A reply is an ERR.
fn says_err(reply: &[u8]) -> bool
    ensures { result ≡ is_err reply.now }
{
    matches!(reply, [_, _, _, _, 255, ..])
}

/// A reply is an ERR with this code.
fn says_err_of(code: usize, reply: &[u8]) -> bool
    ensures { result ≡ is_err_of code reply.now }
{
    match reply {
        [_, _, _, _, kind, low, high, ..] => {
            *kind == 255 && usize::from(*low) + 256 * usize::from(*high) == code
        }
        _ => false,
    }
}

/// A reply says that memory was refused, or that the disk failed.
fn is_stop(reply: &[u8]) -> bool
    ensures { result ≡ stops reply.now }
{
    says_err_of(OUT_OF_MEMORY, reply) || says_err_of(DISK_FAULT, reply)
}

/// How many packets a reply has that is short.
fn count_packets(reply: &[u8]) -> usize
    requires short { length reply.now ≤ max_payload }
    ensures packets { (payloads : List (List ℕ)) → reply.now ≡ packets_from 1 payloads → result ≡ length payloads }
    ensures most { result ≤ length reply.now }
{
    let mut count = 0;
    let mut rest = reply;
    'packets: while !rest.is_empty() {
        rest = behind_packet(rest);
        count += 1;
    }
    count
}

/// What stands behind the packet that some bytes begin with.
fn behind_packet(bytes: &[u8]) -> &[u8]
    requires some { 1 ≤ length bytes.now }
    ensures rest { (seq : ℕ) → (payload rest : List ℕ) → length payload ≤ max_payload → bytes.now ≡ packet seq payload ++ rest → result.now ≡ rest }
    ensures shorter { length result.now + 1 ≤ length bytes.now }
{
    match bytes {
        [low, middle, high, _, ..] => {
            let size = usize::from(*low) + 256 * usize::from(*middle) + 65_536 * usize::from(*high);
            behind(bytes, 4 + size)
        }
        _ => &[],
    }
}

/// What stands behind so many bytes.
fn behind(bytes: &[u8], size: usize) -> &[u8]
    ensures { result.now ≡ drop size bytes.now }
{
    if size < bytes.len() {
        &bytes[size..]
    } else {
        &[]
    }
}
