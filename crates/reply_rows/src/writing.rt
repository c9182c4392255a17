//! The packets of result sets.
ghost use Rattle.std.specs.Prelude.{◌≡◌, ◌+◌, ◌≤◌, ◌++◌, [], ◌∷◌, map, OnOk, OnErr, IfOk, vec_len, vec_capacity, if◌then◌else◌};
ghost use Rattle.mysql_wire.specs.Replies.{eof_payload};
ghost use Rattle.mysql_wire.specs.Packets.{packets_from, sequence_after};
ghost use Rattle.mysql_wire.specs.Rows.{column_payload, row_payload};
ghost use Rattle.reply_rows.specs.ResultSets.{followed, set_payloads, sets_payloads};
ghost use Rattle.reply_rows.specs.steps.Appending.{Appends};

use crate::table::Table;
use mysql_wire::{Small, eof_packet, put_column, put_lenenc, put_packet};
use srch_base::NoMemory;
use std::alloc::Global;

/// A payload of this many bytes would go on in another packet, so none reaches it ("Sending More Than 16Mb").
const SPLIT_LENGTH: usize = 16_777_215;

/// Appends what is shown as result sets, one after another, their packets numbered on from `seq`, and gives the number of the
/// packet after them. All but the last say by their status that another follows. After an `Err` the bytes are as they were; the
/// spare room afterwards is at least what it was before.
///
/// One buffer serves all payloads of a set, so that a row takes no memory of its own.
pub(crate) fn append_tables<T: Table>(
    alloc: Global,
    tables: &[T],
    seq: u8,
    status: u16,
    out: &mut Vec<u8>,
) -> Result<u8, NoMemory>
    ensures ok { IfOk result (λ next. (next ≡ sequence_after seq (sets_payloads status (map T.set tables.now))) × (out.new.items ≡ out.old.items ++ packets_from seq (sets_payloads status (map T.set tables.now)))) }
    ensures err { OnErr result (out.new.items ≡ out.old.items) }
    ensures room { vec_capacity out.old + vec_len out.new ≤ vec_capacity out.new + vec_len out.old }
    ensures capacity { vec_capacity out.old ≤ vec_capacity out.new }
{
    let before = out.len();
    let spare = out.capacity() - before;
    match write_and_reserve(alloc, tables, seq, status, spare, out) {
        Ok(next) => Ok(next),
        Err(NoMemory) => {
            out.truncate(before);
            Err(NoMemory)
        }
    }
}

fn write_and_reserve<T: Table>(
    alloc: Global,
    tables: &[T],
    seq: u8,
    status: u16,
    spare: usize,
    out: &mut Vec<u8>,
) -> Result<u8, NoMemory>
    ensures appends { Appends result seq (sets_payloads status (map T.set tables.now)) out.old.items out.new.items }
    ensures room { OnOk result (vec_len out.new + spare ≤ vec_capacity out.new) }
    ensures capacity { vec_capacity out.old ≤ vec_capacity out.new }
{
    let next = write_sets(alloc, tables, seq, status, out)?;
    out.reserve_exact(spare)?;
    Ok(next)
}

/// Appends result sets, or a prefix of their packets. It calls itself once for each.
fn write_sets<T: Table>(
    alloc: Global,
    tables: &[T],
    seq: u8,
    status: u16,
    out: &mut Vec<u8>,
) -> Result<u8, NoMemory>
    ensures appends { Appends result seq (sets_payloads status (map T.set tables.now)) out.old.items out.new.items }
    ensures capacity { vec_capacity out.old ≤ vec_capacity out.new }
{
    match tables.split_first() {
        None => Ok(seq),
        Some((table, rest)) => {
            let own = own_status(status, rest.is_empty());
            let next = write_set(alloc, table, seq, own, out)?;
            write_sets(alloc, rest, next, status, out)
        }
    }
}

/// The status of a result set: that of the last one, or one that says that another follows.
fn own_status(status: u16, last: bool) -> u16
    ensures { result ≡ if last then status else followed status }
{
    if last { status } else { followed(status) }
}

/// A status that also says that another result set follows.
fn followed(status: u16) -> u16
    ensures { result ≡ followed status }
{
    if status >> 3 & 1 == 1 {
        status
    } else {
        status + 8
    }
}

/// Appends a result set, or a prefix of its packets.
fn write_set<T: Table>(
    alloc: Global,
    table: &T,
    seq: u8,
    status: u16,
    out: &mut Vec<u8>,
) -> Result<u8, NoMemory>
    ensures appends { Appends result seq (set_payloads status (T.set table.now)) out.old.items out.new.items }
    ensures capacity { vec_capacity out.old ≤ vec_capacity out.new }
{
    let mut payload = Vec::new(alloc);
    put_lenenc(table.columns() as u64, &mut payload)?;
    let first = write_payload(seq, payload.as_slice(), out)?;
    let second = write_columns(table, &mut payload, first, out)?;
    let third = write_eof(second, status, out)?;
    let fourth = write_rows(table, &mut payload, third, out)?;
    write_eof(fourth, status, out)
}

fn write_columns<T: Table>(
    table: &T,
    payload: &mut Vec<u8>,
    seq: u8,
    out: &mut Vec<u8>,
) -> Result<u8, NoMemory>
    ensures appends { Appends result seq (map column_payload (T.set table.now).columns) out.old.items out.new.items }
    ensures capacity { vec_capacity out.old ≤ vec_capacity out.new }
{
    let mut next = seq;
    'columns: for at in 0..table.columns() {
        payload.clear();
        put_column(table.column(at), payload)?;
        match write_payload(next, payload.as_slice(), out) {
            Ok(after) => next = after,
            Err(NoMemory) => return Err(NoMemory),
        }
    }
    Ok(next)
}

fn write_rows<T: Table>(
    table: &T,
    payload: &mut Vec<u8>,
    seq: u8,
    out: &mut Vec<u8>,
) -> Result<u8, NoMemory>
    ensures appends { Appends result seq (map row_payload (T.set table.now).rows) out.old.items out.new.items }
    ensures capacity { vec_capacity out.old ≤ vec_capacity out.new }
{
    let mut next = seq;
    'rows: for at in 0..table.rows() {
        payload.clear();
        table.put_row(at, payload)?;
        match write_payload(next, payload.as_slice(), out) {
            Ok(after) => next = after,
            Err(NoMemory) => return Err(NoMemory),
        }
    }
    Ok(next)
}

fn write_eof(seq: u8, status: u16, out: &mut Vec<u8>) -> Result<u8, NoMemory>
    ensures appends { Appends result seq (eof_payload status ∷ []) out.old.items out.new.items }
    ensures capacity { vec_capacity out.old ≤ vec_capacity out.new }
{
    out.extend_from_slice(eof_packet(seq, status).bytes())?;
    Ok(seq.wrapping_add(1))
}

/// Appends a packet. A payload that no packet can have is want of memory.
fn write_payload(seq: u8, payload: &[u8], out: &mut Vec<u8>) -> Result<u8, NoMemory>
    ensures appends { Appends result seq (payload.now ∷ []) out.old.items out.new.items }
    ensures capacity { vec_capacity out.old ≤ vec_capacity out.new }
{
    if payload.len() >= SPLIT_LENGTH {
        return Err(NoMemory);
    }
    put_packet(seq, payload, out)
}
