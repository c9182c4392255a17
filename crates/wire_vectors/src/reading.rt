//! What a client reads of replies, which the program never does, and what clients say in their response to the greeting, of which
//! the program uses nothing: numbers in each spelling, OK, EOF, ERR, columns, rows and the first field that is faulty in payloads
//! that are none of these.
ghost use Rattle.std.specs.Prelude.{◌<◌, ◌^◌, length};

use mysql_wire::{
    ColumnKind, Response41, WireFault, read_column, read_eof, read_err, read_greeting, read_lenenc,
    read_ok, read_response41, read_row,
};
use srch_base::{Or, Text};
use std::alloc::Global;
use std::test::Fail;

/// What a payload is, its bytes, and two numbers, or the place of the first field that isn't whole or breaks the layout.
///
/// In turn: the recorded greeting, whose connection is told, and fronts of it; numbers in each spelling that the protocol has; OK with
/// its rows and its status; EOF with 0 and its status; the recorded column with bits of a byte changed; payloads that aren't of their
/// kind, among them fronts of the recorded refusal. Then responses to the greeting, with the flags, the user and the database that the
/// clients were told to send: recorded ones of MariaDB's client 10.11 with a password and a database and with neither, of PyMySQL
/// 1.0.2, of PHP 8.2 with mysqli and of Perl with DBD::mysql 4.050; and layouts that none of these uses, an answer up to a NUL and a
/// database up to the end, an answer after a length of three bytes and one of nine with a database that begins at the end, a length
/// of one byte that is no length-encoded number. What wasn't recorded is worked out by the protocol's documentation.
const PAYLOADS: &str = r#"
greeting 0a322e322e31312d727431000100000001020304050607080009a22102000b001500000000000000000000090a0b0c0d0e0f1011121314006d7973716c5f6e61746976655f70617373776f726400 ⇒ 1 0
greeting 0a322e322e31312d727431000100000001020304 ⇒ fault at 16
greeting 0a322e322e31312d727431000100000001020304050607080009a22102000b001500000000000000000000090a0b0c0d0e0f1011121314006d7973716c5f6e61746976655f70617373776f7264 ⇒ fault at 56
greeting 322e322e31312d727431000100000001020304050607080009a22102000b001500000000000000000000090a0b0c0d0e0f1011121314006d7973716c5f6e61746976655f70617373776f726400 ⇒ fault at 0
number fa ⇒ 250 0
number fcfb00 ⇒ 251 0
number fd000001 ⇒ 65536 0
number fe0000000100000000 ⇒ 16777216 0
number fc0500 ⇒ 5 0
number fe0500000000000000 ⇒ 5 0
ok 00000002000000 ⇒ 0 2
ok 00fc01000002000000 ⇒ 1 2
eof fe00000200 ⇒ 0 2
column 036465660100000269640269640c3f0014000000082000000000 ⇒ fault at 4
column 036465660000000269650269640c3f0014000000082000000000 ⇒ fault at 10
column 036465660000000269640269640d3f0014000000082000000000 ⇒ fault at 13
column 036465660000000269640269640c3e0014000000082000000000 ⇒ fault at 14
column 036465660000000269640269640c3f0015000000082000000000 ⇒ fault at 16
column 036465660000000269640269640c3f000b000000082000000000 ⇒ fault at 20
column 036465660000000269640269640c3f0014000000082100000000 ⇒ fault at 21
column 036465660000000269640269640c3f0014000000082000000001 ⇒ fault at 24
number  ⇒ fault at 0
number fb ⇒ fault at 0
number fc01 ⇒ fault at 0
number ff ⇒ fault at 0
number 0500 ⇒ fault at 1
ok fe000002000000 ⇒ fault at 0
ok 00000102000000 ⇒ fault at 2
ok 00000002 ⇒ fault at 3
ok 00000002000100 ⇒ fault at 5
ok 0000000200000000 ⇒ fault at 7
eof fe01000200 ⇒ fault at 1
eof fe000002 ⇒ fault at 3
err ff ⇒ fault at 1
err ff0d04 ⇒ fault at 3
err ff0d042348593030 ⇒ fault at 4
row 0231 ⇒ fault at 0
row 0131ff ⇒ fault at 2
row fbfc01 ⇒ fault at 1
response 8da2bf00000010002100000000000000000000000000000000000000000000007265616465720014b32bb3a583e1340c0a1108d58b1be49781ad8c2f7274006d7973716c5f6e61746976655f70617373776f726400 ⇒ 12558989 reader rt
response 85a2bf0000001000210000000000000000000000000000000000000000000000726f6f7400006d7973716c5f6e61746976655f70617373776f726400 ⇒ 12558981 root none
response 0da23a00ffffff002d00000000000000000000000000000000000000000000006170700014b0df30c74af91ea34514aaab203bd4b707f863757274006d7973716c5f6e61746976655f70617373776f726400 ⇒ 3842573 app rt
response 8da21a00000000c021000000000000000000000000000000000000000000000077656200007274006d7973716c5f6e61746976655f70617373776f726400 ⇒ 1745549 web rt
response 87a2be00000010002d00000000000000000000000000000000000000000000007065726c0014d6735703ddb55a10a902fa57c33fe543b1f570406d7973716c5f6e61746976655f70617373776f726400 ⇒ 12493447 perl none
response 08020000000000000000000000000000000000000000000000000000000000007500616e73776572006462 ⇒ 520 u db
response 000220000000000000000000000000000000000000000000000000000000000000fc02006162 ⇒ 2097664  none
response 08022000000000000000000000000000000000000000000000000000000000007500fe010000000000000061 ⇒ 2097672 u 
response 00820000000000000000000000000000000000000000000000000000000000007500ff616161616161616161616161616161616161616161616161616161616161616161616161616161616161616161616161616161616161616161616161616161616161616161616161616161616161616161616161616161616161616161616161616161616161616161616161616161616161616161616161616161616161616161616161616161616161616161616161616161616161616161616161616161616161616161616161616161616161616161616161616161616161616161616161616161616161616161616161616161616161616161616161616161616161616161616161616161616161616161616161616161616161616161616161616161 ⇒ 33280 u none
"#;

/// The lines of the payloads.
fn lines() -> &'static str {
    PAYLOADS
}

/// The place of the fault that was met.
fn place<T: Drop>(read: Result<T, Or<WireFault>>) -> Option<u64> {
    match read {
        Err(Or::Fault(fault)) => Some(u64::from(fault.place)),
        _ => None,
    }
}

/// The place of the first field of a payload that isn't whole or breaks the layout of its kind.
fn place_of(alloc: Global, kind: &str, payload: &[u8]) -> Option<u64>
    requires { length payload.now < 2 ^ 32 }
{
    match kind {
        "greeting" => place(read_greeting(payload)),
        "number" => place(read_lenenc(payload)),
        "ok" => place(read_ok(payload)),
        "eof" => place(read_eof(payload)),
        "err" => place(read_err(alloc, payload)),
        "column" => place(read_column(alloc, payload)),
        _ => place(read_row(alloc, payload)),
    }
}

/// The numbers of a payload of a greeting, a number, OK or EOF.
fn numbers_in(kind: &str, payload: &[u8]) -> Option<(u64, u16)>
    requires { length payload.now < 2 ^ 32 }
{
    match kind {
        "greeting" => Some((u64::from(read_greeting(payload).ok()?.connection), 0)),
        "number" => Some((read_lenenc(payload).ok()?, 0)),
        "ok" => {
            let ok = read_ok(payload).ok()?;
            Some((ok.affected, ok.status))
        }
        _ => Some((0, read_eof(payload).ok()?.status)),
    }
}

/// Whether a payload has these numbers.
fn has_numbers(kind: &str, payload: &[u8], wanted: &str) -> Option<bool>
    requires { length payload.now < 2 ^ 32 }
{
    let (first, second) = numbers_in(kind, payload)?;
    let (wanted_first, wanted_second) = wanted.split_once(" ")?;
    let is_first = first == wanted_first.parse::<u64>().ok()?;
    Some(u64::from(second) == wanted_second.parse::<u64>().ok()? && is_first)
}

/// Whether a response has these flags, this user and this database.
fn says(response: &Response41<'_>, wanted: &str) -> Option<bool> {
    let (flags, names) = wanted.split_once(" ")?;
    let (user, database) = names.split_once(" ")?;
    let is_database = match response.database {
        Some(named) => database != "none" && named == database.as_bytes(),
        None => database == "none",
    };
    let are_names = response.user == user.as_bytes() && is_database;
    Some(u64::from(response.flags) == flags.parse::<u64>().ok()? && are_names)
}

/// Whether a payload of a kind is read so.
fn is_read(alloc: Global, kind: &str, payload: &[u8], wanted: &str) -> Option<bool> {
    if payload.len() > 1000 {
        return None;
    }
    if let Some(place) = wanted.strip_prefix("fault at ") {
        return Some(place_of(alloc, kind, payload)? == place.parse::<u64>().ok()?);
    }
    if kind == "response" {
        return says(&read_response41(payload).ok()?, wanted);
    }
    has_numbers(kind, payload, wanted)
}

/// Whether the payload of a line is read as the line wants it.
fn line_is_read(alloc: Global, line: &str) -> Option<bool> {
    let (case, wanted) = line.split_once(" ⇒ ")?;
    let (kind, digits) = case.split_once(" ")?;
    let payload = hex::decode(alloc, digits.as_bytes()).ok()?;
    is_read(alloc, kind, payload.as_slice(), wanted)
}

/// The first line whose payload is read as something else.
fn first_wrong(alloc: Global) -> Option<&'static str> {
    for line in lines().lines() {
        if !line.is_empty() && line_is_read(alloc, line) != Some(true) {
            return Some(line);
        }
    }
    None
}

#[test]
fn payloads_are_read_or_faulty(rt: HostRuntime) -> Result<(), Fail> {
    match first_wrong(rt.alloc()) {
        Some(line) => Err(Fail::new(format_args!("{line}"))),
        None => Ok(()),
    }
}

/// Whether the recorded refusal is read.
fn is_refusal(alloc: Global) -> Option<bool> {
    let refusal = read_err(alloc, b"\xff\x0d\x04#HY001out of memory").ok()?;
    let is_same = refusal.code == 1037 && refusal.state == *b"HY001";
    Some(is_same && refusal.text.as_bytes() == b"out of memory".as_slice())
}

/// Whether the recorded column is read.
fn is_column(alloc: Global) -> Option<bool> {
    let payload = b"\x03def\0\0\0\x02id\x02id\x0c\x3f\0\x14\0\0\0\x08\x20\0\0\0\0";
    let column = read_column(alloc, payload).ok()?;
    Some(column.name.as_bytes() == b"id".as_slice() && column.kind == ColumnKind::Unsigned)
}

/// A value of a row, or `NULL`.
fn told(value: &Option<Text>) -> &[u8] {
    match value {
        Some(text) => text.as_bytes(),
        None => b"NULL",
    }
}

/// Whether a row has these values, with `,` between.
fn has_values(row: &[Option<Text>], wanted: &str) -> Option<bool> {
    let mut values = row.iter();
    for wanted in wanted.split(",") {
        let value = values.next()?;
        if value.is_none() != (wanted == "NULL") || told(value) != wanted.as_bytes() {
            return Some(false);
        }
    }
    Some(values.next().is_none())
}

/// Whether a row of four values is read, of which the second is NULL and the last one has a length of three bytes.
fn is_row(alloc: Global) -> Option<bool> {
    let row = read_row(alloc, b"\x011\xfb\0\xfc\x01\x002").ok()?;
    has_values(row.as_slice(), "1,NULL,,2")
}

#[test]
fn a_refusal_a_column_and_a_row_are_read(rt: HostRuntime) {
    let alloc = rt.alloc();
    assert!(rt; [is_refusal(alloc), is_column(alloc), is_row(alloc)] == [Some(true); 3]);
}
