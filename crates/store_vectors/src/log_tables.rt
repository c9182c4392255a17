//! Tables of logs. What is wanted is worked out by hand from the layout and from the rules of disks and crashes.
//!
//! A log is made by the calls 1 to 5 of the disk and record 7 is written by 6 to 9, its gate by 10 to 13, record 8 by 14 to 17, and
//! its gate by 18 to 21. Each write and each sync is behind a look at the length. What wasn't synced is left as never done, as
//! written, all 1, or all 255.
use crate::rows::try_tables;
use std::test::Fail;

/// Bytes of logs, and the records that are read of them, as number:payload, and where they end, or what is wrong where.
const LOGS: &str = "\
00 ⇒ to 0
02 ⇒ to 0
ff ⇒ to 0
00 01 01 01 ⇒ to 0
00 00000000 0900000000000000 01 ⇒ to 0
01 00000000 0700000000000000 00 ⇒ 7: to 13
01 01000000 0700000000000000 aa 00 ⇒ 7:aa to 14
01 00000000 0000000000000000 00 ⇒ 0: to 13
01 00000000 ffffffffffffff7f 00 ⇒ 9223372036854775807: to 13
01 01000000 0700000000000000 01 02 00000000 0900000000000000 00 ⇒ 7:01 to 14
01 00000000 0700000000000000 00 00000000 0900000000000000 00 ⇒ 7: to 13
01 00000000 0700000000000000 01 01000000 0800000000000000 bb 00 01 ⇒ 7: 8:bb to 27
. ⇒ record length at 0
01 ⇒ record length at 0
01 000000 ⇒ record length at 0
01 00000000 070000000000 ⇒ record length at 0
01 00000000 0700000000000000 ⇒ record length at 0
01 02000000 0700000000000000 aa 00 ⇒ record length at 0
01 ffffffff 0700000000000000 aa 00 ⇒ record length at 0
01 00000000 0700000000000000 01 ⇒ record length at 13
01 00000000 0700000000000000 01 00000000 0800000000000000 ⇒ record length at 13
01 01000000 0700000000000000 aa 01 05000000 0800000000000000 aa 00 ⇒ record length at 14
01 00000000 0700000000000000 01 00000000 0800000000000000 01 000000 ⇒ record length at 26
01 00000000 0000000000000080 00 ⇒ record number at 0
01 00000000 ffffffffffffffff 00 ⇒ record number at 0
01 00000000 0700000000000000 01 00000000 0700000000000000 00 ⇒ record number at 13
01 00000000 0700000000000000 01 00000000 0900000000000000 00 ⇒ record number at 13
01 00000000 0700000000000000 01 00000000 0600000000000000 00 ⇒ record number at 13
01 00000000 ffffffffffffff7f 01 00000000 0000000000000080 00 ⇒ record number at 13
01 00000000 0700000000000000 01 00000000 0800000000000000 01 00000000 0700000000000000 00 ⇒ record number at 26
01 00000000 0700000000000000 01 05000000 0900000000000000 aa 00 ⇒ record length at 13
01 00000000 0700000000000000 01 00000000 0900000000000000 01 ⇒ record number at 13";

/// How many bytes a front of a log has, its bytes in full, and what is read. Document 7 with the words `hello world` in its one field
/// is put by the first record; the second has no payload.
const FRONTS: &str = "\
0..48 01 23000000 0100000000000000 01000000 01 0700000000000000 02000000 00 05 68656c6c6f 00 05 776f726c64 00000000 01 00000000 0200000000000000 00 ⇒ record length at 0
49..61 01 23000000 0100000000000000 01000000 01 0700000000000000 02000000 00 05 68656c6c6f 00 05 776f726c64 00000000 01 00000000 0200000000000000 00 ⇒ record length at 48
62..62 01 23000000 0100000000000000 01000000 01 0700000000000000 02000000 00 05 68656c6c6f 00 05 776f726c64 00000000 01 00000000 0200000000000000 00 ⇒ 1:0100000001070000000000000002000000000568656c6c6f0005776f726c6400000000 2: to 61";

/// The call that fails, a log without records, and what two readings of it give. It is written by the calls 1 and 2.
const READINGS: &str = "\
3..5 00 ⇒ a device failed then to 0
6..8 00 ⇒ to 0 then a device failed";

/// Bytes of logs, what comes before the first record, and what is read: each record as place:number:payload, and where the log ends
/// or what is wrong there.
const RECORDS: &str = "\
00 | anything ⇒ to 0
ff 0102 | anything ⇒ to 0
. | anything ⇒ record length at 0
01 | anything ⇒ record length at 0
01 02000000 0700000000000000 0a0b 00 | anything ⇒ 0:7:0a0b to 15
01 02000000 0700000000000000 0a0b 02 01 | anything ⇒ 0:7:0a0b to 15
01 02000000 0700000000000000 0a0b | anything ⇒ record length at 0
01 02000000 0700000000000000 0a | anything ⇒ record length at 0
01 ffffffff 0700000000000000 0a 00 | anything ⇒ record length at 0
01 01000000 0700000000000000 0a 01 00000000 0800000000000000 00 | anything ⇒ 0:7:0a 14:8: to 27
01 01000000 0700000000000000 0a 01 00000000 0800000000000000 | anything ⇒ 0:7:0a record length at 14
01 01000000 0700000000000000 0a 01 | anything ⇒ 0:7:0a record length at 14
01 01000000 0700000000000000 0a 01 00000000 0900000000000000 00 | anything ⇒ 0:7:0a record number at 14
01 01000000 0700000000000000 0a 01 00000000 0700000000000000 00 | anything ⇒ 0:7:0a record number at 14
01 01000000 0700000000000000 0a 01 05000000 0900000000000000 00 | anything ⇒ 0:7:0a record length at 14
01 00000000 ffffffffffffff7f 00 | anything ⇒ 0:9223372036854775807: to 13
01 00000000 0000000000000080 00 | anything ⇒ record number at 0
01 00000000 ffffffffffffff7f 01 00000000 0000000000000080 00 | anything ⇒ 0:9223372036854775807: record number at 13
01 00000000 0700000000000000 00 | record 6 ⇒ 0:7: to 13
01 00000000 0700000000000000 00 | record 7 ⇒ record number at 0
01 00000000 0700000000000000 00 | record 5 ⇒ record number at 0
01 00000000 0700000000000000 00 | chunks 6 ⇒ 0:7: to 13
01 00000000 0700000000000000 00 | chunks 7 ⇒ 0:7: to 13
01 00000000 0700000000000000 00 | chunks 9 ⇒ 0:7: to 13
01 00000000 0700000000000000 00 | chunks 5 ⇒ record number at 0
01 00000000 0700000000000000 01 00000000 0800000000000000 00 | chunks 7 ⇒ 0:7: 13:8: to 26
01 00000000 0700000000000000 01 00000000 0900000000000000 00 | chunks 8 ⇒ 0:7: record number at 13
00 | record 9 ⇒ to 0";

/// A file, how many of its bytes are read at most, and what is read. File 2 has six bytes.
const FILE_FRONTS: &str = "\
2 4 ⇒ 01020304
2 6 ⇒ 010203040506
2 18446744073709551615 ⇒ 010203040506
2 0 ⇒
3 4 ⇒ -";

/// The number and the payload of a record; and its number, its length with its gate and its bytes, then the log's end, whether a
/// record is staged, whether its gate may be open and its file, once it is made in place of an older file, once the record is staged
/// and once its gate is open, and what is read.
const WRITTEN: &str = "\
1 01000000 01 0700000000000000 02000000 00 05 68656c6c6f 00 05 776f726c64 00000000 ⇒ 1 48 2300000001000000000000000100000001070000000000000002000000000568656c6c6f0005776f726c640000000000 | 0 false false 00 | 0 true false 002300000001000000000000000100000001070000000000000002000000000568656c6c6f0005776f726c640000000000 | 48 false false 012300000001000000000000000100000001070000000000000002000000000568656c6c6f0005776f726c640000000000 | 1:0100000001070000000000000002000000000568656c6c6f0005776f726c6400000000 to 48
7 00×70000 ⇒ 7 70013 70110100070000000000000000+70000 | 0 false false 00 | 0 true false 00701101000700000000000000+70001 | 70013 false false 01701101000700000000000000+70001 | 7:00000000000000000000000000+69987 to 70013";

/// How many calls were made, and what is read after each of the four crashes then.
const STOPS: &str = "\
0..2 ⇒ | log missing at 0 | log missing at 0 | log missing at 0 | log missing at 0
3..4 ⇒ | log missing at 0 | to 0 | record length at 0 | to 0
5..10 ⇒ | to 0 | to 0 | to 0 | to 0
11..12 ⇒ | to 0 | 7:0a to 14 | 7:0a to 14 | to 0
13..18 ⇒ | 7:0a to 14 | 7:0a to 14 | 7:0a to 14 | 7:0a to 14
19..20 ⇒ | 7:0a to 14 | 7:0a 8:0101 to 29 | 7:0a 8:0101 to 29 | 7:0a to 14
21..21 ⇒ | 7:0a 8:0101 to 29 | 7:0a 8:0101 to 29 | 7:0a 8:0101 to 29 | 7:0a 8:0101 to 29";

/// The call that fails, and what is read then and after each of the four crashes then.
const FAULTS: &str = "\
1..3 ⇒ log missing at 0 | log missing at 0 | log missing at 0 | log missing at 0 | log missing at 0
4..5 ⇒ to 0 | log missing at 0 | to 0 | record length at 0 | to 0
6..11 ⇒ to 0 | to 0 | to 0 | to 0 | to 0
12..13 ⇒ 7:0a to 14 | to 0 | 7:0a to 14 | 7:0a to 14 | to 0
14..19 ⇒ 7:0a to 14 | 7:0a to 14 | 7:0a to 14 | 7:0a to 14 | 7:0a to 14
20..21 ⇒ 7:0a 8:0101 to 29 | 7:0a to 14 | 7:0a 8:0101 to 29 | 7:0a 8:0101 to 29 | 7:0a to 14";

/// The call that fails, and what is read once all calls were made, those that failed once more, and after each crash.
const MENDED: &str = "\
1..21 ⇒ 7:0a 8:0101 to 29 | 7:0a 8:0101 to 29 | 7:0a 8:0101 to 29 | 7:0a 8:0101 to 29 | 7:0a 8:0101 to 29";

/// How many calls were made before a crash; and for each of the four, what is read before the log goes on and after, and what the
/// four crashes leave then after each call, the one or the other. That all leave the old log is told once for calls in a row. It is
/// synced by the calls 1 and 2 and read by 3 and 4, a record is written by 5 to 8, and its gate by 9 to 12: up to 9 each crash leaves
/// what was before.
const AGAIN: &str = "\
5..10 ⇒ | to 0 then 7: to 13 / old old old old / old new new old / old new new old / new new new new | to 0 then 7: to 13 / old old old old / old new new old / old new new old / new new new new | to 0 then 7: to 13 / old old old old / old new new old / old new new old / new new new new | to 0 then 7: to 13 / old old old old / old new new old / old new new old / new new new new
11..12 ⇒ | to 0 then 7: to 13 / old old old old / old new new old / old new new old / new new new new | 7:0a to 14 then 7:0a 8: to 27 / old old old old / old new new old / old new new old / new new new new | 7:0a to 14 then 7:0a 8: to 27 / old old old old / old new new old / old new new old / new new new new | to 0 then 7: to 13 / old old old old / old new new old / old new new old / new new new new
13..18 ⇒ | 7:0a to 14 then 7:0a 8: to 27 / old old old old / old new new old / old new new old / new new new new | 7:0a to 14 then 7:0a 8: to 27 / old old old old / old new new old / old new new old / new new new new | 7:0a to 14 then 7:0a 8: to 27 / old old old old / old new new old / old new new old / new new new new | 7:0a to 14 then 7:0a 8: to 27 / old old old old / old new new old / old new new old / new new new new
19..20 ⇒ | 7:0a to 14 then 7:0a 8: to 27 / old old old old / old new new old / old new new old / new new new new | 7:0a 8:0101 to 29 then 7:0a 8:0101 9: to 42 / old old old old / old new new old / old new new old / new new new new | 7:0a 8:0101 to 29 then 7:0a 8:0101 9: to 42 / old old old old / old new new old / old new new old / new new new new | 7:0a to 14 then 7:0a 8: to 27 / old old old old / old new new old / old new new old / new new new new
21..21 ⇒ | 7:0a 8:0101 to 29 then 7:0a 8:0101 9: to 42 / old old old old / old new new old / old new new old / new new new new | 7:0a 8:0101 to 29 then 7:0a 8:0101 9: to 42 / old old old old / old new new old / old new new old / new new new new | 7:0a 8:0101 to 29 then 7:0a 8:0101 9: to 42 / old old old old / old new new old / old new new old / new new new new | 7:0a 8:0101 to 29 then 7:0a 8:0101 9: to 42 / old old old old / old new new old / old new new old / new new new new";

/// Each table, behind the steps that its rows make.
const READ: [(&str, &str); 5] = [
    ("files log; read log", LOGS),
    ("files log; read log", FRONTS),
    (
        "failing; all; files log; read log; then; read log",
        READINGS,
    ),
    ("records", RECORDS),
    ("front", FILE_FRONTS),
];

const APPENDED: [(&str, &str); 5] = [
    ("record", WRITTEN),
    ("append; crash log", STOPS),
    ("failing; append; crash log", FAULTS),
    ("failing; append; forget; all; read log; crash log", MENDED),
    ("append; again log", AGAIN),
];

#[test]
fn logs_are_read_so(rt: HostRuntime) -> Result<(), Fail> {
    try_tables(rt.alloc(), &READ)
}

#[test]
fn logs_are_appended_to_so(rt: HostRuntime) -> Result<(), Fail> {
    try_tables(rt.alloc(), &APPENDED)
}
