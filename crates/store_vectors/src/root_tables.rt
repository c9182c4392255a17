//! Tables of roots. What is wanted is worked out by hand from the layout and from the rules of disks and crashes.
//!
//! Replacing takes seven calls of the disk: the gate is written and synced, the number is written, the state is written and synced,
//! and the gate is written and synced. A gate that is known to be closed is left out. Each is behind a look at the length, and so is
//! two calls. What wasn't synced is left as never done, as written, all 1, or all 255. A state that goes through a commit, and has no
//! text, no chunk, no older log, the newer log 2 and the next file 3, is told by the number of that commit.
use crate::rows::try_tables;
use std::test::Fail;

/// Slot 0, slot 1 and what they are read as.
const SLOTS: &str = "\
- | - ⇒ none
. | . ⇒ none
01 A 24000000 T 0000000000000000 03000000 00000000 02000000 0000 | - ⇒ through 0 next 3 older 0 newer 2 text 12
01 A 18000000 S | - ⇒ through 5 next 7 older 0 newer 2 text 0
- | 01 A 18000000 S ⇒ through 5 next 7 older 0 newer 2 text 0
01 A 18000000 S ff0102 | 00 ⇒ through 5 next 7 older 0 newer 2 text 0
00 A 18000000 S | - ⇒ none
02 A 18000000 S | 81 A 18000000 S ⇒ none
ff | 00 B ffffffff 00 ⇒ none
01 A 180000 | 01 A ⇒ none
01 | 01 A 00000 0 ⇒ none
01 ffffffffffffff7f 18000000 S | - ⇒ through 5 next 7 older 0 newer 2 text 0
01 0000000000000080 18000000 S | - ⇒ through 5 next 7 older 0 newer 2 text 0 full
01 ffffffffffffffff 18000000 S | 01 A 18000000 S ⇒ through 5 next 7 older 0 newer 2 text 0 full
01 A 18000000 S | 01 B 18000000 0000 0600000000000000 09000000 02000000 08000000 0000 ⇒ through 6 next 9 older 2 newer 8 text 0
01 B 18000000 S | 01 A 18000000 0000 0600000000000000 09000000 02000000 08000000 0000 ⇒ through 5 next 7 older 0 newer 2 text 0
01 A 18000000 S | 01 A 18000000 0000 0600000000000000 09000000 02000000 08000000 0000 ⇒ through 5 next 7 older 0 newer 2 text 0
01 ff00000000000000 18000000 S | 01 0001000000000000 18000000 0000 0600000000000000 09000000 02000000 08000000 0000 ⇒ through 6 next 9 older 2 newer 8 text 0
01 A 18000000 S | 00 B 18000000 0000 0600000000000000 09000000 02000000 08000000 0000 ⇒ through 5 next 7 older 0 newer 2 text 0
01 A 19000000 S | - ⇒ root length at 0 of slot 0
01 A 01000000 | - ⇒ root length at 0 of slot 0
01 A ffffffff S | 01 B 18000000 S ⇒ root length at 0 of slot 0
01 B 18000000 S | 01 A 19000000 S ⇒ root length at 0 of slot 1
00 A 19000000 S | 01 A 01000000 ⇒ root length at 0 of slot 1
01 A 19000000 S | 01 A 01000000 ⇒ root length at 0 of slot 0
01 A 00000000 | - ⇒ root state at 13 of slot 0
01 A 01000000 0c | - ⇒ root state at 13 of slot 0
01 B 18000000 S | 01 A 00000000 ⇒ root state at 13 of slot 1
01 A 05000000 0400 616263 | - ⇒ root state at 13 of slot 0
01 A 02000000 ffff | - ⇒ root state at 13 of slot 0
01 A 02000000 0000 | - ⇒ root state at 15 of slot 0
01 A 09000000 0000 05000000000000 | - ⇒ root state at 15 of slot 0
01 A 18000000 0000 0000000000000080 07000000 00000000 02000000 0000 | - ⇒ root state at 15 of slot 0
01 A 18000000 0000 ffffffffffffffff 07000000 00000000 02000000 0000 | - ⇒ root state at 15 of slot 0
01 A 24000000 T 0000000000000080 03000000 00000000 02000000 0000 | - ⇒ root state at 27 of slot 0
01 A 18000000 0000 ffffffffffffff7f 07000000 00000000 02000000 0000 | - ⇒ through 9223372036854775807 next 7 older 0 newer 2 text 0
01 A 0a000000 0000 0500000000000000 | - ⇒ root state at 23 of slot 0
01 A 0d000000 0000 0500000000000000 070000 | - ⇒ root state at 23 of slot 0
01 A 0e000000 0000 0500000000000000 07000000 | - ⇒ root state at 27 of slot 0
01 A 18000000 0000 0500000000000000 07000000 01000000 02000000 0000 | - ⇒ root state at 27 of slot 0
01 A 18000000 0000 0500000000000000 07000000 07000000 02000000 0000 | - ⇒ root state at 27 of slot 0
01 A 18000000 0000 0500000000000000 07000000 ffffffff 02000000 0000 | - ⇒ root state at 27 of slot 0
01 A 18000000 0000 0500000000000000 07000000 06000000 02000000 0000 | - ⇒ through 5 next 7 older 6 newer 2 text 0
01 A 12000000 0000 0500000000000000 07000000 06000000 | - ⇒ root state at 31 of slot 0
01 A 18000000 0000 0500000000000000 07000000 00000000 00000000 0000 | - ⇒ root state at 31 of slot 0
01 A 18000000 0000 0500000000000000 07000000 00000000 01000000 0000 | - ⇒ root state at 31 of slot 0
01 A 18000000 0000 0500000000000000 07000000 00000000 07000000 0000 | - ⇒ root state at 31 of slot 0
01 A 18000000 0000 0500000000000000 07000000 06000000 06000000 0000 | - ⇒ root state at 31 of slot 0
01 A 18000000 0000 0500000000000000 00000000 00000000 02000000 0000 | - ⇒ root state at 31 of slot 0
01 A 16000000 0000 0500000000000000 07000000 00000000 02000000 | - ⇒ root state at 35 of slot 0
01 A 17000000 0000 0500000000000000 07000000 00000000 02000000 01 | - ⇒ root state at 35 of slot 0
01 A 18000000 0000 0500000000000000 07000000 00000000 02000000 1100 | - ⇒ root state at 35 of slot 0
01 A 18000000 0000 0500000000000000 07000000 00000000 02000000 0001 | - ⇒ root state at 35 of slot 0
01 A 18000000 0000 0500000000000000 07000000 00000000 02000000 0100 | - ⇒ root state at 37 of slot 0
01 A 24000000 0000 0500000000000000 07000000 00000000 02000000 0100 01000000 63000000 00000000 | - ⇒ root state at 37 of slot 0
01 A 24000000 0000 0500000000000000 07000000 00000000 02000000 0100 07000000 63000000 00000000 | - ⇒ root state at 37 of slot 0
01 A 24000000 0000 0500000000000000 07000000 00000000 02000000 0100 02000000 63000000 00000000 | - ⇒ root state at 37 of slot 0
01 A 24000000 0000 0500000000000000 07000000 03000000 02000000 0100 03000000 63000000 00000000 | - ⇒ root state at 37 of slot 0
01 A 24000000 0000 0500000000000000 07000000 03000000 02000000 0100 00000000 63000000 00000000 | - ⇒ root state at 37 of slot 0
01 A 1c000000 0000 0500000000000000 07000000 00000000 02000000 0100 04000000 | - ⇒ root state at 41 of slot 0
01 A 20000000 0000 0500000000000000 07000000 00000000 02000000 0100 04000000 63000000 | - ⇒ root state at 45 of slot 0
01 A 23000000 0000 0500000000000000 07000000 00000000 02000000 0100 04000000 63000000 000000 | - ⇒ root state at 45 of slot 0
01 A 24000000 0000 0500000000000000 07000000 00000000 02000000 0100 04000000 63000000 01000000 | - ⇒ root state at 49 of slot 0
01 A 24000000 0000 0500000000000000 07000000 00000000 02000000 0100 04000000 63000000 ffffffff | - ⇒ root state at 49 of slot 0
01 A 2c000000 0000 0500000000000000 07000000 00000000 02000000 0100 04000000 63000000 02000000 08000000 08000000 | - ⇒ root state at 53 of slot 0
01 A 2c000000 0000 0500000000000000 07000000 00000000 02000000 0100 04000000 63000000 02000000 08000000 07000000 | - ⇒ root state at 53 of slot 0
01 A 30000000 0000 0500000000000000 07000000 00000000 02000000 0100 04000000 63000000 03000000 00000000 ffffffff 00000000 | - ⇒ root state at 57 of slot 0
01 A 24000000 0000 0500000000000000 07000000 00000000 02000000 0100 04000000 63000000 00000000 | - ⇒ through 5 next 7 older 0 newer 2 text 0 chunk 4 length 99
01 A 2c000000 0000 0500000000000000 07000000 03000000 02000000 0100 06000000 ffffffff 02000000 00000000 ffffffff | - ⇒ through 5 next 7 older 3 newer 2 text 0 chunk 6 length 4294967295 dead 0 dead 4294967295
01 A 34000000 0000 0500000000000000 07000000 00000000 02000000 0200 04000000 63000000 01000000 00000000 04000000 63000000 00000000 | - ⇒ root state at 53 of slot 0
01 A 30000000 0000 0500000000000000 07000000 00000000 02000000 0200 06000000 63000000 00000000 02000000 63000000 00000000 | - ⇒ root state at 49 of slot 0
01 A 30000000 0000 0500000000000000 07000000 00000000 02000000 0200 06000000 63000000 00000000 03000000 00000000 00000000 | - ⇒ through 5 next 7 older 0 newer 2 text 0 chunk 6 length 99 chunk 3 length 0
01 A 19000000 S 00 | - ⇒ root state at 37 of slot 0
01 A 25000000 0000 0500000000000000 07000000 00000000 02000000 0100 04000000 63000000 00000000 00 | - ⇒ root state at 49 of slot 0
01 B 18000000 S | 01 A 1a000000 S 0000 ⇒ root state at 37 of slot 1
01 A 24000000 T 0000000000000000 03000000 00000000 03000000 0000 | - ⇒ root state at 43 of slot 0";

/// How many bytes a front of a slot has, the slot in full, and what it is read as: less than a slot doesn't count, and less than its
/// state is a fault.
const FRONTS: &str = "\
0..12 01 0100000000000000 24000000 0c00 6669656c64207469746c650a 0000000000000000 03000000 00000000 02000000 0000 | - ⇒ none
13..48 01 0100000000000000 24000000 0c00 6669656c64207469746c650a 0000000000000000 03000000 00000000 02000000 0000 | - ⇒ root length at 0 of slot 0
49..49 01 0100000000000000 24000000 0c00 6669656c64207469746c650a 0000000000000000 03000000 00000000 02000000 0000 | - ⇒ through 0 next 3 older 0 newer 2 text 12";

/// The call that fails, two slots, and what two readings give. The slots are written by the calls 1 to 4, and a reading takes six.
const READINGS: &str = "\
5..10 01 A 18000000 0000 0500000000000000 03000000 00000000 02000000 0000 | 01 A 18000000 0000 0500000000000000 03000000 00000000 02000000 0000 ⇒ a device failed then 5
11..16 01 A 18000000 0000 0500000000000000 03000000 00000000 02000000 0000 | 01 A 18000000 0000 0500000000000000 03000000 00000000 02000000 0000 ⇒ 5 then a device failed";

/// Slots whose states follow one another, and both slots then: each state is written over the one before the last, with the next
/// number. In turn: an index with the field `title` that holds nothing yet; the greatest numbers that a state may have; a text, an
/// older log and two chunks, of which one has dead rows; and four states that differ in what they go through.
const WRITTEN: &str = "\
01 0100000000000000 24000000 0c00 6669656c64207469746c650a 0000000000000000 03000000 00000000 02000000 0000 ⇒ 010100000000000000240000000c006669656c64207469746c650a00000000000000000300000000000000020000000000,-
01 0100000000000000 18000000 0000 ffffffffffffff7f ffffffff feffffff 02000000 0000 ⇒ 010100000000000000180000000000ffffffffffffff7ffffffffffeffffff020000000000,-
01 0100000000000000 39000000 0100 78 0500000000000000 07000000 03000000 02000000 0200 06000000 63000000 02000000 00000000 00010000 04000000 ffffffff 00000000 ⇒ 0101000000000000003900000001007805000000000000000700000003000000020000000200060000006300000002000000000000000001000004000000ffffffff00000000,-
01 0100000000000000 18000000 0000 0100000000000000 03000000 00000000 02000000 0000 ⇒ 01010000000000000018000000000001000000000000000300000000000000020000000000,-
01 0100000000000000 18000000 0000 0100000000000000 03000000 00000000 02000000 0000; 01 0200000000000000 18000000 0000 0200000000000000 03000000 00000000 02000000 0000 ⇒ 01010000000000000018000000000001000000000000000300000000000000020000000000,01020000000000000018000000000002000000000000000300000000000000020000000000
01 0100000000000000 18000000 0000 0100000000000000 03000000 00000000 02000000 0000; 01 0200000000000000 18000000 0000 0200000000000000 03000000 00000000 02000000 0000; 01 0300000000000000 18000000 0000 0300000000000000 03000000 00000000 02000000 0000 ⇒ 01030000000000000018000000000003000000000000000300000000000000020000000000,01020000000000000018000000000002000000000000000300000000000000020000000000
01 0100000000000000 18000000 0000 0100000000000000 03000000 00000000 02000000 0000; 01 0200000000000000 18000000 0000 0200000000000000 03000000 00000000 02000000 0000; 01 0300000000000000 18000000 0000 0300000000000000 03000000 00000000 02000000 0000; 01 0400000000000000 18000000 0000 0400000000000000 03000000 00000000 02000000 0000 ⇒ 01030000000000000018000000000003000000000000000300000000000000020000000000,01040000000000000018000000000004000000000000000300000000000000020000000000";

/// How many calls were made, and what is read after each of the four crashes then. Three states follow one another, and each is read
/// before it is replaced: the readings are the calls 1 and 2, 17 to 20, and 35 to 40.
const STOPS: &str = "\
0..13 ⇒ | none | none | none | none
14..15 ⇒ | none | 1 | 1 | none
16..31 ⇒ | 1 | 1 | 1 | 1
32..33 ⇒ | 1 | 2 | 2 | 1
34..51 ⇒ | 2 | 2 | 2 | 2
52..53 ⇒ | 2 | 3 | 3 | 2
54..54 ⇒ | 3 | 3 | 3 | 3";

/// The call that fails, and one before it that fails too or 0 for none; and what is seen of four states in a row: whether each was
/// written, and what is read after each of the four crashes then. A look at both slots is the calls 1 and 2.
const FAULTS: &str = "\
59..60 0 ⇒ done | 1 | 1 | 1 | 1 done | 2 | 2 | 2 | 2 done | 3 | 3 | 3 | 3 done | 4 | 4 | 4 | 4
3..14 0 ⇒ failed | none | none | none | none done | 2 | 2 | 2 | 2 done | 3 | 3 | 3 | 3 done | 4 | 4 | 4 | 4
15..16 0 ⇒ failed | none | 1 | 1 | none done | 2 | 2 | 2 | 2 done | 3 | 3 | 3 | 3 done | 4 | 4 | 4 | 4
17..28 0 ⇒ done | 1 | 1 | 1 | 1 failed | 1 | 1 | 1 | 1 done | 3 | 3 | 3 | 3 done | 4 | 4 | 4 | 4
29..30 0 ⇒ done | 1 | 1 | 1 | 1 failed | 1 | 2 | 2 | 1 done | 3 | 3 | 3 | 3 done | 4 | 4 | 4 | 4
31..42 0 ⇒ done | 1 | 1 | 1 | 1 done | 2 | 2 | 2 | 2 failed | 2 | 2 | 2 | 2 done | 4 | 4 | 4 | 4
43..44 0 ⇒ done | 1 | 1 | 1 | 1 done | 2 | 2 | 2 | 2 failed | 2 | 3 | 3 | 2 done | 4 | 4 | 4 | 4
17..18 16 ⇒ failed | none | 1 | 1 | none failed | none | 1 | 1 | none done | 3 | 3 | 3 | 3 done | 4 | 4 | 4 | 4
19..20 16 ⇒ failed | none | 1 | 1 | none failed | none | none | 1 | none done | 3 | 3 | 3 | 3 done | 4 | 4 | 4 | 4
21..28 16 ⇒ failed | none | 1 | 1 | none failed | none | none | none | none done | 3 | 3 | 3 | 3 done | 4 | 4 | 4 | 4
29..30 16 ⇒ failed | none | 1 | 1 | none failed | none | 2 | 2 | none done | 3 | 3 | 3 | 3 done | 4 | 4 | 4 | 4
31..32 30 ⇒ done | 1 | 1 | 1 | 1 failed | 1 | 2 | 2 | 1 failed | 1 | 2 | 2 | 1 done | 4 | 4 | 4 | 4
33..34 30 ⇒ done | 1 | 1 | 1 | 1 failed | 1 | 2 | 2 | 1 failed | 1 | 1 | 2 | 1 done | 4 | 4 | 4 | 4
35..42 30 ⇒ done | 1 | 1 | 1 | 1 failed | 1 | 2 | 2 | 1 failed | 1 | 1 | 1 | 1 done | 4 | 4 | 4 | 4
43..44 30 ⇒ done | 1 | 1 | 1 | 1 failed | 1 | 2 | 2 | 1 failed | 1 | 3 | 3 | 1 done | 4 | 4 | 4 | 4";

/// How many calls were made before a crash; and for each of the four, what is read before the root is replaced and after, and what
/// the four crashes leave then after each call, the one or the other. That all leave the old root is told once for calls in a row. Up
/// to the write of the last gate each crash leaves what was before.
const AGAIN: &str = "\
0..13 ⇒ | none then 9 / old old old old / old new new old / old new new old / new new new new | none then 9 / old old old old / old new new old / old new new old / new new new new | none then 9 / old old old old / old new new old / old new new old / new new new new | none then 9 / old old old old / old new new old / old new new old / new new new new
14..15 ⇒ | none then 9 / old old old old / old new new old / old new new old / new new new new | 1 then 9 / old old old old / old new new old / old new new old / new new new new | 1 then 9 / old old old old / old new new old / old new new old / new new new new | none then 9 / old old old old / old new new old / old new new old / new new new new
16..31 ⇒ | 1 then 9 / old old old old / old new new old / old new new old / new new new new | 1 then 9 / old old old old / old new new old / old new new old / new new new new | 1 then 9 / old old old old / old new new old / old new new old / new new new new | 1 then 9 / old old old old / old new new old / old new new old / new new new new
32..33 ⇒ | 1 then 9 / old old old old / old new new old / old new new old / new new new new | 2 then 9 / old old old old / old new new old / old new new old / new new new new | 2 then 9 / old old old old / old new new old / old new new old / new new new new | 1 then 9 / old old old old / old new new old / old new new old / new new new new
34..51 ⇒ | 2 then 9 / old old old old / old new new old / old new new old / new new new new | 2 then 9 / old old old old / old new new old / old new new old / new new new new | 2 then 9 / old old old old / old new new old / old new new old / new new new new | 2 then 9 / old old old old / old new new old / old new new old / new new new new
52..53 ⇒ | 2 then 9 / old old old old / old new new old / old new new old / new new new new | 3 then 9 / old old old old / old new new old / old new new old / new new new new | 3 then 9 / old old old old / old new new old / old new new old / new new new new | 2 then 9 / old old old old / old new new old / old new new old / new new new new
54..54 ⇒ | 3 then 9 / old old old old / old new new old / old new new old / new new new new | 3 then 9 / old old old old / old new new old / old new new old / new new new new | 3 then 9 / old old old old / old new new old / old new new old / new new new new | 3 then 9 / old old old old / old new new old / old new new old / new new new new";

/// Each table, behind the steps that its rows make.
const READ: [(&str, &str); 3] = [
    ("files root; read root", SLOTS),
    ("files root; read root", FRONTS),
    (
        "failing; all; files root; read root; then; read root",
        READINGS,
    ),
];

const REPLACED: [(&str, &str); 4] = [
    ("replace; read files", WRITTEN),
    ("three; crash root", STOPS),
    ("failing; states", FAULTS),
    ("three; again root", AGAIN),
];

#[test]
fn roots_are_read_so(rt: HostRuntime) -> Result<(), Fail> {
    try_tables(rt.alloc(), &READ)
}

#[test]
fn roots_are_replaced_so(rt: HostRuntime) -> Result<(), Fail> {
    try_tables(rt.alloc(), &REPLACED)
}
