//! The table of crashes of a disk in memory.
use crate::rows::try_tables;
use std::test::Fail;

/// Calls, and the files 0 and 1 that the four crashes after them leave, `-` for none, worked out by hand: what wasn't synced is as
/// never done, as written, all 1, all 255. A call is a write of bytes at a place of a file (`write 0 2 0a0b`), a sync (`sync 0`), a
/// removal (`remove 0`) or a look at a length (`length 0`). The crash comes at `now`, or else after the last call.
const CRASHES: &str = "\
length 0 ⇒ | -,- | -,- | -,- | -,-
write 0 0 0a0b ⇒ | -,- | 0a0b,- | 0101,- | ffff,-
write 0 0 0a0b; sync 0 ⇒ | 0a0b,- | 0a0b,- | 0a0b,- | 0a0b,-
write 0 0 0a0b; now; sync 0 ⇒ | -,- | 0a0b,- | 0101,- | ffff,-
now; write 0 0 0a0b; sync 0 ⇒ | -,- | -,- | -,- | -,-
write 0 0 . ⇒ | -,- | ,- | ,- | ,-
write 0 0 .; sync 0; write 0 0 0a ⇒ | ,- | 0a,- | 01,- | ff,-
write 0 0 0a0b0c0d; sync 0; write 0 1 2122 ⇒ | 0a0b0c0d,- | 0a21220d,- | 0a01010d,- | 0affff0d,-
write 0 0 0a0b; sync 0; write 0 1 212223 ⇒ | 0a0b,- | 0a212223,- | 0a010101,- | 0affffff,-
write 0 0 0a; sync 0; write 0 1 0b; length 0; write 0 2 0c0d ⇒ | 0a,- | 0a0b0c0d,- | 0a010101,- | 0affffff,-
write 0 0 0a0b0c; sync 0; write 0 0 3132; write 0 1 41 ⇒ | 0a0b0c,- | 31410c,- | 01010c,- | ffff0c,-
write 0 0 0a0b0c; sync 0; write 0 2 31; write 0 0 41 ⇒ | 0a0b0c,- | 410b31,- | 010b01,- | ff0bff,-
write 0 0 0a; sync 0; write 0 0 0b; sync 0; write 0 0 0c; now; sync 0 ⇒ | 0b,- | 0c,- | 01,- | ff,-
write 0 0 0a; write 1 0 0b; sync 1 ⇒ | -,0b | 0a,0b | 01,0b | ff,0b
write 0 0 0a; write 1 0 0b; sync 0; sync 1; write 0 1 0c; write 1 1 0d; sync 0 ⇒ | 0a0c,0b | 0a0c,0b0d | 0a0c,0b01 | 0a0c,0bff
remove 0 ⇒ | -,- | -,- | -,- | -,-
write 0 0 0a; sync 0; remove 0 ⇒ | 0a,- | -,- | -,- | -,-
write 0 0 0a; remove 0 ⇒ | -,- | -,- | -,- | -,-
write 0 0 0a0b; sync 0; write 0 0 21; remove 0 ⇒ | 0a0b,- | -,- | -,- | -,-
write 0 0 0a0b; sync 0; remove 0; write 0 0 0c ⇒ | 0a0b,- | 0c,- | 01,- | ff,-
write 0 0 0a0b; sync 0; remove 0; write 0 0 0c; sync 0 ⇒ | 0c,- | 0c,- | 0c,- | 0c,-
write 0 0 0a; sync 0; write 1 0 0b; remove 0; sync 1 ⇒ | 0a,0b | -,0b | -,0b | -,0b
write 0 0 0a; sync 0; remove 0; write 0 0 0b; remove 0; write 0 0 0c; write 0 1 0d ⇒ | 0a,- | 0c0d,- | 0101,- | ffff,-";

/// What each crash leaves, and what a crash of that leaves then.
const LEFT: [(&str, &str); 2] = [
    ("calls; crash files", CRASHES),
    ("calls; crash files-left", CRASHES),
];

#[test]
fn a_crash_leaves_these_files(rt: HostRuntime) -> Result<(), Fail> {
    try_tables(rt.alloc(), &LEFT)
}
