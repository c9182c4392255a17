//! What a session leaves on a disk, byte by byte, and what is read of it after each crash; and sessions each of whose calls on the store
//! fails once: as the store is opened the run ends, and later a reply says what became of the commit, which is then what a crash leaves.
use crate::runs::{Runs, run_row, run_table};
use std::alloc::Global;
use std::sync::Wait;
use std::thread::Threads;

/// A session that commits, checks of what it leaves, and another session over it, after crashes by the pick `#`; and before them the files
/// that each of them leaves.
const CRASHES: &str =
    r#" 0=010100000000000000240000000c006669656c64207469746c650a00000000000000000300000000000000020000000000 2=012300000001000000000000000100000001070000000000000002000000000568656c6c6f0005776f726c640000000000
a commit | session --config one | one |  | RESP; INSERT INTO one VALUES (7,'hello world'); QUIT => hello 1; accepted; ok 1 2 ⇒ 0; asks one, in one, 1, 1 and 1 back;
the index then | check --config one | one ~# |  | - ⇒ 0; asks one, in one, 1 and 0 back; one: 1 documents, 0 disk chunks, 1 log records;
once more | check --config one | one ~# |  | - ⇒ 0; asks one, in one, 1 and 0 back; one: 1 documents, 0 disk chunks, 1 log records;
a second session | session --config one | one ~# |  | RESP; SELECT id FROM one; INSERT INTO one VALUES (7,'x'); QUIT => hello 1; accepted; ids 2: 7; err 1064 42000 duplicate id 7 ⇒ 0; asks one, in one, 1, 1 and 1 back;
the index after that | check --config one | one ~# |  | - ⇒ 0; asks one, in one, 1 and 0 back; one: 1 documents, 0 disk chunks, 1 log records;
"#;

/// What a crash may make of what wasn't synced.
const PICKS: &str = "0 1 2 3";

/// Goes through the runs of a table by a pick.
fn by_pick<R: Threads + Wait + Sync>(
    rt: &R,
    runs: &mut Runs,
    table: &str,
    pick: &str,
) -> Option<()> {
    let table = table.replace(runs.alloc, "#", pick).ok()?;
    run_table(rt, runs, table.as_str())
}

/// Goes through the runs of a table by each pick.
pub(crate) fn by_picks<R: Threads + Wait + Sync>(
    rt: &R,
    runs: &mut Runs,
    table: &str,
) -> Option<()> {
    for pick in PICKS.split(" ") {
        by_pick(rt, runs, table, pick)?;
    }
    Some(())
}

/// Goes through the runs of a session that commits, by each pick.
pub(crate) fn try_crashes<R: Threads + Wait + Sync>(rt: &R, runs: &mut Runs) -> Option<()> {
    by_picks(rt, runs, CRASHES)
}

/// Two insertions, and what is then found.
const DONE: &str =
    "RESP; INSERT INTO rt VALUES (1,'hello'); INSERT INTO rt VALUES (2,'hello'); SELECT id FROM rt; QUIT => hello 1; accepted; ok 1 2; ok 1 2; ids 2: 1 2";

/// What a run comes to whose store isn't open, and one that serves its line.
const UNOPENED: &str = "4; asks rt, in rt, 1 and 0 back; ! searchd: host fault;";

const SERVED: &str = "0; asks rt, in rt, 1, 1 and 1 back;";

/// What comes of later calls that fail, in this order: what is sent and replied, and how many documents and records a check finds after a
/// crash, by each pick.
const OUTCOMES: [(&str, &str); 5] = [
    (
        "RESP; INSERT INTO rt VALUES (1,'hello'); INSERT INTO rt VALUES (2,'hello'); SELECT id FROM rt; QUIT => hello 1; accepted; err 1105 HY000 disk fault: nothing was changed; ok 1 2; ids 2: 2",
        "1 1 1 1",
    ),
    (
        "RESP; INSERT INTO rt VALUES (1,'hello'); INSERT INTO rt VALUES (2,'hello'); SELECT id FROM rt; QUIT => hello 1; accepted; err 1105 HY000 disk fault: commit in doubt; ok 1 2; ids 2: 1 2",
        "2 2 2 2",
    ),
    (
        "RESP; INSERT INTO rt VALUES (1,'hello'); INSERT INTO rt VALUES (2,'hello'); SELECT id FROM rt; QUIT => hello 1; accepted; ok 1 2; err 1105 HY000 disk fault: nothing was changed; ids 2: 1",
        "1 1 1 1",
    ),
    (
        "RESP; INSERT INTO rt VALUES (1,'hello'); INSERT INTO rt VALUES (2,'hello'); SELECT id FROM rt; QUIT => hello 1; accepted; ok 1 2; err 1105 HY000 disk fault: commit in doubt; ids 2: 1",
        "1 1 1 1",
    ),
    (
        "RESP; INSERT INTO rt VALUES (1,'hello'); INSERT INTO rt VALUES (2,'hello'); SELECT id FROM rt; QUIT => hello 1; accepted; ok 1 2; err 1105 HY000 disk fault: commit in doubt; ids 2: 1",
        "1 2 2 1",
    ),
];

fn outcomes() -> &'static [(&'static str, &'static str)] {
    &OUTCOMES
}

/// The row of a session of these packets over one line, whose store fails at this call.
fn session(alloc: Global, call: u64, line: &str, told: &str) -> Option<String> {
    format!(in alloc; "call {call} | session --config rt | rt !{call} |  | {line} ⇒ {told}").ok()
}

/// What a check finds after that, where a crash by a pick leaves so many documents.
fn found_after(alloc: Global, row: &str, pick: &str, count: &str) -> Option<String> {
    format!(in alloc;
        "\n{row}\nthen | check --config rt | rt ~{pick} |  | - ⇒ 0; asks rt, in rt, 1 and 0 back; rt: {count} documents, 0 disk chunks, {count} log records;"
    ).ok()
}

/// None where a run comes to something else than its row, or a crash by a pick doesn't leave so many documents.
fn leaves<R: Threads + Wait + Sync>(
    rt: &R,
    runs: &mut Runs,
    row: &str,
    pick: &str,
    count: &str,
) -> Option<()> {
    let table = found_after(runs.alloc, row, pick, count)?;
    run_table(rt, runs, table.as_str())
}

/// None where a run comes to something else than its row, or a crash leaves other numbers of documents by its picks.
fn leaves_by_picks<R: Threads + Wait + Sync>(
    rt: &R,
    runs: &mut Runs,
    row: &str,
    counts: &str,
) -> Option<()> {
    let mut counts = counts.split(" ");
    for pick in PICKS.split(" ") {
        leaves(rt, runs, row, pick, counts.next()?)?;
    }
    Some(())
}

/// None where a call that fails has another outcome than the one with this number, also after a crash.
fn is_outcome<R: Threads + Wait + Sync>(
    rt: &R,
    runs: &mut Runs,
    call: u64,
    at: usize,
) -> Option<()> {
    let (line, counts) = outcomes().get(at)?;
    let row = session(runs.alloc, call, line, SERVED)?;
    leaves_by_picks(rt, runs, row.as_str(), counts)
}

/// The number of the outcome of a call that fails, which is this one or the next.
fn outcome_from<R: Threads + Wait + Sync>(
    rt: &R,
    runs: &mut Runs,
    call: u64,
    from: usize,
) -> Option<usize> {
    if is_outcome(rt, runs, call, from).is_some() {
        return Some(from);
    }
    let next = from.saturating_add(1);
    is_outcome(rt, runs, call, next)?;
    Some(next)
}

/// None where a run whose store fails at a call comes to something else than this.
fn comes_to<R: Threads + Wait + Sync>(
    rt: &R,
    runs: &mut Runs,
    call: u64,
    line: &str,
    told: &str,
) -> Option<()> {
    let row = session(runs.alloc, call, line, told)?;
    run_row(rt, runs, row.as_str())
}

/// How many calls on its store a session over this line makes.
fn calls_of<R: Threads + Wait + Sync>(rt: &R, runs: &mut Runs, line: &str) -> Option<u64> {
    comes_to(rt, runs, 0, line, SERVED)?;
    Some(runs.store_back()?.calls())
}

/// Lets each call of a session on its store fail once: those of a session over an empty line as the store is opened, and the others.
pub(crate) fn try_calls<R: Threads + Wait + Sync>(rt: &R, runs: &mut Runs) -> Option<()> {
    let opening = calls_of(rt, runs, " => hello 1")?;
    let all = calls_of(rt, runs, DONE)?;
    for call in 1..opening.saturating_add(1) {
        comes_to(rt, runs, call, DONE, UNOPENED)?;
    }
    let mut at: usize = 0;
    for call in opening.saturating_add(1)..all.saturating_add(1) {
        at = outcome_from(rt, runs, call, at)?;
    }
    if at == 4 { Some(()) } else { None }
}
