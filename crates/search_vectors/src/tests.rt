//! The tests over the tables of this crate: a test fails with the row that comes to something else.
use crate::crashes::{try_calls, try_crashes};
use crate::ends::{DAMAGED, SELFTESTS, STORES, TEXTS, WORDS};
use crate::failing::{CHECKS, DOORS, LINES, PACKETS};
use crate::jobs::{JOBS, LAYERS, try_jobs};
use crate::runs::{Runs, run_table};
use crate::serving::SERVED;
use conf_text::ConfKind;
use program_host::Status;
use std::sync::Wait;
use std::test::Fail;
use std::thread::Threads;

const TABLES: [&str; 12] = [
    WORDS, TEXTS, STORES, DAMAGED, SELFTESTS, CHECKS, DOORS, LINES, PACKETS, SERVED, LAYERS, JOBS,
];

fn tables() -> &'static [&'static str] {
    &TABLES
}

/// Goes through all tables.
fn try_tables<R: Threads + Wait + Sync>(rt: &R, runs: &mut Runs) -> Option<()> {
    for table in tables() {
        run_table(rt, runs, table)?;
    }
    Some(())
}

/// Fails with what was said where something didn't hold.
fn held(holds: Option<()>, runs: &Runs) -> Result<(), Fail> {
    match holds {
        Some(()) => Ok(()),
        None => Err(Fail::new(format_args!("{}", runs.said))),
    }
}

#[test]
fn each_row_comes_to_what_it_says(rt: HostRuntime) -> Result<(), Fail> {
    let mut runs = Runs::new(rt.alloc());
    held(try_tables(&rt, &mut runs), &runs)
}

#[test]
fn what_was_told_stays_after_a_crash(rt: HostRuntime) -> Result<(), Fail> {
    let mut runs = Runs::new(rt.alloc());
    held(try_crashes(&rt, &mut runs), &runs)
}

#[test]
fn what_went_to_the_disk_stays_after_a_crash(rt: HostRuntime) -> Result<(), Fail> {
    let mut runs = Runs::new(rt.alloc());
    held(try_jobs(&rt, &mut runs), &runs)
}

#[test]
fn each_call_on_a_store_fails_once(rt: HostRuntime) -> Result<(), Fail> {
    let mut runs = Runs::new(rt.alloc());
    held(try_calls(&rt, &mut runs), &runs)
}

/// A status with the longest line.
const LAST_LINE: Status = Status::Config {
    line: 4_294_967_295,
    kind: ConfKind::UnknownSection,
};

#[test]
fn a_line_has_room_for_any_number(rt: HostRuntime) {
    let line = LAST_LINE.line();
    assert!(rt;
        line.as_slice() == b"searchd: config line 4294967295: unknown section\n".as_slice()
    );
}
