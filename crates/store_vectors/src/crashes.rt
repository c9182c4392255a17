//! Logs and roots that go on after a crash, and are stopped by another one after each call of the disk.
use crate::careful_disk::CarefulDisk;
use crate::logs::go_on;
use crate::roots::replace;
use crate::telling::put_crash;
use chunk_store::MemoryDisk;
use std::alloc::Global;

/// The slot of the state with which a root goes on.
const NINTH: &str = "01 A 18000000 0000 0900000000000000 03000000 00000000 02000000 0000";

/// Has the log or the root on a disk go on.
fn continue_on(alloc: Global, disk: &mut CarefulDisk, what: &str, text: &mut String) -> Option<()> {
    match what {
        "log" => go_on(alloc, disk, text),
        _ => replace(alloc, disk, NINTH),
    }
}

/// Puts `new` where what is read is what is after, `old` where it is what was before, and else what is read.
fn put_age_of(read: &str, (before, after): (&str, &str), text: &mut String) -> Option<()> {
    if read == after {
        return text.push_str("new").ok();
    }
    if read == before {
        return text.push_str("old").ok();
    }
    text.push_str(read).ok()
}

/// Puts whether what a crash leaves is old or new.
fn put_age(
    alloc: Global,
    disk: &MemoryDisk,
    crash: (u64, u8),
    what: &str,
    texts: (&str, &str),
    text: &mut String,
) -> Option<()> {
    let mut read = String::new(alloc);
    put_crash(alloc, disk, crash, what, &mut read)?;
    put_age_of(read.as_str(), texts, text)
}

/// Puts what each of the four crashes after so many calls leaves, as `old` or `new`.
fn put_ages(
    alloc: Global,
    disk: &MemoryDisk,
    calls: u64,
    what: &str,
    texts: (&str, &str),
    text: &mut String,
) -> Option<()> {
    for pick in 0..4 {
        text.push(' ').ok()?;
        put_age(alloc, disk, (calls, pick), what, texts, text)?;
    }
    Some(())
}

/// Puts what crashes leave after one more call, behind a bar. Where all of them leave what was before, that is told once for all
/// calls in a row.
fn put_call(
    alloc: Global,
    disk: &MemoryDisk,
    calls: u64,
    what: &str,
    texts: (&str, &str),
    text: &mut String,
) -> Option<()> {
    let mut ages = String::new(alloc);
    put_ages(alloc, disk, calls, what, texts, &mut ages)?;
    if ages.as_str() == " old old old old" && text.as_str().ends_with(ages.as_str()) {
        return Some(());
    }
    text.push_str(" /").ok()?;
    text.push_str(ages.as_str()).ok()
}

/// Puts what was before and what is after, and what crashes leave after each call.
fn put_calls(
    alloc: Global,
    disk: &MemoryDisk,
    what: &str,
    (before, after): (&str, &str),
    text: &mut String,
) -> Option<()> {
    text.push_str(" | ").ok()?;
    text.push_str(before).ok()?;
    text.push_str(" then ").ok()?;
    text.push_str(after).ok()?;
    for calls in 0..=disk.calls() {
        put_call(alloc, disk, calls, what, (before, after), text)?;
    }
    Some(())
}

/// Puts what crashes leave on a disk that went on with what this crash left.
fn put_changes(
    alloc: Global,
    (left, crash): (&MemoryDisk, (u64, u8)),
    disk: &MemoryDisk,
    what: &str,
    text: &mut String,
) -> Option<()> {
    let mut before = String::new(alloc);
    let mut after = String::new(alloc);
    put_crash(alloc, left, crash, what, &mut before)?;
    put_crash(alloc, disk, (u64::MAX, 1), what, &mut after)?;
    put_calls(alloc, disk, what, (before.as_str(), after.as_str()), text)
}

/// Goes on with what a crash leaves, and puts what crashes leave then.
fn put_behind(
    alloc: Global,
    disk: &MemoryDisk,
    crash: (u64, u8),
    what: &str,
    text: &mut String,
) -> Option<()> {
    let mut next = CarefulDisk {
        below: disk.after_crash(crash.0, crash.1).ok()?,
    };
    continue_on(alloc, &mut next, what, text)?;
    put_changes(alloc, (disk, crash), &next.below, what, text)
}

/// Puts, for each of the four crashes after so many calls, what crashes leave after each call while it goes on.
pub(crate) fn put_again(
    alloc: Global,
    disk: &MemoryDisk,
    calls: u64,
    what: &str,
    text: &mut String,
) -> Option<()> {
    for pick in 0..4 {
        put_behind(alloc, disk, (calls, pick), what, text)?;
    }
    Some(())
}
