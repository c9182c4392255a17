//! Tables of rows: the steps that each row makes on a disk in memory, what they come to as a text, and how a test fails.
use crate::bytes::number_of;
use crate::calls::make_calls;
use crate::careful_disk::{CarefulDisk, failing_disk};
use crate::crashes::put_again;
use crate::images::{put_front, put_records_read, write_files};
use crate::logs::{append_two, put_record};
use crate::roots::{THREE_STATES, put_states, replace_each};
use crate::telling::{put_crashes, put_value, put_what};
use std::alloc::Global;
use std::test::Fail;

/// Makes a step that changes the disk, by the words of the row:
///
/// - `calls`: makes the calls that the row has. One that is `now` says when the crash comes.
/// - `files log`, `files root`: writes the files that the row has, of each at most so many bytes as the number says.
/// - `append`: makes a log and appends two records; what is read of it once a call failed is told.
/// - `replace`, `three`: has the states of the row's slots follow one another, or three that are always the same.
/// - `states`: has four states follow one another, and tells what is seen of each.
/// - `record`: writes a log of the row's record, and tells each step of it.
/// - `records`, `front`: tells the records of the row's bytes, or the first bytes of a file.
fn make_step(
    alloc: Global,
    disk: &mut CarefulDisk,
    number: &mut u64,
    (kind, what): (&str, &str),
    words: &str,
    text: &mut String,
) -> Option<()> {
    match kind {
        "calls" => make_calls(alloc, disk, words, number),
        "files" => write_files(alloc, disk, what, *number, words),
        "append" => append_two(alloc, disk, text),
        "replace" => replace_each(alloc, disk, words),
        "three" => replace_each(alloc, disk, THREE_STATES),
        "states" => put_states(alloc, disk, text),
        "record" => put_record(alloc, disk, words, text),
        "records" => put_records_read(alloc, words, text),
        "front" => put_front(alloc, disk, words, text),
        _ => None,
    }
}

/// Makes a step of a row, which has a number and words:
///
/// - `failing`: the call with this number fails, and the one that the row's words name, if they do.
/// - `all`: the number is the greatest from here on: no crash comes before the last call, and files are written in full.
/// - `forget`, `then`: drops what was told so far, or puts a word between what is told.
/// - `read log`, `read root`, `read files`: tells what is read of the disk now.
/// - `crash log` and so on: tells what is read after each of the four crashes after so many calls as the number says.
/// - `again log`, `again root`: tells what crashes leave while something goes on that such a crash left.
/// - Others change the disk.
fn put_step(
    alloc: Global,
    disk: &mut CarefulDisk,
    number: &mut u64,
    (kind, what): (&str, &str),
    words: &str,
    text: &mut String,
) -> Option<()> {
    match kind {
        "failing" => Some(()),
        "all" => {
            *number = u64::MAX;
            Some(())
        }
        "forget" => {
            text.clear();
            Some(())
        }
        "then" => text.push_str(" then ").ok(),
        "read" => put_what(alloc, disk, what, text),
        "crash" => put_crashes(alloc, &disk.below, *number, what, text),
        "again" => put_again(alloc, &disk.below, *number, what, text),
        _ => make_step(alloc, disk, number, (kind, what), words, text),
    }
}

/// Makes the steps of a row on a disk.
fn put_steps(
    alloc: Global,
    disk: &mut CarefulDisk,
    steps: &str,
    (number, words): (u64, &str),
    text: &mut String,
) -> Option<()> {
    let mut number = number;
    for step in steps.split("; ") {
        let step = step.split_once(' ').unwrap_or((step, ""));
        put_step(alloc, disk, &mut number, step, words, text)?;
    }
    Some(())
}

/// The calls that fail. Calls are counted from 1, so 0 stands for none.
fn failing_calls(steps: &str, number: u64, words: &str) -> [u64; 2] {
    if steps.starts_with("failing") {
        return [number, number_of(words).unwrap_or(0)];
    }
    [0, 0]
}

/// Puts what a row comes to.
fn put_told(alloc: Global, steps: &str, number: u64, words: &str, text: &mut String) -> Option<()> {
    let failing = failing_calls(steps, number, words);
    let mut disk = failing_disk(alloc, &failing)?;
    put_steps(alloc, &mut disk, steps, (number, words), text)
}

/// Puts a row and what it comes to in place of what is wanted.
pub(crate) fn put_difference(row: &str, told: &str, wrong: &mut String) -> Option<()> {
    wrong.push_str(row).ok()?;
    wrong.push_str(" ⇒ ").ok()?;
    wrong.push_str(told).ok()?;
    wrong.push('\n').ok()
}

/// Puts a row that comes to something else for this number.
fn put_if_wrong(
    alloc: Global,
    steps: &str,
    (number, words): (u64, &str),
    wanted: &str,
    wrong: &mut String,
) -> Option<()> {
    let mut told = String::new(alloc);
    let is_told = put_told(alloc, steps, number, words, &mut told).is_some();
    if is_told && told.as_str().trim() == wanted {
        return Some(());
    }
    put_value(&number, wrong)?;
    wrong.push(' ').ok()?;
    put_difference(words, told.as_str(), wrong)
}

/// The range from a number to another one, and the words behind that.
fn range_of<'a>(from: &str, rest: &'a str) -> Option<(u64, u64, &'a str)> {
    let (to, words) = rest.split_once(' ').unwrap_or((rest, ""));
    let from = number_of(from)?;
    let to = number_of(to)?;
    Some((from, to, words))
}

/// The range that a row begins with, and what stands behind it. One that begins with none is tried for one number alone, which no
/// count reaches.
fn numbers_of(row: &str) -> Option<(u64, u64, &str)> {
    match row.split_once("..") {
        Some((from, rest)) => range_of(from, rest),
        None => Some((u64::MAX, u64::MAX, row)),
    }
}

/// Puts a row that comes to something else for one of its numbers.
fn put_wrong_row(alloc: Global, steps: &str, row: &str, wrong: &mut String) -> Option<()> {
    let (row, wanted) = row.split_once(" ⇒").unwrap_or((row, "an arrow"));
    let Some((from, to, words)) = numbers_of(row) else {
        return put_difference(row, "another range", wrong);
    };
    for number in from..=to {
        put_if_wrong(alloc, steps, (number, words), wanted.trim(), wrong)?;
    }
    Some(())
}

/// Puts the rows of some tables that come to something else. Each table stands behind the steps that its rows make.
fn put_wrong_rows(alloc: Global, tables: &[(&str, &str)], wrong: &mut String) -> Option<()> {
    for (steps, table) in tables {
        for row in table.lines() {
            put_wrong_row(alloc, steps, row, wrong)?;
        }
    }
    Some(())
}

/// Fails where something is wrong, or was not tried.
pub(crate) fn verdict(tried: Option<()>, wrong: String) -> Result<(), Fail> {
    if tried.is_some() && wrong.is_empty() {
        return Ok(());
    }
    Err(Fail::new(wrong))
}

/// Fails with the rows of some tables that come to something else.
pub(crate) fn try_tables(alloc: Global, tables: &[(&str, &str)]) -> Result<(), Fail> {
    let mut wrong = String::new(alloc);
    let tried = put_wrong_rows(alloc, tables, &mut wrong);
    verdict(tried, wrong)
}
