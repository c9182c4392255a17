//! The records of a log, as they lie in the bytes of its file.
//!
//! A log's file is read once, and nothing of it is copied: a record's payload is a slice of the file's bytes. What was whole
//! before a fault is given with the fault, so that who reads payloads finds the first thing that is wrong.
ghost use Rattle.std.specs.Prelude.{◌≡◌, ◌-◌, ◌<◌, ◌^◌, length, MatchBool, IfOk};
ghost use Rattle.gate_log.specs.Reading.{IsReadAs, MayCome, behind};
ghost use Rattle.gate_log.specs.steps.Parts.{IsPart};

use crate::fault::LogKind;
use crate::frame::read_frame;
use srch_base::NoMemory;
use std::alloc::Global;

/// A record of a log, where it lies in the bytes of its file.
#[derive(Drop)]
pub struct RecordAt<'a> {
    /// The place of its gate.
    pub place: u64,
    pub number: u64,
    pub payload: &'a [u8],
}

/// What the bytes of a log are read as.
#[derive(Drop)]
pub struct LogRead<'a> {
    pub records: Vec<RecordAt<'a>>,
    /// The place behind the last record: of its closed gate, or of what is wrong.
    pub end: u64,
    /// The number of the last record.
    pub last: Option<u64>,
    /// What is wrong behind the records. None where a closed gate stands there.
    pub fault: Option<LogKind>,
}

/// What comes before the first record of a log: it says which number that record may have.
#[derive(Clone, Copy)]
pub enum Before {
    /// Nothing that is known, and any number may follow.
    Anything,
    /// A record with this number, and the next number follows.
    Record(u64),
    /// Chunks that have all commits through this number: a number as far as theirs follows, or the next one.
    Chunks(u64),
}

/// The records of a log, up to its first closed gate or to the first that isn't whole or has a wrong number. What stands
/// behind that isn't looked at.
///
/// The time is linear in the records' bytes, the memory in their number.
pub fn read_records<'a>(
    alloc: Global,
    bytes: &'a [u8],
    before: Before,
) -> Result<LogRead<'a>, NoMemory>
    ensures { IfOk result (λ read. IsReadAs before bytes.now read) }
{
    let mut records = Vec::new(alloc);
    let mut last = None;
    let mut rest = bytes;
    'records: loop {
        match part_at(before, last, rest) {
            Part::Record(number, payload, after) => {
                records.push(RecordAt {
                    place: place_of(bytes, rest),
                    number,
                    payload,
                })?;
                last = Some(number);
                rest = after;
            }
            Part::Closed => {
                return Ok(LogRead {
                    records,
                    end: place_of(bytes, rest),
                    last,
                    fault: None,
                });
            }
            Part::Wrong(kind) => {
                return Ok(LogRead {
                    records,
                    end: place_of(bytes, rest),
                    last,
                    fault: Some(kind),
                });
            }
        }
    }
}

/// What stands where a gate should.
#[derive(Drop)]
pub(crate) enum Part<'a> {
    /// An open gate and a record: its number, its payload, and what follows, which begins with the next gate.
    Record(u64, &'a [u8], &'a [u8]),
    /// A closed gate.
    Closed,
    Wrong(LogKind),
}

/// What stands at the front of these bytes, behind a record with this number, if there is one.
fn part_at(before: Before, last: Option<u64>, bytes: &[u8]) -> Part<'_>
    ensures { IsPart (behind before last) bytes.now result }
{
    match bytes {
        [1, more @ ..] => match read_frame(more) {
            Some((number, payload, after)) => {
                if may_come(before, last, number) {
                    Part::Record(number, payload, after)
                } else {
                    Part::Wrong(LogKind::Number)
                }
            }
            None => Part::Wrong(LogKind::Length),
        },
        [] => Part::Wrong(LogKind::Length),
        _ => Part::Closed,
    }
}

/// Whether a record may have this number.
fn may_come(before: Before, last: Option<u64>, number: u64) -> bool
    ensures { MatchBool result ((number < 2 ^ 63) × MayCome (behind before last) number) (number < 2 ^ 63 → MayCome (behind before last) number → ⊥) }
{
    if number >= 1 << 63 {
        return false;
    }
    match behind(before, last) {
        Before::Anything => true,
        Before::Record(last) => last < number && number - last == 1,
        Before::Chunks(through) => number <= through || number - through == 1,
    }
}

/// What comes before the next record.
fn behind(before: Before, last: Option<u64>) -> Before
    ensures { result ≡ behind before last }
{
    match last {
        Some(number) => Before::Record(number),
        None => before,
    }
}

/// Where the rest of some bytes begins.
fn place_of(bytes: &[u8], rest: &[u8]) -> u64
    ensures { result ≡ length bytes.now - length rest.now }
{
    bytes.len().saturating_sub(rest.len()) as u64
}
