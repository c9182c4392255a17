//! A disk in memory, which tells everything. It is for tests and for trying things out.
ghost use Rattle.std.specs.Prelude.{◌≡◌, ◌==◌, ◌⊎◌, ◌<◌, ◌≤◌, ◌++◌, [], ◌∷◌, ℕ, List, ◌+◌, ◌^◌, Some, None, true, false, length, reverse, take, vec_capacity, vec_len, IfOk, OnOk, OnErr};
ghost use Rattle.std.specs.List.{list_any};
ghost use Rattle.std.specs.Option.{option_map};
ghost use Rattle.srch_base.specs.Counts.{HasCause, Rose};
ghost use Rattle.chunk_store.specs.Images.{contents, over, IsThere, Reads};
ghost use Rattle.chunk_store.specs.Memory.{put_in, image_of, is_listed, replayed, AreFitting, AreFitting-prop, MayLeave, MayHaveLeft, outcome, Records};
ghost use Rattle.chunk_store.specs.steps.MemoryLaws.{passes_told, short, counts_now, only_now};

use crate::call::Call;
use crate::crash::{copy_of, left_by};
use crate::disk::Disk;
use crate::stored::{Stored, read_in, write_in};
use srch_base::{Failed, Items, NoMemory};
use std::alloc::Global;
use std::collections::BTreeMap;

/// A disk in memory. It keeps a record of all calls that were made on it, and so what a crash may leave.
///
/// Its calls are counted from 1, and those whose numbers it was given fail and do nothing. A call for whose record no memory
/// is left fails as well, and isn't counted.
pub struct MemoryDisk {
    alloc: Global,
    start: Stored,
    files: Stored,
    calls: Vec<Call>,
    failing: Vec<u64>,
    faults: u64,
    ghost kept: { (f : ℕ) → image_of files f ≡ replayed (image_of start) (reverse calls.items) f },
    ghost fitting: { AreFitting (image_of start) (reverse calls.items) } by { AreFitting-prop (image_of start) (reverse calls.items) },
}

// Not derived: so letting go of a disk is a call, and no caller's proof takes apart what it holds.
impl Drop for MemoryDisk {
    fn drop(self) {
        let MemoryDisk {
            alloc: _,
            start: _start,
            files: _files,
            calls: _calls,
            failing: _failing,
            faults: _,
        } = self;
    }
}

impl MemoryDisk {
    /// An empty disk whose calls with these numbers fail.
    pub fn new(alloc: Global, failing: Vec<u64>) -> MemoryDisk
        ensures files { (f : ℕ) → image_of result.files f ≡ None }
        ensures calls { result.calls.items ≡ [] }
        ensures failing { result.failing.items ≡ failing.items }
        ensures count { result.faults ≡ 0 }
    {
        MemoryDisk {
            alloc,
            start: BTreeMap::new(alloc),
            files: BTreeMap::new(alloc),
            calls: Vec::new(alloc),
            failing,
            faults: 0,
        }
    }

    /// How many calls were made.
    pub fn calls(&self) -> u64
        ensures { result ≡ vec_len self.now.calls }
    {
        self.calls.len() as u64
    }

    /// The disk that a crash after the first so many calls may leave. No call was made on it yet, and none fails.
    ///
    /// What was written, made or removed and not synced is as if never done (`pick` 0), or it is done, with all bytes as
    /// written (1), or all 1 (2), or all 255 (any other).
    pub fn after_crash(&self, calls: u64, pick: u8) -> Result<MemoryDisk, NoMemory>
        ensures outcome { IfOk result (λ disk. (f : ℕ) → image_of disk.files f ≡ outcome pick (image_of self.now.start) (reverse (take calls self.now.calls.items)) f) }
        ensures may { IfOk result (λ disk. MayLeave (image_of self.now.start) (reverse (take calls self.now.calls.items)) (image_of disk.files)) }
        ensures fresh { IfOk result (λ disk. (disk.calls.items ≡ []) × (disk.failing.items ≡ [])) }
        ensures count { IfOk result (λ disk. disk.faults ≡ 0) }
    {
        let count = calls.min(self.calls.len() as u64) as usize;
        let start = left_by(self.alloc, &self.start, &self.calls[..count], pick)?;
        let files = copy_of(&start)?;
        Ok(MemoryDisk {
            alloc: self.alloc,
            start,
            files,
            calls: Vec::new(self.alloc),
            failing: Vec::new(self.alloc),
            faults: 0,
        })
    }
}

impl Disk for MemoryDisk {
    ghost use Rattle.std.specs.Prelude.{refl};

    ghost told = { λ d. Some (replayed (image_of d.start) (reverse d.calls.items)) };

    ghost may_leave = { λ d. MayLeave (image_of d.start) (reverse d.calls.items) };

    ghost clock = { λ d. length (reverse d.calls.items) };

    ghost may_have_left = { λ d. MayHaveLeft (image_of d.start) (reverse d.calls.items) };

    ghost faults = { λ d. d.faults };

    ghost passes = { λ d x told. passes_told (image_of d.start) (reverse d.calls.items) d.fitting x told };

    ghost tells = { λ d x left. (replayed (image_of d.start) (reverse d.calls.items), refl) };

    ghost short = { λ d x f left. short (image_of d.start) (reverse d.calls.items) x f d.fitting left };

    ghost counts_now = { λ d t x le left. counts_now (image_of d.start) (reverse d.calls.items) t x left };

    ghost only_now = { λ d x left. only_now (image_of d.start) (reverse d.calls.items) x left };

    fn len(&mut self, file: u32) -> Result<Option<u64>, Failed>
        ensures value { IfOk result (λ len. len ≡ option_map length (replayed (image_of self.old.start) (reverse self.old.calls.items) file)) }
        ensures recorded { Records self.old.failing.items (Call.Idle) result (reverse self.old.calls.items) (reverse self.new.calls.items) }
        ensures same { (self.new.start ≡ self.old.start) × (self.new.failing ≡ self.old.failing) }
        ensures cause { HasCause self.old.faults self.new.faults result }
    {
        begin(&mut self.calls, self.failing.as_slice(), &mut self.faults)?;
        record(&mut self.calls, Call::Idle);
        Ok(self.files.get(&file).map(|bytes| bytes.len() as u64))
    }

    fn read(&mut self, file: u32, at: u64, into: &mut [u8]) -> Result<(), Failed>
        requires inside { at + length into.old ≤ length (contents (replayed (image_of self.old.start) (reverse self.old.calls.items) file)) }
        ensures value { OnOk result (Reads (contents (replayed (image_of self.old.start) (reverse self.old.calls.items) file)) at into.new) }
        ensures recorded { Records self.old.failing.items (Call.Idle) result (reverse self.old.calls.items) (reverse self.new.calls.items) }
        ensures same { (self.new.start ≡ self.old.start) × (self.new.failing ≡ self.old.failing) }
        ensures cause { HasCause self.old.faults self.new.faults result }
    {
        begin(&mut self.calls, self.failing.as_slice(), &mut self.faults)?;
        record(&mut self.calls, Call::Idle);
        read_in(&self.files, file, at as usize, into);
        Ok(())
    }

    fn write(&mut self, file: u32, at: u64, bytes: &[u8]) -> Result<(), Failed>
        requires inside { at ≤ length (contents (replayed (image_of self.old.start) (reverse self.old.calls.items) file)) }
        ensures recorded { Records self.old.failing.items (Call.Wrote file at bytes.now) result (reverse self.old.calls.items) (reverse self.new.calls.items) }
        ensures same { (self.new.start ≡ self.old.start) × (self.new.failing ≡ self.old.failing) }
        ensures cause { HasCause self.old.faults self.new.faults result }
    {
        begin(&mut self.calls, self.failing.as_slice(), &mut self.faults)?;
        match store(
            self.alloc,
            &mut self.files,
            &mut self.calls,
            file,
            at,
            bytes,
        ) {
            Ok(()) => Ok(()),
            Err(NoMemory) => Err(fault(&mut self.faults)),
        }
    }

    fn sync(&mut self, file: u32) -> Result<(), Failed>
        requires there { IsThere (replayed (image_of self.old.start) (reverse self.old.calls.items) file) }
        ensures recorded { Records self.old.failing.items (Call.Synced file) result (reverse self.old.calls.items) (reverse self.new.calls.items) }
        ensures same { (self.new.start ≡ self.old.start) × (self.new.failing ≡ self.old.failing) }
        ensures cause { HasCause self.old.faults self.new.faults result }
    {
        begin(&mut self.calls, self.failing.as_slice(), &mut self.faults)?;
        record(&mut self.calls, Call::Synced(file));
        Ok(())
    }

    fn remove(&mut self, file: u32) -> Result<(), Failed>
        ensures recorded { Records self.old.failing.items (Call.Removed file) result (reverse self.old.calls.items) (reverse self.new.calls.items) }
        ensures same { (self.new.start ≡ self.old.start) × (self.new.failing ≡ self.old.failing) }
        ensures cause { HasCause self.old.faults self.new.faults result }
    {
        begin(&mut self.calls, self.failing.as_slice(), &mut self.faults)?;
        let _bytes = self.files.remove(&file);
        record(&mut self.calls, Call::Removed(file));
        Ok(())
    }
}

/// Makes room for the record of the next call. Where that call is one that fails, it is recorded.
fn begin(calls: &mut Vec<Call>, failing: &[u64], faults: &mut u64) -> Result<(), Failed>
    ensures room { OnOk result (vec_len calls.new < vec_capacity calls.new) }
    ensures same { OnOk result (calls.new.items ≡ calls.old.items) }
    ensures count { OnOk result (faults.new ≡ faults.old) }
    ensures unlisted { OnOk result (is_listed failing.now (reverse calls.old.items) ≡ false) }
    ensures err { OnErr result (((is_listed failing.now (reverse calls.old.items) ≡ true) × (reverse calls.new.items ≡ Call.Idle ∷ reverse calls.old.items)) ⊎ (reverse calls.new.items ≡ reverse calls.old.items)) }
    ensures rose { OnErr result (Rose faults.old faults.new) }
    ensures later { faults.old ≤ faults.new }
{
    if calls.reserve(1).is_err() {
        return Err(fault(faults));
    }
    let fails = is_next_listed(failing, calls);
    if fails {
        record(calls, Call::Idle);
        return Err(fault(faults));
    }
    Ok(())
}

/// Whether the next call is one of those that are to fail.
fn is_next_listed(failing: &[u64], calls: &Vec<Call>) -> bool
    ensures { result ≡ is_listed failing.now (reverse calls.now.items) }
{
    is_among(failing, calls.len() as u64 + 1)
}

/// Whether a number is one of these.
fn is_among(numbers: &[u64], wanted: u64) -> bool
    ensures { result ≡ list_any (λ number. number == wanted) numbers.now }
{
    numbers.iter().any(|number| *number == wanted)
}

/// Puts a call at the end of the record.
fn record(calls: &mut Vec<Call>, call: Call)
    requires { vec_len calls.old < vec_capacity calls.old }
    ensures { reverse calls.new.items ≡ call ∷ reverse calls.old.items }
{
    calls.push_reserved(call);
}

/// Counts a fault.
fn fault(faults: &mut u64) -> Failed
    ensures rose { Rose faults.old faults.new }
    ensures later { faults.old ≤ faults.new }
{
    *faults = faults.saturating_add(1);
    Failed
}

/// Writes into a file, and records it.
fn store(
    alloc: Global,
    files: &mut Stored,
    calls: &mut Vec<Call>,
    file: u32,
    at: u64,
    bytes: &[u8],
) -> Result<(), NoMemory>
    requires within { at ≤ length (contents (image_of files.old file)) }
    requires room { vec_len calls.old < vec_capacity calls.old }
    ensures written { OnOk result ((f : ℕ) → image_of files.new f ≡ put_in file (Some (over at bytes.now (contents (image_of files.old file)))) (image_of files.old) f) }
    ensures fits { OnOk result (at + length bytes.now < 2 ^ 64) }
    ensures recorded { OnOk result (reverse calls.new.items ≡ Call.Wrote file at bytes.now ∷ reverse calls.old.items) }
    ensures err { OnErr result ((f : ℕ) → image_of files.new f ≡ image_of files.old f) }
    ensures unrecorded { OnErr result (calls.new.items ≡ calls.old.items) }
{
    let copy = Vec::from_slice(alloc, bytes)?;
    write_in(alloc, files, file, at as usize, bytes)?;
    record(
        calls,
        Call::Wrote {
            file,
            at,
            bytes: Items::new(copy),
        },
    );
    Ok(())
}
