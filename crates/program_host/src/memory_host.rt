//! A host over memory, which records all that was printed, requested, given and handed back, and fails the calls whose numbers it was
//! given.
ghost use Rattle.std.specs.Prelude.{◌≡◌, ◌+◌, ◌<◌, ◌≤◌, ◌++◌, ◌==◌, [], ◌∷◌, length, map, take, drop, is_err, option_copied, IfOk, IfNone, IfSome, OnOk, OnErr, IsTrue, IsErr, MatchResult, Some};
ghost use Rattle.std.specs.List.{All, list_any};
ghost use Rattle.srch_base.specs.Counts.{Rose};
ghost use Rattle.store_keep.specs.Opens.{HidesNothing};
ghost use Rattle.chunk_store.specs.contracts.memory_disk.MemoryDiskDisk.TheImpl as memory_words;
ghost use Rattle.srch_base.specs.Memory.{one_more, lines_given};
ghost use Rattle.program_host.specs.Texts.{AreReadOf};
ghost use Rattle.program_host.specs.Printing.{PrintsLine, CountsPrint, other};
ghost use Rattle.program_host.specs.Lending.{IsWithin, CountsOpening, says_failed};
ghost use Rattle.program_host.specs.Requests.{Requested};
ghost use Rattle.program_host.specs.HostMemory.{host_over, text_of, printed_to, with_printed, with_print_fault, print_faults_of, printed_of, doors_of, fails_next, gives_none, opens_none, reads_none, store_at, store_place, stores_without, after_print, after_doors, after_read, after_store};

use crate::{Host, Request, Requests, Stream};
use chunk_store::MemoryDisk;
use srch_base::{Failed, ListDoor, NoMemory, OpenFault, Text};
use std::alloc::Global;
use std::marker::Model;
use std::snapshot::Snapshot;

/// A host over memory, which records all that was printed, requested, given and handed back. It is for tests and for trying things
/// out.
///
/// Its calls for texts, stores and doors and its prints are counted together from 1, and those whose numbers it was given fail:
/// they give and print nothing, and raise the count. A call for a text or a store that isn't there or for more doors than are left
/// fails as well, and so does a print that no memory is left for. Each store is given once.
///
/// Contracts see it as a `HostMemory`.
#[derive(Drop)]
pub struct MemoryHost {
    alloc: Global,
    texts: Vec<(Text, Text)>,
    stores: Vec<(Text, MemoryDisk)>,
    stores_given: Vec<Snapshot<MemoryDisk>>,
    stores_back: Vec<MemoryDisk>,
    doors: Vec<ListDoor>,
    at: usize,
    back: Vec<ListDoor>,
    failing: Vec<u32>,
    calls: u64,
    requests: Requests,
    out: Vec<u8>,
    errors: Vec<u8>,
    faults: u64,
    out_faults: u64,
    error_faults: u64,
}

impl Model for MemoryHost {
    ghost use Rattle.std.specs.Prelude.{◌≤◌, ◌+◌, All, length, map, vec_capacity};
    ghost use Rattle.store_keep.specs.Opens.{HidesNothing};
    ghost use Rattle.chunk_store.specs.contracts.memory_disk.MemoryDiskDisk.TheImpl as memory_words;
    ghost use Rattle.std.specs.Coded.{codes};
    ghost use Rattle.chunk_store.specs.contracts.memory_disk.MemoryDisk as disk;
    ghost use Rattle.program_host.specs.HostMemory.{HostMemory};

    ghost Value = { HostMemory };

    ghost coded = { Prim.hlevel (codes, disk.the_row.coded) };

    ghost view = { λ a. record {
      texts = a.texts.items;
      stores = a.stores.items;
      stores_given = map (λ store. store.value) a.stores_given.items;
      stores_back = a.stores_back.items;
      doors = a.doors.items;
      at = a.at;
      back = a.back.items;
      failing = a.failing.items;
      calls = a.calls;
      requests = a.requests;
      out = a.out.items;
      errors = a.errors.items;
      faults = a.faults;
      out_faults = a.out_faults;
      error_faults = a.error_faults;
    } };

    ghost invariant = { λ a. (a.at ≤ length a.doors.items) × (length a.doors.items ≤ vec_capacity a.back)
        × (length a.stores.items + length a.stores_given.items ≤ vec_capacity a.stores_given) × (length a.stores.items + length a.stores_given.items ≤ vec_capacity a.stores_back)
        × All (λ store. HidesNothing memory_words.ghosts store.1) a.stores.items };
}

impl MemoryHost {
    /// A host with these files, each a path and a text, that gives these stores, each by its path, and these doors in their order, a
    /// copy of each. The calls with the numbers `failing` fail. Of the root of a store a crash leaves no part that a read doesn't find.
    pub fn new(
        alloc: Global,
        texts: Vec<(Text, Vec<u8>)>,
        stores: Vec<(Text, MemoryDisk)>,
        doors: Vec<ListDoor>,
        failing: Vec<u32>,
    ) -> Result<MemoryHost, NoMemory>
        requires { All (λ store. HidesNothing memory_words.ghosts store.1) stores.items }
        ensures { IfOk result (λ host. host ≡ host_over (map (λ file. (file.0, file.1.items)) texts.items) stores.items doors.items failing.items) }
    {
        Ok(MemoryHost {
            alloc,
            texts: kept(alloc, texts)?,
            stores_given: Vec::with_capacity(alloc, stores.len())?,
            stores_back: Vec::with_capacity(alloc, stores.len())?,
            stores,
            back: Vec::with_capacity(alloc, doors.len())?,
            doors,
            at: 0,
            failing,
            calls: 0,
            requests: Requests::new(alloc),
            out: Vec::new(alloc),
            errors: Vec::new(alloc),
            faults: 0,
            out_faults: 0,
            error_faults: 0,
        })
    }

    /// All that was printed to a stream so far.
    pub fn printed(&self, to: Stream) -> &[u8]
        ensures { result.now ≡ printed_to to self.now }
    {
        match to {
            Stream::Out => self.out.as_slice(),
            Stream::Err => self.errors.as_slice(),
        }
    }

    /// The stores that were handed back so far, in that order.
    pub fn stores_back(&self) -> &[MemoryDisk]
        ensures { result.now ≡ self.now.stores_back }
    {
        self.stores_back.as_slice()
    }

    /// The doors that were handed back so far, in that order.
    pub fn doors_back(&self) -> &[ListDoor]
        ensures { result.now ≡ self.now.back }
    {
        self.back.as_slice()
    }

    /// The requests so far, or none once memory was refused for the record.
    pub fn requests(&self) -> Option<&[Request]>
        ensures { option_copied result ≡ self.now.requests }
    {
        self.requests.list()
    }

    /// Records a request for the text of a path.
    fn keep_text_request(&mut self, path: &str)
        ensures asks { Requested self.old.requests self.new.requests (Request.ReadText path.now ∷ []) }
        ensures rest { self.new ≡ record self.old { requests = self.new.requests } }
    {
        self.requests.add_text(path);
    }

    /// Records a request for the store at a path.
    fn keep_store_request(&mut self, path: &str)
        ensures asks { Requested self.old.requests self.new.requests (Request.OpenStore path.now ∷ []) }
        ensures rest { self.new ≡ record self.old { requests = self.new.requests } }
    {
        self.requests.add_store(path);
    }

    /// Records a request for doors.
    fn keep_door_request(&mut self, listen: Option<&str>, n: u32)
        ensures asks { Requested self.old.requests self.new.requests (Request.OpenDoors (option_copied listen.entry) n ∷ []) }
        ensures rest { self.new ≡ record self.old { requests = self.new.requests } }
    {
        self.requests.add_doors(listen, n);
    }

    /// Copies of the next doors, of which there are so many.
    fn next_doors(&self, n: u32) -> Result<Vec<ListDoor>, NoMemory>
        requires { self.now.at + n ≤ length self.now.doors }
        ensures copies { IfOk result (λ doors. doors.items ≡ take n (drop self.now.at self.now.doors)) }
        ensures within { IfOk result (λ doors. All (IsWithin (λ door. door.returned) lines_given) doors.items) }
    {
        let end = self.at + n as usize;
        let mut given = Vec::new(self.alloc);
        VecCloneMethods::extend_from_slice(&mut given, &self.doors[self.at..end])?;
        Ok(given)
    }

    /// Counts one more call, and says whether it is one of those that fail.
    fn next_fails(&mut self) -> bool
        ensures answer { result ≡ fails_next self.old }
        ensures count { self.new ≡ record self.old { calls = one_more self.old.calls } }
    {
        let call = u128::from(self.calls) + 1;
        self.calls = self.calls.saturating_add(1);
        self.failing
            .iter()
            .any(|number| u128::from(*number) == call)
    }

    /// The text of the first file with this path.
    fn text_at(&self, path: &str) -> Option<&[u8]>
        ensures { option_copied result ≡ text_of self.now path.now }
    {
        self.texts
            .iter()
            .find(|(name, _)| name.as_bytes() == path.as_bytes())
            .map(|(_, text)| text.as_bytes())
    }

    /// The place of the first store with this path.
    fn store_place(&self, path: &str) -> Option<usize>
        ensures place { result ≡ store_place self.now.stores path.now }
        ensures within { IfSome result (λ place. place < length self.now.stores) }
    {
        self.stores
            .iter()
            .position(|(name, _)| name.as_bytes() == path.as_bytes())
    }

    /// Gives the first store with this path, and notes that it was given.
    fn take_store(&mut self, path: &str) -> Option<MemoryDisk>
        ensures taken { result ≡ store_at self.old.stores path.now }
        ensures hides { IfSome result (HidesNothing memory_words.ghosts) }
        ensures some { IfSome result (λ store. self.new ≡ record self.old { stores = stores_without self.old.stores path.now; stores_given = self.old.stores_given ++ store ∷ [] }) }
        ensures none { IfNone result (self.new ≡ self.old) }
    {
        match self.store_place(path) {
            Some(place) => {
                let (_path, store) = self.stores.remove(place);
                self.stores_given.push_reserved(Snapshot::of(&store));
                Some(store)
            }
            None => None,
        }
    }

    /// Counts one more fault.
    fn fail(&mut self) -> Failed
        ensures after { self.new ≡ record self.old { faults = one_more self.old.faults } }
        ensures later { self.old.faults ≤ self.new.faults }
        ensures rose { Rose self.old.faults self.new.faults }
    {
        self.faults = self.faults.saturating_add(1);
        Failed
    }

    /// Counts one more print to a stream that failed.
    fn fail_print(&mut self, to: Stream) -> Failed
        ensures after { self.new ≡ with_print_fault self.old to }
        ensures later { print_faults_of self.old to ≤ print_faults_of self.new to }
        ensures rose { Rose (print_faults_of self.old to) (print_faults_of self.new to) }
        ensures other { print_faults_of self.new (other to) ≡ print_faults_of self.old (other to) }
    {
        match to {
            Stream::Out => self.out_faults = self.out_faults.saturating_add(1),
            Stream::Err => self.error_faults = self.error_faults.saturating_add(1),
        }
        Failed
    }

    /// Takes what is printed to a stream.
    fn append(&mut self, to: Stream, line: &[u8]) -> Result<(), NoMemory>
        ensures ok { OnOk result (self.new ≡ with_printed self.old to line.now) }
        ensures err { OnErr result (self.new ≡ self.old) }
    {
        match to {
            Stream::Out => self.out.extend_from_slice(line)?,
            Stream::Err => self.errors.extend_from_slice(line)?,
        }
        Ok(())
    }
}

impl Host for MemoryHost {
    type Store = MemoryDisk;

    type Entry = ListDoor;

    ghost text = { text_of };

    ghost printed = { printed_of };

    ghost stores_given = { λ h. h.stores_given };

    ghost stores_back = { λ h. h.stores_back };

    ghost doors_given = { doors_of };

    ghost doors_back = { λ h. h.back };

    ghost faults = { λ h. h.faults };

    ghost print_faults = { print_faults_of };

    ghost requests = { λ h. h.requests };

    /// Fails exactly where this call's number is one of those, or no file has this path.
    fn read_text(&mut self, path: &str, limit: u32) -> Result<Vec<u8>, OpenFault>
        ensures fails { says_failed result ≡ reads_none self.old path.now }
        ensures asks { Requested self.old.requests self.new.requests (Request.ReadText path.now ∷ []) }
        ensures after { self.new ≡ record (after_read self.old result) { requests = self.new.requests } }
        ensures reads { IfOk result (λ bytes. AreReadOf (text_of self.old path.now) limit bytes.items) }
        ensures short { IfOk result (λ bytes. length bytes.items ≤ limit + 1) }
        ensures cause { CountsOpening result self.old.faults self.new.faults }
    {
        self.keep_text_request(path);
        if self.next_fails() {
            return Err(OpenFault::from(self.fail()));
        }
        match self.text_at(path) {
            Some(text) => Ok(Vec::from_slice(self.alloc, front(text, limit))?),
            None => Err(OpenFault::from(self.fail())),
        }
    }

    /// Fails where this call's number is one of those, or memory is refused.
    fn print(&mut self, to: Stream, line: &[u8]) -> Result<(), Failed>
        ensures fails { IsTrue (fails_next self.old) → IsErr result }
        ensures after { self.new ≡ after_print self.old to line.now result }
        ensures prints { PrintsLine result to line.now (printed_of self.old) (printed_of self.new) }
        ensures cause { CountsPrint result to (print_faults_of self.old) (print_faults_of self.new) }
    {
        if self.next_fails() {
            return Err(self.fail_print(to));
        }
        match self.append(to, line) {
            Ok(()) => Ok(()),
            Err(NoMemory) => Err(self.fail_print(to)),
        }
    }

    /// Fails exactly where this call's number is one of those, or no store with this path is left.
    fn open_store(&mut self, path: &str) -> Result<MemoryDisk, OpenFault>
        ensures fails { says_failed result ≡ gives_none self.old path.now }
        ensures asks { Requested self.old.requests self.new.requests (Request.OpenStore path.now ∷ []) }
        ensures opens { IfOk result (λ store. store_at self.old.stores path.now ≡ Some store) }
        ensures hides { IfOk result (HidesNothing memory_words.ghosts) }
        ensures after { self.new ≡ record (after_store self.old path.now result) { requests = self.new.requests } }
        ensures gives_stores { MatchResult result (λ store. self.new.stores_given ≡ self.old.stores_given ++ store ∷ []) (λ fault. self.new.stores_given ≡ self.old.stores_given) }
        ensures cause { CountsOpening result self.old.faults self.new.faults }
    {
        self.keep_store_request(path);
        if self.next_fails() {
            return Err(OpenFault::from(self.fail()));
        }
        match self.take_store(path) {
            Some(store) => Ok(store),
            None => Err(OpenFault::from(self.fail())),
        }
    }

    fn give_back(&mut self, store: MemoryDisk)
        requires { length self.old.stores_back + 1 ≤ length self.old.stores_given }
        ensures { self.new ≡ record self.old { stores_back = self.old.stores_back ++ store ∷ [] } }
    {
        self.stores_back.push_reserved(store);
    }

    /// Fails exactly where this call's number is one of those, or fewer doors are left.
    fn doors(&mut self, listen: Option<&str>, n: u32) -> Result<Vec<ListDoor>, OpenFault>
        ensures fails { says_failed result ≡ opens_none self.old n }
        ensures asks { Requested self.old.requests self.new.requests (Request.OpenDoors (option_copied listen.entry) n ∷ []) }
        ensures opens { IfOk result (λ doors. doors.items ≡ take n (drop self.old.at self.old.doors)) }
        ensures after { self.new ≡ record (after_doors self.old n result) { requests = self.new.requests } }
        ensures count { IfOk result (λ doors. length doors.items ≡ n) }
        ensures within { IfOk result (λ doors. All (IsWithin (λ door. door.returned) lines_given) doors.items) }
        ensures gives_doors { MatchResult result (λ doors. doors_of self.new ≡ doors_of self.old ++ doors.items) (λ fault. doors_of self.new ≡ doors_of self.old) }
        ensures cause { CountsOpening result self.old.faults self.new.faults }
    {
        self.keep_door_request(listen, n);
        if self.next_fails() || self.doors.len() - self.at < n as usize {
            return Err(OpenFault::from(self.fail()));
        }
        let given = self.next_doors(n)?;
        self.at += n as usize;
        Ok(given)
    }

    fn give_doors(&mut self, mut doors: Vec<ListDoor>)
        requires { length self.old.back + length doors.items ≤ length (doors_of self.old) }
        ensures { self.new ≡ record self.old { back = self.old.back ++ doors.items } }
    {
        let _appended = self.back.append(&mut doors);
    }
}

/// Files, each a path and a text, as a host keeps them.
fn kept(alloc: Global, texts: Vec<(Text, Vec<u8>)>) -> Result<Vec<(Text, Text)>, NoMemory>
    ensures { IfOk result (λ files. files.items ≡ map (λ file. (file.0, file.1.items)) texts.items) }
{
    Ok(
        texts
            .into_iter()
            .map(|(path, text)| (path, Text::new(text)))
            .collect(alloc)?,
    )
}

/// The first `limit + 1` bytes of a text, or all of a shorter one.
fn front(text: &[u8], limit: u32) -> &[u8]
    ensures { result.now ≡ take (limit + 1) text.now }
{
    match text.get(..=limit as usize) {
        Some(front) => front,
        None => text,
    }
}
