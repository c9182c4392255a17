//! The keeper, and what it tells.
ghost use Rattle.std.specs.Prelude.{◌≡◌, ◌<◌, [], None, IfOk, IfErr};
ghost use Rattle.std.specs.Arc.{arc_value};
ghost use Rattle.step_history.specs.History.{AreOf};
ghost use Rattle.step_line.specs.Lines.{new_line};
ghost use Rattle.step_line.specs.Tallies.{new_tally};
ghost use Rattle.store_steps.specs.Kept.{IsKept};
ghost use Rattle.store_keep.specs.Keepers.{IsSound};
ghost use Rattle.store_keep.specs.Names.{IsNamed, first_tokens};
ghost use Rattle.store_keep.specs.Opens.{opening_of};

use crate::kept::Kept;
use crate::opening::Opened;
use chunk_store::Disk;
use commit_outcomes::Strayed;
use doc_types::Snapshot;
use image_chunk::AnyChunk;
use srch_base::NoMemory;
use std::alloc::Global;
use std::sync::{Arc, Wait};
use step_book::{Faults, Naming, NewBook, NewLine, Share, Stops};
use step_line::{Line, Tally};
use step_tokens::Token;

/// The keeper of one index. It isn't let go of: end it by `close`.
pub struct Keeper<D: Disk, J: Naming> {
    pub(crate) kept: Kept<D, J>,
    /// The place of the history at opening.
    pub(crate) first: u64,
    pub(crate) records: u64,
    pub(crate) documents: u32,
    pub(crate) chunks: u32,
    /// The first contradiction that was answered.
    pub(crate) strayed: Option<Strayed>,
    /// The calls that were charged as faults, and those that were as stops.
    pub(crate) faults: Tally<J, Faults>,
    pub(crate) stops: Tally<J, Stops>,
}

impl<D: Disk, J: Naming> Keeper<D, J> {
    /// A store that was opened, under the name of its index, with a token for each worker. For want of memory its disk comes back.
    pub fn named<R: Wait>(
        rt: &R,
        alloc: Global,
        opened: Opened<D>,
        index: u16,
        workers: u32,
    ) -> Result<(Keeper<D, J>, Vec<Token<J>>), D>
        requires workers { 0 < workers }
        requires book { opened.book.past.seen.book ≡ J.book index }
        requires faults { opened.faults.past.seen.book ≡ J.faults index }
        requires stops { opened.stops.past.seen.book ≡ J.stops index }
        requires opened { J.opened index ≡ opening_of D.Disk opened }
        requires base { J.base index ≡ record { opening = arc_value opened.snapshot; log = opened.files.log.end } }
        requires shape { (arc_value opened.snapshot).shape ≡ 0 }
        requires of { AreOf (J.schema index) (arc_value opened.snapshot) }
        requires kept { IsKept D.Disk (J.schema index) (J.base index) [] None opened.disk opened.files }
        ensures keeper { IfOk result (λ named. IsNamed opened index workers named.0) }
        ensures tokens { IfOk result (λ named. named.1.items ≡ first_tokens index workers) }
        ensures sound { IfOk result (λ named. IsSound D.Disk J.schema J.base J.opened named.0) }
        ensures disk { IfErr result (λ disk. disk ≡ opened.disk) }
    {
        let chunks = opened.disk_chunks();
        let Opened {
            disk,
            files,
            book,
            faults,
            stops,
            snapshot,
            records,
            documents,
        } = opened;
        let first = snapshot.number;
        match lines_of::<J>(alloc, book, faults, stops, snapshot, index, workers) {
            Ok((line, faults, stops)) => {
                let tokens = tokens_of(alloc, &line, faults.share(), stops.share(), workers);
                let kept = Kept {
                    alloc,
                    disk,
                    files,
                    line,
                };
                let keeper = Keeper {
                    kept,
                    first,
                    records,
                    documents,
                    chunks,
                    strayed: None,
                    faults,
                    stops,
                };
                match tokens {
                    Ok(tokens) => Ok((keeper, tokens)),
                    Err(NoMemory) => Err(keeper.close(rt)),
                }
            }
            Err(NoMemory) => Err(disk),
        }
    }

    /// How many records of the log were read at opening that no chunk has.
    pub fn records(&self) -> u64
        ensures { result ≡ self.now.records }
    {
        self.records
    }

    /// How many documents and how many chunks on the disk there were at opening.
    pub fn opened(&self) -> (u32, u32)
        ensures { result ≡ (self.now.documents, self.now.chunks) }
    {
        (self.documents, self.chunks)
    }
}

/// The line of an index without steps, and its lines of calls without calls.
fn lines_of<J: Naming>(
    alloc: Global,
    book: NewBook,
    faults: NewLine<u32>,
    stops: NewLine<u32>,
    snapshot: Arc<Snapshot<AnyChunk>, Global>,
    index: u16,
    workers: u32,
) -> Result<(Line<J>, Tally<J, Faults>, Tally<J, Stops>), NoMemory>
    requires workers { 0 < workers }
    requires book { book.past.seen.book ≡ J.book index }
    requires faults { faults.past.seen.book ≡ J.faults index }
    requires stops { stops.past.seen.book ≡ J.stops index }
    requires base { arc_value snapshot ≡ (J.base index).opening }
    requires of { AreOf (J.schema index) (J.base index).opening }
    ensures line { IfOk result (λ lines. lines.0 ≡ new_line index workers) }
    ensures faults { IfOk result (λ lines. lines.1 ≡ new_tally index workers) }
    ensures stops { IfOk result (λ lines. lines.2 ≡ new_tally index workers) }
{
    let faults = Tally::open(alloc, faults, index, workers)?;
    let stops = Tally::open(alloc, stops, index, workers)?;
    let (book, front) = book.named::<J>(index);
    let line = Line::open(alloc, book, front, snapshot, workers)?;
    Ok((line, faults, stops))
}

/// A token for each worker.
fn tokens_of<J: Naming>(
    alloc: Global,
    line: &Line<J>,
    faults: &Share<J, Faults>,
    stops: &Share<J, Stops>,
    workers: u32,
) -> Result<Vec<Token<J>>, NoMemory>
    requires workers { workers ≡ line.now.workers }
    requires none { line.now.history ≡ [] }
    requires faults { faults.now ≡ record { index = line.now.index; calls = [] } }
    requires stops { stops.now ≡ record { index = line.now.index; calls = [] } }
    ensures { IfOk result (λ tokens. tokens.items ≡ first_tokens line.now.index workers) }
{
    let mut tokens = Vec::new(alloc);
    for count in 0..workers {
        tokens.push(line.token(count + 1, faults, stops)?)?;
    }
    Ok(tokens)
}
