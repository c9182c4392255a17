//! Tokens. A worker has one for each index: with it it reads, and what it has read or was told of is remembered, so that no later
//! read gives less. A read is one entry step of `left_right`: it takes neither a lock nor a handle, and waits for nobody.
ghost use Rattle.std.specs.Prelude.{◌≡◌, ◌⊎◌, ◌+◌, ◌<◌, ◌^◌, [], None, Some, length, IfOk, IfSome, IfNone, MatchBool};
ghost use mathlib.Core.List.{IsPrefix};
ghost use Rattle.std.specs.Arc.{arc_value};
ghost use Rattle.step_history.specs.History.{IsGood, last_snapshot};
ghost use Rattle.step_book.specs.Shares.{calls_by};
ghost use Rattle.step_tokens.specs.Shows.{IsShown};
ghost use Rattle.step_tokens.specs.Tokens.{Agrees, HasCome, IsSameBut, faults_of, stops_of};

use crate::note::Note;
use crate::rule::{Finds, Idle, Rises};
use crate::shown::Shown;
use doc_types::Snapshot;
use image_chunk::AnyChunk;
use left_right::reader::Reader;
use srch_base::NoMemory;
use std::alloc::Global;
use std::marker::Model;
use std::sync::Arc;
use step_book::{Faults, Front, Kind, Naming, Share, Stops};

/// A reading end of an index.
pub type ReadingEnd<J> = Reader<Shown, Idle, Rises<J>>;

/// The right of one worker to read an index and to commit to it. It remembers the longest history that it saw or learnt.
#[derive(Drop)]
pub struct Token<J: Naming> {
    /// None only inside a call.
    end: Option<ReadingEnd<J>>,
    worker: u32,
    front: Front<J>,
    made: u64,
    faults: Taken<J, Faults>,
    stops: Taken<J, Stops>,
    /// The history with the last step that was left in doubt. Those before it are of one line with that.
    entered: Option<Front<J>>,
}

/// A beginning that was taken of a line of calls, and how many entries of it are the token's worker's.
#[derive(Drop)]
struct Taken<J: Naming, K: Kind> {
    share: Share<J, K>,
    own: u64,
}

impl<J: Naming> Model for Token<J> {
    ghost use Rattle.std.specs.Prelude.{◌≡◌};
    ghost use Rattle.step_book.specs.Shares.{calls_by};
    ghost use Rattle.step_tokens.specs.Tokens.{IsOf, TokenValue, steps_in};

    ghost Value = { TokenValue };

    ghost view = { λ t. record { index = t.front.index; worker = t.worker; seen = t.front.steps; made = t.made; faults = t.faults.share.calls; stops = t.stops.share.calls; entered = steps_in t.entered } };

    ghost invariant = { λ t. (t.faults.share.index ≡ t.front.index) × (t.stops.share.index ≡ t.front.index) × (t.faults.own ≡ calls_by t.worker t.faults.share.calls) × (t.stops.own ≡ calls_by t.worker t.stops.share.calls) × IsOf t.front.index t.entered };
}

/// One entry step: what is published then. The end comes back.
fn look<J: Naming>(end: ReadingEnd<J>) -> (ReadingEnd<J>, Option<Shown>)
    ensures { IfSome result.1 (IsShown J.book J.schema J.base) }
{
    match end.enter_as::<Finds<J>>() {
        Ok(reading) => {
            let shown = reading.get().again().ok();
            (reading.leave(), shown)
        }
        Err(end) => (end, None),
    }
}

impl<J: Naming> Token<J> {
    /// A worker's token, which has seen this front, made no commit and met no fault.
    pub fn new(
        end: ReadingEnd<J>,
        worker: u32,
        front: Front<J>,
        faults: Share<J, Faults>,
        stops: Share<J, Stops>,
    ) -> Token<J>
        requires faults { faults ≡ record { index = front.index; calls = [] } }
        requires stops { stops ≡ record { index = front.index; calls = [] } }
        ensures { result ≡ record { index = front.index; worker = worker; seen = front.steps; made = 0; faults = []; stops = []; entered = None } }
    {
        Token {
            end: Some(end),
            worker,
            front,
            made: 0,
            faults: Taken {
                share: faults,
                own: 0,
            },
            stops: Taken {
                share: stops,
                own: 0,
            },
            entered: None,
        }
    }

    /// How many calls with it answered that the disk failed.
    pub fn faults(&self) -> u64
        ensures { result ≡ faults_of self.now }
    {
        self.faults.own
    }

    /// How many calls with it answered a contradiction, or that numbers have ended.
    pub fn stops(&self) -> u64
        ensures { result ≡ stops_of self.now }
    {
        self.stops.own
    }

    /// The line of faults as it took it.
    pub fn taken_faults(&self) -> &Share<J, Faults>
        ensures { result.now ≡ record { index = self.now.index; calls = self.now.faults } }
    {
        &self.faults.share
    }

    /// The same of the line of stops.
    pub fn taken_stops(&self) -> &Share<J, Stops>
        ensures { result.now ≡ record { index = self.now.index; calls = self.now.stops } }
    {
        &self.stops.share
    }

    /// Takes the line of faults as it is now, in which so many are its worker's.
    pub fn take_faults(&mut self, share: &Share<J, Faults>, own: u64)
        requires index { share.now.index ≡ self.old.index }
        requires own { own ≡ calls_by self.old.worker share.now.calls }
        ensures { self.new ≡ record self.old { faults = share.now.calls } }
    {
        self.faults.share = share.again();
        self.faults.own = own;
    }

    /// The same of the line of stops.
    pub fn take_stops(&mut self, share: &Share<J, Stops>, own: u64)
        requires index { share.now.index ≡ self.old.index }
        requires own { own ≡ calls_by self.old.worker share.now.calls }
        ensures { self.new ≡ record self.old { stops = share.now.calls } }
    {
        self.stops.share = share.again();
        self.stops.own = own;
    }

    /// Of which index it is.
    pub fn index(&self) -> u16
        ensures { result ≡ self.now.index }
    {
        self.front.index()
    }

    /// Whose it is.
    pub fn worker(&self) -> u32
        ensures { result ≡ self.now.worker }
    {
        self.worker
    }

    /// How many steps it has seen. They are a good history.
    pub fn len(&self) -> u64
        ensures length { result ≡ length self.now.seen }
        ensures good { IsGood (J.schema self.now.index) (J.base self.now.index) self.now.seen }
    {
        self.front.len()
    }

    /// How many commits were made with it, those in doubt included.
    pub fn made(&self) -> u64
        ensures { result ≡ self.now.made }
    {
        self.made
    }

    /// One more commit was made with it.
    pub fn count(&mut self)
        requires { self.old.made + 1 < 2 ^ 64 }
        ensures { self.new ≡ record self.old { made = self.old.made + 1 } }
    {
        self.made += 1;
    }

    /// A commit of it was left in doubt, which is the last step of this front: it stands in the index's book, and may still be published.
    /// What it had left in doubt before is of one line with that.
    pub fn leave(&mut self, entered: &Front<J>)
        requires { entered.now.index ≡ self.old.index }
        ensures left { self.new ≡ record self.old { entered = Some entered.now.steps } }
        ensures earlier { Agrees self.old.entered entered.now.steps }
    {
        if let Some(earlier) = &self.entered {
            let mut longest = earlier.again();
            longest.follow(entered);
        }
        self.entered = Some(entered.again());
    }

    /// Whether the commit that was left in doubt last is known to have been published: then all that went before it was, too, and no
    /// other step stands in its place. False where none was left.
    pub fn has_come(&self) -> bool
        ensures { HasCome self.now.entered self.now.seen result }
    {
        match &self.entered {
            None => false,
            Some(entered) => {
                let mut longest = entered.again();
                longest.follow(&self.front)
            }
        }
    }

    /// One entry step. Where nothing is found, or less than was seen, nothing is taken on.
    fn enter(&mut self) -> Option<Shown>
        ensures same { IsSameBut self.old self.new }
        ensures some { IfSome result (λ shown. IsShown J.book J.schema J.base shown × (shown.index ≡ self.old.index) × (self.new.seen ≡ shown.steps) × IsPrefix self.old.seen shown.steps) }
        ensures none { IfNone result (self.new.seen ≡ self.old.seen) }
        ensures good { IsGood (J.schema self.new.index) (J.base self.new.index) self.new.seen }
    {
        let _steps = self.front.len();
        let end = self.end.take()?;
        let (end, shown) = look(end);
        self.end = Some(end);
        let shown = shown?;
        let front = shown.front();
        if front.index() != self.front.index() {
            return None;
        }
        if !self.front.follow(&front) {
            return None;
        }
        Some(shown)
    }
}

/// The last snapshot of the history that one entry step finds, which begins with all that the token had seen or learnt. For want
/// of memory the token has seen such a history too, or what it had seen.
pub fn snapshot<J: Naming>(
    token: &mut Token<J>,
) -> Result<Arc<Snapshot<AnyChunk>, Global>, NoMemory>
    ensures found { IfOk result (λ snapshot. arc_value snapshot ≡ last_snapshot (J.base token.old.index) token.new.seen) }
    ensures seen { IsPrefix token.old.seen token.new.seen }
    ensures good { IsGood (J.schema token.old.index) (J.base token.old.index) token.new.seen }
    ensures same { IsSameBut token.old token.new }
{
    let shown = token.enter().ok_or(NoMemory)?;
    let snapshot = shown.snapshot()?;
    Ok(snapshot)
}

/// What the token has seen is then the longer of what it had seen and what the note tells, and begins with both.
pub fn learn<J: Naming>(token: &mut Token<J>, note: &Note<J>)
    requires { note.now.index ≡ token.old.index }
    ensures one { (token.new.seen ≡ token.old.seen) ⊎ (token.new.seen ≡ note.now.steps) }
    ensures seen { IsPrefix token.old.seen token.new.seen }
    ensures told { IsPrefix note.now.steps token.new.seen }
    ensures same { IsSameBut token.old token.new }
{
    let _ = token.front.follow(&note.front);
}
