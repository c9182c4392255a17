//! A worker's tokens: one of each index. With them it reads, which takes neither a lock nor an engine, commits, and does jobs.
ghost use Rattle.std.specs.Prelude.{◌≡◌, ◌<◌, ◌≤◌, ◌+◌, ◌++◌, ◌∷◌, [], Option, Some, None, length, slice_get, slice_set, option_to_list, IfErr, IfOk, OnErr, OnOk};
ghost use Rattle.std.specs.Arc.{arc_value};
ghost use Rattle.std.specs.Option.{option_or};
ghost use Rattle.commit_outcomes.specs.declared.strayed.Strayed.{Strayed as Numbers};
ghost use Rattle.doc_types.specs.Schemas.{IsSchema};
ghost use Rattle.doc_types.specs.Snapshots.{AreLayers};
ghost use Rattle.doc_types.specs.Transactions.{IsTxnOf};
ghost use Rattle.step_book.specs.Fronts.{FrontValue};
ghost use Rattle.job_chunks.specs.Chunks.{IsNewChunk};
ghost use Rattle.job_chunks.specs.Limits.{HasRoom};
ghost use Rattle.engine_tables.specs.Tokens.{TokensValue as TokensNow};
ghost use Rattle.engine_tables.specs.Workers.{CommitsBy, GrowAll, HasSeen, ReshapesBy, documents_of};
ghost use Rattle.engine_tables.specs.steps.Lasts.{last_told, last_token, shortened};

use crate::outcomes::{job_outcome_of, numbers_of, numbers_of_job, outcome_of};
use chunk_store::Disk;
use commit_outcomes::{CommitOutcome, Strayed};
use doc_types::{Snapshot, Txn};
use image_chunk::AnyChunk;
use ql_answers::JobOutcome;
use snap_share::{Engine, NewChunk, Token, snapshot};
use srch_base::{NoMemory, Or};
use std::alloc::Global;
use std::marker::Model;
use std::sync::{Arc, Wait};
use step_book::Naming;
use step_history::Job;

/// The tokens of one worker, one of each index, and of each index the first contradiction that one of its commits or jobs was
/// answered.
#[derive(Drop)]
pub struct Tokens<J: Naming> {
    pub(crate) worker: u32,
    pub(crate) list: Vec<Token<J>>,
    pub(crate) told: Vec<Option<Strayed>>,
}

impl<J: Naming> Model for Tokens<J> {
    ghost use Rattle.engine_tables.specs.Tokens.{AreInOrder, TokensValue};

    ghost Value = { TokensValue };

    ghost view = { λ t. record { worker = t.worker; list = t.list.items; told = t.told.items } };

    ghost invariant = { λ t. AreInOrder (record { worker = t.worker; list = t.list.items; told = t.told.items }) };
}

/// No id lives twice in a snapshot.
fn is_sound(snapshot: &Snapshot<AnyChunk>)
    ensures { AreLayers snapshot.now.layers }
{
    let _layers = &snapshot.layers;
}

/// Keeps what was told of the index at a place, where it is the first contradiction.
fn keep_first(told: &mut Vec<Option<Strayed>>, place: u16, numbers: Option<Strayed>)
    requires { place < length told.old.items }
    ensures { (had : Option Numbers) × (slice_get told.old.items place ≡ Some had) × (told.new.items ≡ slice_set told.old.items place (option_or had numbers)) }
{
    let first = &mut told[place as usize];
    *first = first.or(numbers);
}

impl<J: Naming> Tokens<J> {
    /// A worker's tokens of no index.
    pub(crate) fn none(alloc: Global, worker: u32) -> Tokens<J>
        ensures { result ≡ record { worker = worker; list = []; told = [] } }
    {
        Tokens {
            worker,
            list: Vec::new(alloc),
            told: Vec::new(alloc),
        }
    }

    /// Puts the worker's token of the next index behind those that are there. Out of memory, it comes back.
    pub(crate) fn push(&mut self, token: Token<J>) -> Result<(), Token<J>>
        requires next { token.index ≡ length self.old.list }
        requires own { token.worker ≡ self.old.worker }
        ensures ok { OnOk result (self.new ≡ record self.old { list = self.old.list ++ token ∷ []; told = self.old.told ++ None ∷ [] }) }
        ensures err { IfErr result (λ back. (back ≡ token) × (self.new ≡ self.old)) }
    {
        if self.list.reserve(1).is_err() {
            return Err(token);
        }
        if self.told.reserve(1).is_err() {
            return Err(token);
        }
        self.list.push_reserved(token);
        self.told.push_reserved(None);
        Ok(())
    }

    /// Takes the token of the last index away, and what was told of that.
    pub(crate) fn take_last(&mut self) -> (Token<J>, Option<Strayed>)
        requires { 0 < length self.old.list }
        ensures last { last_token self.old ≡ result.0 ∷ [] }
        ensures told { last_told self.old ≡ option_to_list result.1 }
        ensures index { result.0.index + 1 ≡ length self.old.list }
        ensures worker { result.0.worker ≡ self.old.worker }
        ensures left { self.new ≡ shortened self.old }
    {
        let told = self.told.take_last();
        (self.list.take_last(), told)
    }

    /// Whose they are.
    pub fn worker(&self) -> u32
        ensures { result ≡ self.now.worker }
    {
        self.worker
    }

    /// The documents of the index at a place, by one entry step of its token: they are those of a history that begins with all that
    /// the token had seen. Out of memory, the token may have seen more than before.
    pub fn read(&mut self, place: u16) -> Result<Arc<Snapshot<AnyChunk>, Global>, NoMemory>
        requires { place < length self.old.list }
        ensures found { IfOk result (λ snapshot. (front : FrontValue) × HasSeen J.schema J.base self.new place front × (arc_value snapshot ≡ documents_of J.base front)) }
        ensures grow { GrowAll self.old self.new }
        ensures alike { length self.new.told ≡ length self.new.list }
    {
        let found = snapshot(&mut self.list[place as usize])?;
        is_sound(&found);
        Ok(found)
    }

    /// Commits a transaction through the engine of an index, with the token of it. It waits for the commits of other workers. Out of
    /// memory, nothing of it was done, and the token may have seen more than before. The first contradiction that is answered
    /// is kept for the end of the engine.
    pub fn commit<D: Disk, R: Wait>(
        &mut self,
        rt: &R,
        engine: &Engine<D, J>,
        place: u16,
        txn: &Txn,
    ) -> Result<CommitOutcome, NoMemory>
        requires at { (place < length self.old.list) × (engine.now.index ≡ place) }
        requires own { (0 < self.old.worker) × (self.old.worker ≤ engine.now.workers) }
        requires of { IsSchema (J.schema place) × IsTxnOf (J.schema place) txn.now }
        ensures commits { IfOk result (λ outcome. (front : FrontValue) × CommitsBy J.schema J.base self.old place txn.now.ops outcome front self.new) }
        ensures failed { OnErr result (GrowAll self.old self.new) }
    {
        let worker = self.worker;
        let token = &mut self.list[place as usize];
        let answer = engine.commit(rt, worker, token, txn);
        // What the token has seen is a good history, whatever was answered.
        let _seen = token.len();
        let outcome = outcome_of(answer)?;
        keep_first(&mut self.told, place, numbers_of(outcome));
        Ok(outcome)
    }

    /// Does a job over the index at a place: its chunk is made of the documents as they are now, while others go on, and then the
    /// engine ends it. Out of memory, nothing of it was done, and the token may have seen more than before. The first
    /// contradiction that is answered is kept for the end of the engine.
    pub fn reshape<D: Disk, R: Wait>(
        &mut self,
        rt: &R,
        alloc: Global,
        engine: &Engine<D, J>,
        place: u16,
        job: Job,
    ) -> Result<JobOutcome, NoMemory>
        requires at { (place < length self.old.list) × (engine.now.index ≡ place) }
        requires own { (0 < self.old.worker) × (self.old.worker ≤ engine.now.workers) }
        requires of { IsSchema (J.schema place) }
        ensures reshapes { IfOk result (λ outcome. (mid : TokensNow) × (own : FrontValue) × (front : FrontValue) × GrowAll self.old mid × HasSeen J.schema J.base mid place own × ReshapesBy J.schema J.base mid place job outcome own front self.new) }
        ensures failed { OnErr result (GrowAll self.old self.new) }
    {
        let from = self.read(place)?;
        match NewChunk::build(alloc, &from, job) {
            Ok(new) => self.end_job(rt, engine, place, new),
            Err(Or::NoMemory) => Err(NoMemory),
            Err(Or::Fault(full)) => Ok(JobOutcome::Full(full)),
        }
    }

    /// Ends a job with the chunk that it made of all that the token of its index has seen. It waits for the commits of other workers,
    /// and they for it.
    fn end_job<D: Disk, R: Wait>(
        &mut self,
        rt: &R,
        engine: &Engine<D, J>,
        place: u16,
        new: NewChunk,
    ) -> Result<JobOutcome, NoMemory>
        requires at { (place < length self.old.list) × (engine.now.index ≡ place) }
        requires own { (0 < self.old.worker) × (self.old.worker ≤ engine.now.workers) }
        requires seen { (own : FrontValue) × HasSeen J.schema J.base self.old place own × (new.from ≡ documents_of J.base own) }
        requires room { HasRoom new.job new.from }
        requires chunk { IsNewChunk (J.schema place) new }
        ensures ends { IfOk result (λ outcome. (own : FrontValue) × (front : FrontValue) × HasSeen J.schema J.base self.old place own × ReshapesBy J.schema J.base self.old place new.job outcome own front self.new) }
        ensures failed { OnErr result (GrowAll self.old self.new) }
    {
        let token = &mut self.list[place as usize];
        let answer = engine.reshape(rt, token, new);
        // What the token has seen is a good history, whatever was answered.
        let _seen = token.len();
        let outcome = job_outcome_of(answer)?;
        keep_first(&mut self.told, place, numbers_of_job(outcome));
        Ok(outcome)
    }
}
