//! What is kept of an index's calls that a disk's fault, or a contradiction, ended: the line of them, and how many of them are each
//! worker's. Before a call does what can't be undone its keeper gets ready to enter it; then entering it can't fail.
ghost use Rattle.std.specs.Prelude.{◌≡◌, ◌<◌, ◌≤◌, ◌∷◌, ◌++◌, [], false, true, OnErr, OnOk, IfOk};
ghost use mathlib.Core.List.{IsPrefix};
ghost use Rattle.step_book.specs.Shares.{calls_by};
ghost use Rattle.step_line.specs.Tallies.{new_tally};

use crate::counting::count_one;
use srch_base::NoMemory;
use std::alloc::Global;
use std::marker::Model;
use step_book::{Kind, Ledger, Naming, NewLine, Share, ShareTurn};

/// The calls of an index that were ended so. Contracts see the index, how many workers there are, the callers, and whether one more can be
/// entered.
#[derive(Drop)]
pub struct Tally<J: Naming, K: Kind> {
    ledger: Ledger<J, K>,
    share: Share<J, K>,
    turn: Option<ShareTurn<J, K>>,
    /// How many of the calls are each worker's, from worker 1 on.
    counts: Vec<u64>,
}

impl<J: Naming, K: Kind> Model for Tally<J, K> {
    ghost use Rattle.std.specs.Prelude.{◌≡◌, length, is_some};
    ghost use Rattle.step_line.specs.Tallies.{TallyValue};
    ghost use Rattle.step_line.specs.steps.Callers.{AreCallers, IsTurn};

    ghost Value = { TallyValue };

    ghost view = { λ t. record { index = t.share.index; workers = length t.counts.items; calls = t.share.calls; ready = is_some t.turn } };

    ghost invariant = { λ t. (t.ledger.index ≡ t.share.index) × IsTurn t.share t.turn × AreCallers t.counts.items t.share.calls };
}

impl<J: Naming, K: Kind> Tally<J, K> {
    /// A line without calls under the name of an index, for so many workers.
    pub fn open(
        alloc: Global,
        line: NewLine<u32>,
        index: u16,
        workers: u32,
    ) -> Result<Tally<J, K>, NoMemory>
        requires { line.past.seen.book ≡ K.of J.faults J.stops index }
        ensures { IfOk result (λ tally. tally ≡ new_tally index workers) }
    {
        let counts = vec![in alloc; 0; workers as usize]?;
        let (ledger, share) = line.entitled::<J, K>(index);
        Ok(Tally {
            ledger,
            share,
            turn: None,
            counts,
        })
    }

    /// The calls that were entered.
    pub fn share(&self) -> &Share<J, K>
        ensures { result.now ≡ record { index = self.now.index; calls = self.now.calls } }
    {
        &self.share
    }

    /// How many of them are a worker's.
    pub fn count(&self, worker: u32) -> u64
        requires { (0 < worker) × (worker ≤ self.now.workers) }
        ensures { result ≡ calls_by worker self.now.calls }
    {
        self.counts[worker as usize - 1]
    }

    /// Gets ready to enter one more call. That it can't is what a worker is told as want of memory; under the lock of the index it can.
    pub fn prepare(&mut self) -> Result<(), NoMemory>
        ensures ok { OnOk result (self.new ≡ record self.old { ready = true }) }
        ensures err { OnErr result (self.new ≡ self.old) }
    {
        if self.turn.is_some() {
            return Ok(());
        }
        let turn = self.share.turn(&self.ledger);
        match turn {
            None => Err(NoMemory),
            Some(turn) => {
                self.turn = Some(turn);
                Ok(())
            }
        }
    }

    /// Enters a call of a worker, behind all that anyone has seen.
    pub fn enter(&mut self, worker: u32, seen: &Share<J, K>)
        requires among { (0 < worker) × (worker ≤ self.old.workers) }
        requires ready { self.old.ready ≡ true }
        requires index { seen.now.index ≡ self.old.index }
        ensures calls { self.new ≡ record self.old { calls = self.old.calls ++ worker ∷ []; ready = false } }
        ensures seen { IsPrefix seen.now.calls self.old.calls }
    {
        let turn = self.turn.take();
        match turn {
            None => unreachable!(),
            Some(turn) => {
                self.share = turn.enter(&self.ledger, worker, seen);
                count_one(&mut self.counts, worker);
            }
        }
    }
}
