//! The lines of an index's calls that a disk, or a contradiction, ended: one of faults and one of stops. An entry is the worker whose
//! call it was. Such a line is the line of steps once more, over other entries; a share is a beginning of it that was seen, as a front
//! is of the history. Whoever has a share of each worker knows that the entries which are their own are no more than the line has:
//! so a count that a worker keeps by itself is tied to what stands under the index's lock.
ghost use Rattle.std.specs.Prelude.{◌≡◌, ◌+◌, ◌<◌, ◌^◌, ◌++◌, ◌∷◌, [], length, MatchBool, IfSome};
ghost use mathlib.Core.List.{IsPrefix};
ghost use Rattle.step_book.specs.Rules.{head_of};

use crate::held::Held;
use crate::line::{Add, Law, NewLine, Past, Take};
use crate::naming::Naming;
use logbook::{Plain, Word};
use std::marker::{Model, PhantomData};

/// Which of an index's lines of calls.
pub trait Kind {
    ghost use Rattle.std.specs.Prelude.{ℕ};
    ghost use Rattle.logbook.specs.Pages.{Book};

    /// The books of the line, by those of faults and those of stops.
    ghost of: { (ℕ → Book) → (ℕ → Book) → ℕ → Book };
}

/// The line of the calls that a disk's fault ended.
pub struct Faults;

impl Kind for Faults {
    ghost use Rattle.step_book.specs.Shares.{of_faults};

    ghost of = { of_faults };
}

/// The line of the calls that a contradiction or the end of numbers ended.
pub struct Stops;

impl Kind for Stops {
    ghost use Rattle.step_book.specs.Shares.{of_stops};

    ghost of = { of_stops };
}

/// An entry is told by the number of its worker.
impl Plain<u32, u32, u64> for Add {
    ghost use Rattle.std.specs.Prelude.{None};

    ghost ask = { λ worker. worker };

    ghost state = { λ worker. None };
}

/// Taking the right to enter the next call names no worker.
impl Plain<(), u32, u64> for Take {
    ghost use Rattle.std.specs.Prelude.{None};

    ghost ask = { λ nothing. 0 };

    ghost state = { λ nothing. None };
}

/// A beginning of an index's line of calls that was seen. Contracts see the index's number and the callers.
#[derive(Drop)]
pub struct Share<J: Naming, K: Kind> {
    index: u16,
    past: Past<u32>,
    of: PhantomData<(J, K)>,
}

impl<J: Naming, K: Kind> Model for Share<J, K> {
    ghost use Rattle.std.specs.Prelude.{◌≡◌};
    ghost use Rattle.step_book.specs.Shares.{ShareValue};

    ghost Value = { ShareValue };

    ghost view = { λ s. record { index = s.index; calls = s.past.seen.log } };

    ghost invariant = { λ s. s.past.seen.book ≡ K.of J.faults J.stops s.index };
}

/// An index's line of calls, under its name. It is a word, the number of entries.
#[derive(Drop)]
pub struct Ledger<J: Naming, K: Kind> {
    pub index: u16,
    head: Word<u32, u64, Law>,
    of: PhantomData<(J, K)>,
    ghost head_is: { head ≡ head_of (K.of J.faults J.stops index) },
}

impl NewLine<u32> {
    /// The line under the name of an index, and the share of it that has no calls.
    pub fn entitled<J: Naming, K: Kind>(self, index: u16) -> (Ledger<J, K>, Share<J, K>)
        requires book { self.past.seen.book ≡ K.of J.faults J.stops index }
        ensures ledger { result.0.index ≡ index }
        ensures share { result.1 ≡ record { index = index; calls = [] } }
    {
        let (head, past) = self.into_parts();
        (
            Ledger {
                index,
                head,
                of: PhantomData,
            },
            Share {
                index,
                past,
                of: PhantomData,
            },
        )
    }
}

impl<J: Naming, K: Kind> Share<J, K> {
    /// Which index it is of.
    pub fn index(&self) -> u16
        ensures { result ≡ self.now.index }
    {
        self.index
    }

    /// How many calls it has.
    pub fn len(&self) -> u64
        ensures { result ≡ length self.now.calls }
    {
        self.past.steps
    }

    /// The same once more.
    pub fn again(&self) -> Share<J, K>
        ensures { result ≡ self.now }
    {
        Share {
            index: self.index,
            past: self.past.again(),
            of: PhantomData,
        }
    }

    /// Takes on another share of the same line where that has as many calls or more, and says whether it did. Either way this share is
    /// then the longer of the two, and both begin it.
    pub fn follow(&mut self, other: &Share<J, K>) -> bool
        requires { other.now.index ≡ self.old.index }
        ensures { MatchBool result ((self.new ≡ other.now) × IsPrefix self.old.calls other.now.calls) ((self.new ≡ self.old) × IsPrefix other.now.calls self.old.calls × (length other.now.calls < length self.old.calls)) }
    {
        let mut both = self.past.seen.again();
        both.learn(&other.past.seen);
        if other.past.steps < self.past.steps {
            return false;
        }
        *self = other.again();
        true
    }

    /// The right to enter the next call, where the line has no more calls than this share. There is none where it has more, or where
    /// someone else has the right.
    pub fn turn(&self, ledger: &Ledger<J, K>) -> Option<ShareTurn<J, K>>
        requires { ledger.now.index ≡ self.now.index }
        ensures calls { IfSome result (λ turn. turn ≡ self.now) }
        ensures room { IfSome result (λ turn. length self.now.calls + 1 < 2 ^ 63) }
    {
        let held = self.past.hold::<Take>(&ledger.head);
        match held {
            None => None,
            Some(held) => Some(ShareTurn {
                index: self.index,
                held,
                of: PhantomData,
            }),
        }
    }
}

/// The right to enter the next call of a line. Contracts see all of the line, as a share does.
#[derive(Drop)]
pub struct ShareTurn<J: Naming, K: Kind> {
    index: u16,
    held: Held<u32>,
    of: PhantomData<(J, K)>,
}

impl<J: Naming, K: Kind> Model for ShareTurn<J, K> {
    ghost use Rattle.std.specs.Prelude.{◌≡◌};
    ghost use Rattle.step_book.specs.Shares.{ShareValue};

    ghost Value = { ShareValue };

    ghost view = { λ t. record { index = t.index; calls = t.held.past.seen.log } };

    ghost invariant = { λ t. t.held.past.seen.book ≡ K.of J.faults J.stops t.index };
}

impl<J: Naming, K: Kind> ShareTurn<J, K> {
    /// Enters a call of a worker, behind all that anyone has seen. The next one needs a turn of its own.
    pub fn enter(self, ledger: &Ledger<J, K>, worker: u32, seen: &Share<J, K>) -> Share<J, K>
        requires index { ledger.now.index ≡ self.index }
        requires seen { seen.now.index ≡ self.index }
        ensures calls { result ≡ record self { calls = self.calls ++ worker ∷ [] } }
        ensures seen { IsPrefix seen.now.calls self.calls }
    {
        let ShareTurn { index, held, of: _ } = self;
        let past = held.add::<u32, Add>(&ledger.head, &worker, &seen.past);
        Share {
            index,
            past,
            of: PhantomData,
        }
    }
}
