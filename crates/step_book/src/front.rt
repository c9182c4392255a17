//! What was seen of an index's history: a beginning of it. A front is what tokens remember, what a published snapshot carries,
//! and what the writing end adds to. Of any two fronts of one index the shorter begins the longer; so whoever has two may keep
//! the longer one alone, and a comparison of lengths tells which that is.
ghost use Rattle.std.specs.Prelude.{◌≡◌, ◌<◌, ◌++◌, ◌∷◌, [], length, MatchBool, IfSome};
ghost use mathlib.Core.List.{IsPrefix};
ghost use Rattle.step_history.specs.History.{AreOf, Follows, IsGood, snapshot_of};

use crate::held::Held;
use crate::line::{Add, Book, Past, Take};
use crate::made::{Made, Mark};
use crate::naming::Naming;
use doc_types::Chunk;
use std::marker::{Model, PhantomData};

/// A beginning of the history of an index that was seen. Contracts see the index's number and the steps. It is good.
#[derive(Drop)]
pub struct Front<J: Naming> {
    index: u16,
    past: Past<Mark>,
    of: PhantomData<J>,
}

impl<J: Naming> Model for Front<J> {
    ghost use Rattle.std.specs.Prelude.{◌≡◌};
    ghost use Rattle.step_history.specs.History.{IsGood};
    ghost use Rattle.step_book.specs.Fronts.{FrontValue};

    ghost Value = { FrontValue };

    ghost view = { λ f. record { index = f.index; steps = f.past.seen.log } };

    ghost invariant = { λ f. (f.past.seen.book ≡ J.book f.index) × IsGood (J.schema f.index) (J.base f.index) f.past.seen.log };
}

impl<J: Naming> Front<J> {
    /// A past of the index, under its name.
    pub fn named(index: u16, past: Past<Mark>) -> Front<J>
        requires book { past.seen.book ≡ J.book index }
        requires good { IsGood (J.schema index) (J.base index) past.seen.log }
        ensures { result ≡ record { index = index; steps = past.seen.log } }
    {
        Front {
            index,
            past,
            of: PhantomData,
        }
    }

    /// Which index it is of.
    pub fn index(&self) -> u16
        ensures { result ≡ self.now.index }
    {
        self.index
    }

    /// How many steps it has.
    pub fn len(&self) -> u64
        ensures length { result ≡ length self.now.steps }
        ensures good { IsGood (J.schema self.now.index) (J.base self.now.index) self.now.steps }
    {
        self.past.steps
    }

    /// The same once more.
    pub fn again(&self) -> Front<J>
        ensures { result ≡ self.now }
    {
        Front {
            index: self.index,
            past: self.past.again(),
            of: PhantomData,
        }
    }

    /// The same without its name.
    pub fn past(&self) -> Past<Mark>
        ensures book { result.seen.book ≡ J.book self.now.index }
        ensures steps { result.seen.log ≡ self.now.steps }
        ensures good { IsGood (J.schema self.now.index) (J.base self.now.index) self.now.steps }
    {
        self.past.again()
    }

    /// Takes on another front of the same index where that has as many steps or more, and says whether it did. Either way this
    /// front is then the longer of the two, and both begin it.
    pub fn follow(&mut self, other: &Front<J>) -> bool
        requires { other.now.index ≡ self.old.index }
        ensures longer { MatchBool result ((self.new ≡ other.now) × IsPrefix self.old.steps other.now.steps) ((self.new ≡ self.old) × IsPrefix other.now.steps self.old.steps × (length other.now.steps < length self.old.steps)) }
        ensures good { IsGood (J.schema self.new.index) (J.base self.new.index) self.new.steps }
    {
        let mut both = self.past.seen.again();
        both.learn(&other.past.seen);
        if other.past.steps < self.past.steps {
            return false;
        }
        *self = other.again();
        true
    }

    /// The right to add the next step, where the line has no more steps than this front. There is none where it has more, or where
    /// someone else has the right.
    pub fn turn(&self, book: &Book<J>) -> Option<Turn<J>>
        requires { book.now.index ≡ self.now.index }
        ensures { IfSome result (λ turn. turn ≡ self.now) }
    {
        let held = self.past.hold::<Take>(&book.head);
        match held {
            None => None,
            Some(held) => Some(Turn {
                index: self.index,
                held,
                of: PhantomData,
            }),
        }
    }
}

/// The right to add the next step to the history of an index. Contracts see all of the history, as a front does.
#[derive(Drop)]
pub struct Turn<J: Naming> {
    index: u16,
    held: Held<Mark>,
    of: PhantomData<J>,
}

impl<J: Naming> Model for Turn<J> {
    ghost use Rattle.std.specs.Prelude.{◌≡◌};
    ghost use Rattle.step_history.specs.History.{IsGood};
    ghost use Rattle.step_book.specs.Fronts.{FrontValue};

    ghost Value = { FrontValue };

    ghost view = { λ t. record { index = t.index; steps = t.held.past.seen.log } };

    ghost invariant = { λ t. (t.held.past.seen.book ≡ J.book t.index) × IsGood (J.schema t.index) (J.base t.index) t.held.past.seen.log };
}

impl<J: Naming> Turn<J> {
    /// Adds a step. The next one needs a turn of its own.
    pub fn add<C: Chunk>(self, book: &Book<J>, made: &Made<C>) -> Front<J>
        requires index { book.now.index ≡ self.index }
        requires follows { Follows (J.base self.index) self.steps made.now }
        requires of { AreOf (J.schema self.index) (snapshot_of made.now) }
        ensures { result ≡ record self { steps = self.steps ++ made.now ∷ [] } }
    {
        let Turn { index, held, of: _ } = self;
        let seen = held.past.again();
        let past = held.add::<Made<C>, Add>(&book.head, made, &seen);
        Front::named(index, past)
    }
}
