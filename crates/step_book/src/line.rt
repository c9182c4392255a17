//! The line: a word that all threads may read and that tells the number of entries, and whether someone has the right to add the next
//! one. Which entries these are stands in proofs, as the log of a book of `logbook`: what a thread has seen of it begins all that any
//! thread sees later. The history of an index is such a line over its steps.
ghost use Rattle.std.specs.Prelude.{◌≡◌, [], length};
ghost use Rattle.step_history.specs.History.{AreOf};
ghost use Rattle.step_book.specs.Rules.{head_of};

use crate::front::Front;
use crate::made::{Made, Mark};
use crate::naming::Naming;
use doc_types::Chunk;
use logbook::{Gain, Plain, Play, Rule, Seen, Start, Word};
use std::marker::PhantomData;

/// The rule of the line: its word is twice its length, and one more while the right to add the next entry is taken.
pub struct Law;

impl<E> Rule<E, u64> for Law {
    ghost use Rattle.std.specs.Prelude.{[]};
    ghost use base.Fml.{ftrue};
    ghost use Rattle.step_book.specs.Rules.{IsKept};

    ghost holds = { λ cells line. IsKept cells line };

    ghost first = { [] };

    ghost hinted = { λ number line. Unit {0} };

    ghost shows = { λ line. [] };

    ghost keeps = { λ names line. ftrue };

    ghost moves = { λ ask before after answer. Unit {0} };
}

/// Nothing is traded with the line.
pub struct Nothing;

impl<E> Gain<E, u64> for Nothing {
    ghost use base.Fml.{ftrue};

    ghost after = { λ names about answer. ftrue };
}

/// An exchange that takes the right to add the next entry.
pub struct Take;

impl<E> Play<E, u64> for Take {
    ghost use Rattle.step_book.specs.Rules.{Takes};

    ghost then = { Takes };
}

/// Taking that right tells the line nothing: a step or a worker that nobody made stands in its place.
impl Plain<(), Mark, u64> for Take {
    ghost use Rattle.std.specs.Prelude.{None};
    ghost use Rattle.step_book.specs.Tellings.{no_step};

    ghost ask = { λ nothing. no_step };

    ghost state = { λ nothing. None };
}

/// An exchange that adds an entry.
pub struct Add;

impl<E> Play<E, u64> for Add {
    ghost use Rattle.step_book.specs.Rules.{Adds};

    ghost then = { Adds };
}

impl<C: Chunk> Plain<Made<C>, Mark, u64> for Add {
    ghost use Rattle.std.specs.Prelude.{None};

    ghost ask = { λ made. made };

    ghost state = { λ made. None };
}

/// A beginning of some line, of which index isn't said.
#[derive(Drop)]
pub struct Past<E> {
    pub steps: u64,
    pub seen: Seen<E, u64, Law>,
    ghost counted: { steps ≡ length seen.log },
}

impl<E> Past<E> {
    /// The same once more.
    pub fn again(&self) -> Past<E>
        ensures { result ≡ self.now }
    {
        Past {
            steps: self.steps,
            seen: self.seen.again(),
        }
    }
}

/// A line without entries, which has no name yet.
#[derive(Drop)]
pub struct NewLine<E> {
    head: Word<E, u64, Law>,
    past: Past<E>,
    pub ghost empty: { past.seen.log ≡ [] },
    pub ghost head_is: { head ≡ head_of past.seen.book },
}

/// A line without steps.
pub type NewBook = NewLine<Mark>;

impl<E> NewLine<E> {
    #[tactic(auto, using(crate::proofs::Adding::opened))]
    pub fn new() -> NewLine<E> {
        let (seen, mut first, _second) = Seen::open(Start::alone(), 0, 0);
        NewLine {
            head: Word::tracked(0, &mut first),
            past: Past { steps: 0, seen },
        }
    }

    /// Its word, and the beginning of it that has no entries.
    pub(crate) fn into_parts(self) -> (Word<E, u64, Law>, Past<E>)
        ensures head { result.0 ≡ head_of self.past.seen.book }
        ensures past { result.1 ≡ self.past }
        ensures empty { self.past.seen.log ≡ [] }
    {
        let NewLine { head, past } = self;
        (head, past)
    }
}

impl NewLine<Mark> {
    /// The line under the name of an index, and the front of it that has no steps.
    pub fn named<J: Naming>(self, index: u16) -> (Book<J>, Front<J>)
        requires book { self.past.seen.book ≡ J.book index }
        requires base { AreOf (J.schema index) (J.base index).opening }
        ensures book { result.0.index ≡ index }
        ensures front { result.1 ≡ record { index = index; steps = [] } }
    {
        let (head, past) = self.into_parts();
        (
            Book {
                index,
                head,
                of: PhantomData,
            },
            Front::named(index, past),
        )
    }
}

/// The line of an index. It is a word, the number of steps.
#[derive(Drop)]
pub struct Book<J: Naming> {
    pub index: u16,
    pub(crate) head: Word<Mark, u64, Law>,
    of: PhantomData<J>,
    ghost head_is: { head ≡ head_of (J.book index) },
}
