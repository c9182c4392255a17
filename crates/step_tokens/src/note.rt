//! What one session tells another: the history that it has seen.
ghost use Rattle.std.specs.Prelude.{◌≡◌, length};
ghost use Rattle.step_history.specs.History.{IsGood};

use std::marker::Model;
use step_book::{Front, Naming};

/// A history that someone has seen, for a token to learn. Contracts see its index and its steps.
#[derive(Drop)]
pub struct Note<J: Naming> {
    pub(crate) front: Front<J>,
}

impl<J: Naming> Model for Note<J> {
    ghost use Rattle.step_book.specs.Fronts.{FrontValue};

    ghost Value = { FrontValue };

    ghost view = { λ note. note.front };
}

impl<J: Naming> Note<J> {
    /// A note of this front.
    pub fn of(front: &Front<J>) -> Note<J>
        ensures { result ≡ front.now }
    {
        Note {
            front: front.again(),
        }
    }

    /// Of which index it is.
    pub fn index(&self) -> u16
        ensures { result ≡ self.now.index }
    {
        self.front.index()
    }

    /// How many steps it tells. They are a good history.
    pub fn len(&self) -> u64
        ensures length { result ≡ length self.now.steps }
        ensures good { IsGood (J.schema self.now.index) (J.base self.now.index) self.now.steps }
    {
        self.front.len()
    }
}
