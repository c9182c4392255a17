//! The right to add the next entry of a line. There is one at a time, from when it is taken until its entry stands; so who has it
//! has seen all of the line, and adding can't fail. Taking it can: so it is taken before anything is done that couldn't be undone.
//! In proofs it is the pen of a word that nobody makes (`logbook`): the rule lets an entry be added only where that word comes home.
ghost use Rattle.std.specs.Prelude.{◌≡◌, ◌+◌, ◌<◌, ◌^◌, ◌++◌, ◌∷◌, [], length, IfSome};
ghost use mathlib.Core.List.{IsPrefix};
ghost use Rattle.step_book.specs.Rules.{head_of, right_of};

use crate::line::{Add, Law, Nothing, Past, Take};
use logbook::{Offer, Pen, Plain, Word};

/// The most entries that the word of a line can tell.
const MOST: u64 = 0x7fff_ffff_ffff_ffff;

/// A line that is held, with all of its entries.
#[derive(Drop)]
pub struct Held<E> {
    pub(crate) past: Past<E>,
    pen: Pen,
    ghost room: { past.steps + 1 < 2 ^ 63 },
    ghost book: { pen.book ≡ past.seen.book },
    ghost right: { pen.nib ≡ right_of (length past.seen.log) },
}

impl<E> Past<E> {
    /// The right to add the next entry, where the line has no more than was seen. There is none where it has more, or where someone
    /// else has the right.
    pub(crate) fn hold<M: Plain<(), E, u64>>(&self, head: &Word<E, u64, Law>) -> Option<Held<E>>
        requires { head.now ≡ head_of self.now.seen.book }
        ensures past { IfSome result (λ held. held.past ≡ self.now) }
        ensures room { IfSome result (λ held. length self.now.seen.log + 1 < 2 ^ 63) }
    {
        let steps = self.steps;
        if steps >= MOST {
            return None;
        }
        let mut seen = self.seen.again();
        let mut offer: Offer<E, u64, Law, Nothing> = seen.plain::<Nothing, (), M>(&());
        let mut pen = seen.no_pen();
        let told = steps + steps;
        let found = head.compare_exchange::<Take, Nothing>(
            told,
            told + 1,
            &mut seen,
            &mut offer,
            &mut pen,
        );
        if found != told {
            return None;
        }
        let _nowhere: Word<E, u64, Law> = Word::tracked(0, &mut pen);
        Some(Held {
            past: self.again(),
            pen,
        })
    }
}

impl<E> Held<E> {
    /// Adds an entry, behind all that anyone has seen. The line isn't held any more.
    pub(crate) fn add<X, M: Plain<X, E, u64>>(
        self,
        head: &Word<E, u64, Law>,
        about: &X,
        other: &Past<E>,
    ) -> Past<E>
        requires head { head.now ≡ head_of self.past.seen.book }
        requires other { other.now.seen.book ≡ self.past.seen.book }
        ensures book { result.seen.book ≡ self.past.seen.book }
        ensures log { result.seen.log ≡ self.past.seen.log ++ M.ask about.now ∷ [] }
        ensures other { IsPrefix other.now.seen.log self.past.seen.log }
    {
        let Held { past, pen } = self;
        let Past { steps, seen } = past;
        let mut seen = seen;
        let mut pen = pen;
        seen.learn(&other.seen);
        let mut offer: Offer<E, u64, Law, Nothing> = seen.plain::<Nothing, X, M>(about);
        let told = steps + steps + 1;
        head.compare_exchange::<Add, Nothing>(told, told + 1, &mut seen, &mut offer, &mut pen);
        Past {
            steps: steps + 1,
            seen,
        }
    }
}
