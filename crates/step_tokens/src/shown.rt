//! What is published: a snapshot with the steps after which it stands. The steps take no memory, since they stand in proofs; what
//! is there at run time is their number, and a count of who shares the snapshot.
ghost use Rattle.std.specs.Prelude.{◌≡◌, IfOk};
ghost use Rattle.std.specs.Arc.{arc_value};
ghost use Rattle.step_history.specs.History.{last_snapshot};
ghost use Rattle.step_tokens.specs.Shows.{IsShown};

use doc_types::Snapshot;
use image_chunk::AnyChunk;
use left_right::Absorb;
use std::alloc::{AllocError, Global};
use std::marker::Model;
use std::sync::Arc;
use step_book::{Front, Mark, Naming, Past};

/// A snapshot of an index, and the steps after which it stands. It is a type without names, as `left_right` wants it; that the
/// steps are those of the index says the rule of its ends.
#[derive(Drop)]
pub struct Shown {
    index: u16,
    snapshot: Arc<Snapshot<AnyChunk>, Global>,
    past: Past<Mark>,
}

impl Model for Shown {
    ghost use Rattle.std.specs.Arc.{arc_value};
    ghost use Rattle.step_tokens.specs.Shows.{ShownValue};

    ghost Value = { ShownValue };

    ghost view = { λ s. record { index = s.index; snapshot = arc_value s.snapshot; book = s.past.seen.book; steps = s.past.seen.log } };
}

impl Shown {
    /// The last snapshot of a front.
    pub fn new<J: Naming>(snapshot: Arc<Snapshot<AnyChunk>, Global>, front: &Front<J>) -> Shown
        requires { arc_value snapshot ≡ last_snapshot (J.base front.now.index) front.now.steps }
        ensures value { result ≡ record { index = front.now.index; snapshot = last_snapshot (J.base front.now.index) front.now.steps; book = J.book front.now.index; steps = front.now.steps } }
        ensures shown { IsShown J.book J.schema J.base result }
    {
        Shown {
            index: front.index(),
            snapshot,
            past: front.past(),
        }
    }

    /// The same once more, with the same snapshot.
    pub fn again(&self) -> Result<Shown, AllocError>
        ensures { IfOk result (λ shown. shown ≡ self.now) }
    {
        let snapshot = Arc::try_clone(&self.snapshot)?;
        Ok(Shown {
            index: self.index,
            snapshot,
            past: self.past.again(),
        })
    }

    /// The snapshot.
    pub fn snapshot(&self) -> Result<Arc<Snapshot<AnyChunk>, Global>, AllocError>
        ensures { IfOk result (λ snapshot. arc_value snapshot ≡ self.now.snapshot) }
    {
        Arc::try_clone(&self.snapshot)
    }

    /// The history, under the name of the index.
    pub fn front<J: Naming>(&self) -> Front<J>
        requires { IsShown J.book J.schema J.base self.now }
        ensures { result ≡ record { index = self.now.index; steps = self.now.steps } }
    {
        Front::named(self.index, self.past.again())
    }
}

/// What is published takes the place of what was.
impl Absorb<Shown> for Shown {
    type State = Shown;

    ghost state = { λ shown. shown };

    ghost applied = { λ shown next. next };

    fn absorb_first(&mut self, operation: &Shown, _other: &Shown) -> Result<(), AllocError> {
        let next = operation.again()?;
        *self = next;
        Ok(())
    }
}
