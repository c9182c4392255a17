//! Where connections come from. What a door gives it gets back: both lists are meanings of the door, so that a contract can
//! say that each connection was served and handed back.
ghost use Rattle.std.specs.Prelude.{◌≡◌, ◌<◌, ℕ, List, ◌∷◌, [], ◌++◌, Bool, true, ◌||◌, length, OnOk};
ghost use Rattle.srch_base.specs.Counts.{HasCause};
ghost use Rattle.srch_base.specs.Doors.{lines_in, says_end};

use crate::{Failed, Link};

/// Where lines come from: a listener, the one line of the standard streams, or a list in memory.
pub trait Door {
    type Line: Link;

    /// The lines given so far, as they were when they were given.
    ghost given: { Self → List Self.Line };

    /// The lines handed back so far, as they were when they came back.
    ghost returned: { Self → List Self.Line };

    /// The door has no further line.
    ghost ended: { Self → Bool };

    /// How often the door has failed.
    ghost faults: { Self → ℕ };

    /// The next line, or none: then the door has ended, and nothing else ends it. It may wait for a peer.
    ///
    /// A door that has ended gives no line any more.
    fn next(&mut self) -> Result<Option<Self::Line>, Failed>
        ensures gives { given self.new ≡ given self.old ++ lines_in result }
        ensures ends { ended self.new ≡ (ended self.old || says_end result) }
        ensures stays_ended { ended self.old ≡ true → lines_in result ≡ [] }
        ensures cause { HasCause (faults self.old) (faults self.new) result }
        ensures calm { OnOk result (faults self.new ≡ faults self.old) }
        ensures back { returned self.new ≡ returned self.old };

    /// Takes back a line that it gave.
    fn done(&mut self, line: Self::Line)
        requires { length (returned self.old) < length (given self.old) }
        ensures back { returned self.new ≡ returned self.old ++ line ∷ [] }
        ensures gives { given self.new ≡ given self.old }
        ensures ends { ended self.new ≡ ended self.old }
        ensures count { faults self.new ≡ faults self.old };
}
