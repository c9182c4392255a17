//! A door over a list of connections in memory, which gives a copy of each in turn.
ghost use Rattle.std.specs.Prelude.{◌≡◌, ◌<◌, ◌==◌, [], ◌∷◌, ◌++◌, length, IfOk, IsTrue};
ghost use Rattle.srch_base.specs.Counts.{HasCause};
ghost use Rattle.srch_base.specs.Doors.{lines_in, says_end};
ghost use Rattle.srch_base.specs.Memory.{door_over, lines_given, after_next};

use crate::{Door, Failed, MemoryLink, NoMemory};
use std::alloc::{AllocError, Global};
use std::marker::Model;

/// A door that gives the links of a list, each as it is there. It is for tests and for trying things out.
///
/// Contracts see it as a `Lines`.
#[derive(Debug, Drop)]
pub struct ListDoor {
    lines: Vec<MemoryLink>,
    at: usize,
    returned: Vec<MemoryLink>,
    ended: bool,
    faults: u64,
}

impl Model for ListDoor {
    ghost use Rattle.std.specs.Prelude.{◌≡◌, ◌≤◌, length, vec_capacity};
    ghost use Rattle.std.specs.Bool.{OnTrue};
    ghost use Rattle.srch_base.specs.Memory.{Lines};

    ghost Value = { Lines };

    ghost view = { λ a. record {
      lines = a.lines.items;
      at = a.at;
      returned = a.returned.items;
      ended = a.ended;
      faults = a.faults;
    } };

    ghost invariant = { λ a. (a.at ≤ length a.lines.items) × (length a.lines.items ≤ vec_capacity a.returned) × (length a.returned.items ≤ a.at) × OnTrue a.ended (a.at ≡ length a.lines.items) };
}

impl ListDoor {
    /// A door that gives these lines in their order, and has then ended.
    ///
    /// It gives copies. A line that no memory is left for isn't given: the door counts a fault, and gives it at the next call.
    pub fn new(alloc: Global, lines: Vec<MemoryLink>) -> Result<ListDoor, NoMemory>
        ensures { IfOk result (λ door. door ≡ door_over lines.items) }
    {
        Ok(ListDoor {
            returned: Vec::with_capacity(alloc, lines.len())?,
            lines,
            at: 0,
            ended: false,
            faults: 0,
        })
    }

    /// The lines that were handed back so far, in that order.
    pub fn returned(&self) -> &[MemoryLink]
        ensures { result.now ≡ self.now.returned }
    {
        self.returned.as_slice()
    }
}

impl Door for ListDoor {
    type Line = MemoryLink;

    ghost given = { lines_given };

    ghost returned = { λ d. d.returned };

    ghost ended = { λ d. d.ended };

    ghost faults = { λ d. d.faults };

    /// None exactly where all lines were given.
    fn next(&mut self) -> Result<Option<MemoryLink>, Failed>
        ensures ends { says_end result ≡ (self.old.at == length self.old.lines) }
        ensures after { self.new ≡ after_next self.old result }
        ensures gives { lines_given self.new ≡ lines_given self.old ++ lines_in result }
        ensures stays_ended { IsTrue self.old.ended → lines_in result ≡ [] }
        ensures cause { HasCause self.old.faults self.new.faults result }
    {
        let Some(line) = self.lines.get(self.at) else {
            self.ended = true;
            return Ok(None);
        };
        match line.clone() {
            Ok(line) => {
                self.at += 1;
                Ok(Some(line))
            }
            Err(_) => {
                self.faults = self.faults.saturating_add(1);
                Err(Failed)
            }
        }
    }

    fn done(&mut self, line: MemoryLink)
        requires { length self.old.returned < length (lines_given self.old) }
        ensures { self.new ≡ record self.old { returned = self.old.returned ++ line ∷ [] } }
    {
        self.returned.push_reserved(line);
    }
}

/// A copy is as far as the door is. A door has no more lines back than it gave, and so has its copy.
impl Clone for ListDoor {
    ghost use Rattle.std.specs.Prelude.{◌≤◌};

    ghost is_clone = { λ door other. (other ≡ door) × (length other.returned ≤ length (lines_given other)) };

    fn clone(&self) -> Result<ListDoor, AllocError> {
        let mut returned = self.returned.clone()?;
        returned.reserve(self.lines.len() - self.returned.len())?;
        Ok(ListDoor {
            lines: self.lines.clone()?,
            at: self.at,
            returned,
            ended: self.ended,
            faults: self.faults,
        })
    }
}
