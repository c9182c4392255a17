//! The door of a row: it gives lines over memory that may take turns, and may fail at its first call.
ghost use Rattle.std.specs.Prelude.{◌≡◌, ◌≤◌, length};
ghost use Rattle.client_doors.specs.Lending.{things_back, things_given};

use crate::turns::TurnLink;
use client_doors::Lent;
use srch_base::{Door, Failed};

/// A door that gives some lines, the last one first, or fails at its first call.
pub(crate) struct TableDoor {
    /// The lines that weren't given yet.
    pub(crate) lines: Vec<TurnLink>,
    /// What was given and came back, for contracts.
    pub(crate) lent: Lent<TurnLink>,
    /// The lines that came back.
    pub(crate) back: Vec<TurnLink>,
    /// Whether the next call fails.
    pub(crate) fails: bool,
    /// Whether the last call said that there is no further line.
    pub(crate) ended: bool,
    pub(crate) faults: u64,
    ghost within: { length (things_back lent) ≤ length (things_given lent) },
}

// Not derived: so letting go of a door is a call, and no caller's proof takes apart what it holds.
impl Drop for TableDoor {
    fn drop(self) {
        let TableDoor {
            lines: _lines,
            lent: _lent,
            back: _back,
            fails: _,
            ended: _,
            faults: _,
        } = self;
    }
}

impl Door for TableDoor {
    ghost use Rattle.client_doors.specs.Lending.{things_back, things_given};

    type Line = TurnLink;

    ghost given = { λ d. things_given d.lent };

    ghost returned = { λ d. things_back d.lent };

    ghost ended = { λ d. d.ended };

    ghost faults = { λ d. d.faults };

    fn next(&mut self) -> Result<Option<TurnLink>, Failed> {
        if self.ended {
            return Ok(None);
        }
        if self.fails {
            self.fails = false;
            self.faults = self.faults.saturating_add(1);
            return Err(Failed);
        }
        let Some(line) = self.lines.pop() else {
            self.ended = true;
            return Ok(None);
        };
        self.lent.give_one(&line);
        Ok(Some(line))
    }

    fn done(&mut self, line: TurnLink) {
        self.lent.take_one_back(&line);
        let _kept = self.back.push(line);
    }
}
