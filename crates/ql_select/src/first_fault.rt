//! The fault that decides why a SELECT is refused: of the first class that has any, the one that stands first in the text. A SELECT
//! is gone over once, and the fault that would decide so far is all that is kept.
ghost use Rattle.std.specs.Prelude.{◌≡◌, fold};
ghost use Rattle.ql_select.specs.FirstFaults.{fault_in, rank, sooner};

use ql_refusals::Refusal;

/// What a fault is about. All faults of a class come before those of the next one.
#[derive(Clone, Copy)]
pub enum FaultClass {
    /// The name of an option.
    OptionName,
    /// Another name, which nothing has.
    Name,
    /// A column or a value of the wrong kind, or out of its range.
    Kind,
    /// A part of the SELECT that is missing, or passes a limit.
    Limit,
}

/// A fault of a SELECT.
#[derive(Drop)]
pub struct Fault {
    pub class: FaultClass,
    pub refusal: Refusal,
}

/// The fault that decides so far.
#[derive(Drop)]
pub(crate) struct FirstFault {
    pub(crate) fault: Option<Fault>,
}

impl FaultClass {
    /// How many classes come before it.
    fn rank(self) -> u8
        ensures { result ≡ rank self }
    {
        match self {
            FaultClass::OptionName => 0,
            FaultClass::Name => 1,
            FaultClass::Kind => 2,
            FaultClass::Limit => 3,
        }
    }
}

impl FirstFault {
    /// Takes note of a fault that stands after all others.
    pub(crate) fn note(&mut self, class: FaultClass, refusal: Refusal)
        ensures { self.new.fault ≡ sooner self.old.fault (record { class = class; refusal = refusal }) }
    {
        let decides = match &self.fault {
            Some(fault) => class.rank() < fault.class.rank(),
            None => true,
        };
        if decides {
            self.fault = Some(Fault { class, refusal });
        }
    }

    /// Takes note of a fault, if there is one.
    pub(crate) fn note_any(&mut self, class: FaultClass, refusal: Option<Refusal>)
        ensures { self.new.fault ≡ fold sooner self.old.fault (fault_in class refusal) }
    {
        if let Some(refusal) = refusal {
            self.note(class, refusal);
        }
    }
}
