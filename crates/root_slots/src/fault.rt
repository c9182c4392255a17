use srch_base::{NoMemory, OpenFault};
use thiserror::Error;

/// Why a root isn't read.
#[derive(Clone, Copy, Debug, PartialEq, Eq, Error)]
pub enum RootFault {
    #[error("out of memory")]
    NoMemory,
    #[error("a device failed")]
    DiskFault,
    /// A slot is open and holds no state: at this place of its file.
    #[error("{kind} at {place} of slot {slot}")]
    BadRoot {
        slot: u8,
        place: u64,
        kind: RootKind,
    },
}

/// What is wrong with an open slot.
#[derive(Clone, Copy, Debug, PartialEq, Eq, Error)]
pub enum RootKind {
    /// The file ends before the state does.
    #[error("root length")]
    Length,
    /// A field of the state breaks the layout, or something follows the last field.
    #[error("root state")]
    State,
}

impl From<NoMemory> for RootFault {
    ghost use Rattle.std.specs.Prelude.{◌≡◌};
    ghost use Rattle.root_slots.specs.declared.fault.RootFault.TheVariants.{NoMemory};

    ghost from_gives = { λ _ fault. fault ≡ NoMemory };

    fn from(_: NoMemory) -> Self {
        RootFault::NoMemory
    }
}

impl From<OpenFault> for RootFault {
    ghost use Rattle.std.specs.Prelude.{◌≡◌};
    ghost use Rattle.root_slots.specs.Choosing.{widened};

    ghost from_gives = { λ failed fault. fault ≡ widened failed };

    fn from(failed: OpenFault) -> Self {
        match failed {
            OpenFault::NoMemory => RootFault::NoMemory,
            OpenFault::Failed => RootFault::DiskFault,
        }
    }
}
