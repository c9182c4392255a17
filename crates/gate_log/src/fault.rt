use std::alloc::{AllocError, AllocFailed};
use thiserror::Error;

/// Why a log isn't read.
#[derive(Clone, Copy, Debug, PartialEq, Eq, Error)]
pub enum LogFault {
    #[error("out of memory")]
    NoMemory,
    #[error("a device failed")]
    DiskFault,
    /// The bytes aren't a log: at this gate, or at 0 where none is there.
    #[error("{kind} at {place}")]
    BadLog { place: u64, kind: LogKind },
}

/// What is wrong with a log.
#[derive(Clone, Copy, Debug, PartialEq, Eq, Error)]
pub enum LogKind {
    /// There is no such file.
    #[error("log missing")]
    Missing,
    /// No gate stands there, or the record behind it or the gate behind that isn't whole.
    #[error("record length")]
    Length,
    /// The number of the record behind it isn't one above the one before, or is above 2^63 - 1.
    #[error("record number")]
    Number,
}

impl From<AllocError> for LogFault {
    ghost use Rattle.std.specs.Prelude.{◌≡◌};
    ghost use Rattle.gate_log.specs.declared.fault.LogFault.TheVariants.{NoMemory};

    ghost from_gives = { λ _ fault. fault ≡ NoMemory };

    fn from(_: AllocError) -> Self {
        LogFault::NoMemory
    }
}

impl<T: Drop> From<AllocFailed<T>> for LogFault {
    ghost use Rattle.std.specs.Prelude.{◌≡◌};
    ghost use Rattle.gate_log.specs.declared.fault.LogFault.TheVariants.{NoMemory};

    ghost from_gives = { λ _ fault. fault ≡ NoMemory };

    fn from(_: AllocFailed<T>) -> Self {
        LogFault::NoMemory
    }
}
