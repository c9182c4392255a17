//! What can go wrong in any crate: a device failed, or memory was refused. A call answers the narrowest of these types,
//! and `?` widens it: a refused growth of std becomes `NoMemory`, and both become an `OpenFault` or an `Or`, whose other
//! half is a fault that the caller can do something about.
ghost use Rattle.std.specs.Prelude.{◌≡◌};

use std::alloc::{AllocError, AllocFailed};
use std::error::Error;
use std::fmt;

/// A device failed: a link, a door, a disk or the host. Its count of faults has risen.
#[derive(Clone, Copy, Debug, PartialEq, Eq)]
pub struct Failed;

/// Memory was refused. What the call was lent is as before, unless the call says otherwise.
#[derive(Clone, Copy, Debug, PartialEq, Eq)]
pub struct NoMemory;

/// Why something of the host's could not be opened.
#[derive(Clone, Copy, Debug, PartialEq, Eq)]
pub enum OpenFault {
    NoMemory,
    Failed,
}

/// Want of memory, or a fault that has a cause of its own.
#[derive(Clone, Copy, Debug, PartialEq, Eq, Drop)]
pub enum Or<F> {
    NoMemory,
    Fault(F),
}

impl fmt::Display for Failed {
    ghost use Rattle.std.specs.Prelude.{Some};
    ghost use Rattle.srch_base.specs.Faults.{failed_text};

    ghost output = { λ _. Some failed_text };

    fn fmt<W: fmt::Write>(&self, f: &mut fmt::Formatter<W>) -> fmt::Result {
        f.write_str("a device failed")
    }
}

impl fmt::Display for NoMemory {
    ghost use Rattle.std.specs.Prelude.{Some};
    ghost use Rattle.srch_base.specs.Faults.{no_memory_text};

    ghost output = { λ _. Some no_memory_text };

    fn fmt<W: fmt::Write>(&self, f: &mut fmt::Formatter<W>) -> fmt::Result {
        f.write_str("out of memory")
    }
}

impl fmt::Display for OpenFault {
    ghost use Rattle.std.specs.Prelude.{Some};
    ghost use Rattle.srch_base.specs.Faults.{open_fault_text};

    ghost output = { λ fault. Some (open_fault_text fault) };

    fn fmt<W: fmt::Write>(&self, f: &mut fmt::Formatter<W>) -> fmt::Result {
        match self {
            OpenFault::NoMemory => NoMemory.fmt(f),
            OpenFault::Failed => Failed.fmt(f),
        }
    }
}

impl<F: fmt::Display> fmt::Display for Or<F> {
    ghost use Rattle.std.specs.Prelude.{Some};
    ghost use Rattle.srch_base.specs.Faults.{or_text};

    ghost output = { or_text F.output };

    fn fmt<W: fmt::Write>(&self, f: &mut fmt::Formatter<W>) -> fmt::Result {
        match self {
            Or::NoMemory => NoMemory.fmt(f),
            Or::Fault(fault) => fault.fmt(f),
        }
    }
}

impl Error for Failed {}

impl Error for NoMemory {}

impl Error for OpenFault {}

impl<F: Error> Error for Or<F> {}

impl From<AllocError> for NoMemory {
    fn from(_: AllocError) -> Self {
        NoMemory
    }
}

impl<T: Drop> From<AllocFailed<T>> for NoMemory {
    fn from(_: AllocFailed<T>) -> Self {
        NoMemory
    }
}

impl From<NoMemory> for OpenFault {
    ghost use Rattle.srch_base.specs.declared.faults.OpenFault.TheVariants.{NoMemory};

    ghost from_gives = { λ _ fault. fault ≡ NoMemory };

    fn from(_: NoMemory) -> Self {
        OpenFault::NoMemory
    }
}

impl From<AllocError> for OpenFault {
    ghost use Rattle.srch_base.specs.declared.faults.OpenFault.TheVariants.{NoMemory};

    ghost from_gives = { λ _ fault. fault ≡ NoMemory };

    fn from(_: AllocError) -> Self {
        OpenFault::NoMemory
    }
}

impl<T: Drop> From<AllocFailed<T>> for OpenFault {
    ghost use Rattle.srch_base.specs.declared.faults.OpenFault.TheVariants.{NoMemory};

    ghost from_gives = { λ _ fault. fault ≡ NoMemory };

    fn from(_: AllocFailed<T>) -> Self {
        OpenFault::NoMemory
    }
}

impl From<Failed> for OpenFault {
    ghost use Rattle.srch_base.specs.declared.faults.OpenFault.TheVariants.{Failed};

    ghost from_gives = { λ _ fault. fault ≡ Failed };

    fn from(_: Failed) -> Self {
        OpenFault::Failed
    }
}

impl<F> From<NoMemory> for Or<F> {
    ghost use Rattle.srch_base.specs.declared.faults.Or.TheVariants.{NoMemory};

    ghost from_gives = { λ _ fault. fault ≡ NoMemory };

    fn from(_: NoMemory) -> Self {
        Or::NoMemory
    }
}

impl<F> From<AllocError> for Or<F> {
    ghost use Rattle.srch_base.specs.declared.faults.Or.TheVariants.{NoMemory};

    ghost from_gives = { λ _ fault. fault ≡ NoMemory };

    fn from(_: AllocError) -> Self {
        Or::NoMemory
    }
}

impl<F, T: Drop> From<AllocFailed<T>> for Or<F> {
    ghost use Rattle.srch_base.specs.declared.faults.Or.TheVariants.{NoMemory};

    ghost from_gives = { λ _ fault. fault ≡ NoMemory };

    fn from(_: AllocFailed<T>) -> Self {
        Or::NoMemory
    }
}
