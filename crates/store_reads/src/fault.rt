//! Why the files of an index aren't read, or its store isn't opened.

use srch_base::NoMemory;
use store_steps::Damage;
use thiserror::Error;

/// Why a store isn't opened.
#[derive(Clone, Copy, Debug, PartialEq, Eq, Error)]
pub enum StoreFault {
    #[error("out of memory")]
    NoMemory,
    #[error("a device failed")]
    DiskFault,
    #[error("{0}")]
    Damaged(Damage),
}

impl From<NoMemory> for StoreFault {
    ghost use Rattle.std.specs.Prelude.{◌≡◌};
    ghost use Rattle.store_reads.specs.declared.fault.StoreFault.TheVariants.{NoMemory};

    ghost from_gives = { λ _ fault. fault ≡ NoMemory };

    fn from(_: NoMemory) -> Self {
        StoreFault::NoMemory
    }
}
