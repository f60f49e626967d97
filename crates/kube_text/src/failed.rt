//! Failed reads and writes.

ghost use Rattle.std.specs.Prelude.{◌≡◌};
ghost use Rattle.kube_text.specs.declared.failed.Unwritten.TheVariants.{Fault, NoMemory};

use std::alloc::{AllocError, AllocFailed};

/// A read or a write failed.
#[derive(Clone, Copy, Debug, PartialEq, Eq)]
pub struct Failed;

/// Why a line was not written whole.
#[derive(Clone, Copy, Debug, PartialEq, Eq)]
pub enum Unwritten {
    /// A write failed.
    Fault,
    /// Memory could not be had.
    NoMemory,
}

impl From<Failed> for Unwritten {
    ghost from_gives = { λ _ e. e ≡ Fault };

    fn from(_failed: Failed) -> Unwritten {
        Unwritten::Fault
    }
}

impl From<AllocError> for Unwritten {
    ghost from_gives = { λ _ e. e ≡ NoMemory };

    fn from(_error: AllocError) -> Unwritten {
        Unwritten::NoMemory
    }
}

impl<T: Drop> From<AllocFailed<T>> for Unwritten {
    ghost from_gives = { λ _ e. e ≡ NoMemory };

    fn from(_failed: AllocFailed<T>) -> Unwritten {
        Unwritten::NoMemory
    }
}
