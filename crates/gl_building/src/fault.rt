ghost use Rattle.std.specs.Prelude.{◌≡◌};
ghost use Rattle.gl_building.specs.declared.fault.StageFault.TheVariants.{OutOfMemory};

use std::alloc::{AllocError, AllocFailed};

/// Why a configuration isn't compiled.
#[derive(Clone, Copy, Debug, PartialEq, Eq)]
pub enum StageFault {
    /// The shop refused a pattern, and tells which.
    PatternFault,
    OutOfMemory,
}

impl From<AllocError> for StageFault {
    ghost from_gives = { λ _ e. e ≡ OutOfMemory };

    fn from(_: AllocError) -> Self {
        StageFault::OutOfMemory
    }
}

impl<T: Drop> From<AllocFailed<T>> for StageFault {
    ghost from_gives = { λ _ e. e ≡ OutOfMemory };

    fn from(_: AllocFailed<T>) -> Self {
        StageFault::OutOfMemory
    }
}
