ghost use Rattle.std.specs.Prelude.{◌≡◌};
ghost use Rattle.gl_lookup.specs.declared.refusal.LookupRefusal.TheVariants.{OutOfMemory};

use std::alloc::{AllocError, AllocFailed};

/// Why a text makes no table.
#[derive(Clone, Copy, Debug, PartialEq, Eq)]
pub enum LookupRefusal {
    /// The record of this number, the first being 0, has another number of fields than the first.
    BadCsv { row: u64 },
    /// There is no first record, or it names no column of the key or of the value.
    NoColumn,
    /// More than 10,000 records follow the first.
    TooManyRows,
    OutOfMemory,
}

impl From<AllocError> for LookupRefusal {
    ghost from_gives = { λ _ e. e ≡ OutOfMemory };

    fn from(_: AllocError) -> Self {
        LookupRefusal::OutOfMemory
    }
}

impl<T: Drop> From<AllocFailed<T>> for LookupRefusal {
    ghost from_gives = { λ _ e. e ≡ OutOfMemory };

    fn from(_: AllocFailed<T>) -> Self {
        LookupRefusal::OutOfMemory
    }
}
