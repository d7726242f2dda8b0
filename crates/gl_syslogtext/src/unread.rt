ghost use Rattle.std.specs.Prelude.{◌≡◌};
ghost use Rattle.gl_syslogtext.specs.declared.unread.Unread.TheVariants.{OutOfMemory};

use std::alloc::{AllocError, AllocFailed};

/// Why a text isn't read.
#[derive(Clone, Copy, Debug, PartialEq, Eq)]
pub enum Unread {
    /// It isn't of the grammar.
    Other,
    OutOfMemory,
}

impl From<AllocError> for Unread {
    ghost from_gives = { λ _ e. e ≡ OutOfMemory };

    fn from(_: AllocError) -> Self {
        Unread::OutOfMemory
    }
}

impl<T: Drop> From<AllocFailed<T>> for Unread {
    ghost from_gives = { λ _ e. e ≡ OutOfMemory };

    fn from(_: AllocFailed<T>) -> Self {
        Unread::OutOfMemory
    }
}
