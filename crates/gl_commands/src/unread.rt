ghost use Rattle.std.specs.Prelude.{◌≡◌};
ghost use Rattle.gl_commands.specs.declared.unread.Unread.TheVariants.{OutOfMemory};

use std::alloc::{AllocError, AllocFailed};

/// Why a value isn't read.
#[derive(Clone, Copy)]
pub enum Unread {
    /// It has another form.
    Other,
    OutOfMemory,
}

impl From<AllocError> for Unread {
    ghost from_gives = { λ _ e. e ≡ OutOfMemory };

    fn from(_: AllocError) -> Self {
        Unread::OutOfMemory
    }
}

impl<T: Drop> From<AllocFailed<T>> for Unread {
    ghost from_gives = { λ _ e. e ≡ OutOfMemory };

    fn from(_: AllocFailed<T>) -> Self {
        Unread::OutOfMemory
    }
}
