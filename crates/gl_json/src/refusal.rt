ghost use Rattle.std.specs.Prelude.{◌≡◌};
ghost use Rattle.gl_json.specs.declared.refusal.Halt.TheVariants.{OutOfMemory, At};

use crate::bytes::Stop;
use std::alloc::{AllocError, AllocFailed};

/// Why a text isn't read.
#[derive(Clone, Copy, Debug, PartialEq, Eq)]
pub enum JsonRefusal {
    /// The place, in bytes from 0, of the first byte that no case of the grammar takes behind the
    /// bytes before it; the text's length where it ends too early.
    NotJson { at: u64 },
    /// A 65th level opens before the first such byte.
    TooDeep,
    OutOfMemory,
}

/// Why a part of a text isn't read, or isn't kept.
#[derive(Clone, Copy, Debug, PartialEq, Eq)]
pub enum Halt {
    At(Stop),
    OutOfMemory,
}

impl From<Stop> for Halt {
    ghost from_gives = { λ stop h. h ≡ At stop };

    fn from(stop: Stop) -> Self {
        Halt::At(stop)
    }
}

impl From<AllocError> for Halt {
    ghost from_gives = { λ _ h. h ≡ OutOfMemory };

    fn from(_: AllocError) -> Self {
        Halt::OutOfMemory
    }
}

impl<T: Drop> From<AllocFailed<T>> for Halt {
    ghost from_gives = { λ _ h. h ≡ OutOfMemory };

    fn from(_: AllocFailed<T>) -> Self {
        Halt::OutOfMemory
    }
}
