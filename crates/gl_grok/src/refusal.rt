ghost use Rattle.std.specs.Prelude.{◌≡◌};
ghost use Rattle.gl_grok.specs.declared.refusal.GrokRefusal.TheVariants.{OutOfMemory};

use gl_base::Text;
use std::alloc::{AllocError, AllocFailed};

/// Why a pattern isn't expanded.
#[derive(Debug, Drop)]
pub enum GrokRefusal {
    /// The first name met that the table hasn't.
    UnknownPattern { name: Text },
    /// The first name met that reaches itself.
    Circular { name: Text },
    /// The expanded text would have more than 8,192 bytes.
    TooLong,
    OutOfMemory,
}

impl From<AllocError> for GrokRefusal {
    ghost from_gives = { λ _ e. e ≡ OutOfMemory };

    fn from(_: AllocError) -> Self {
        GrokRefusal::OutOfMemory
    }
}

impl<T: Drop> From<AllocFailed<T>> for GrokRefusal {
    ghost from_gives = { λ _ e. e ≡ OutOfMemory };

    fn from(_: AllocFailed<T>) -> Self {
        GrokRefusal::OutOfMemory
    }
}
