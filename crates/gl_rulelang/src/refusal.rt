ghost use Rattle.std.specs.Prelude.{◌≡◌};
ghost use Rattle.gl_rulelang.specs.declared.refusal.TextRefusal.TheVariants.{OutOfMemory};

use std::alloc::{AllocError, AllocFailed};

/// Why a text is no rule, or no pipeline. Places are in bytes.
#[derive(Clone, Copy, Debug, PartialEq, Eq)]
pub enum TextRefusal {
    /// Here the first token or comment begins that doesn't read.
    BadToken { at: u64 },
    /// Here the first token begins that can't follow those before it, or here the text ends too early.
    Unexpected { at: u64 },
    /// A 65th parenthesis is open, or an expression stands inside 64 others, before the place of any `Unexpected`.
    TooDeep,
    OutOfMemory,
}

impl From<AllocError> for TextRefusal {
    ghost from_gives = { λ _ e. e ≡ OutOfMemory };

    fn from(_: AllocError) -> TextRefusal {
        TextRefusal::OutOfMemory
    }
}

impl<T: Drop> From<AllocFailed<T>> for TextRefusal {
    ghost from_gives = { λ _ e. e ≡ OutOfMemory };

    fn from(_: AllocFailed<T>) -> TextRefusal {
        TextRefusal::OutOfMemory
    }
}
