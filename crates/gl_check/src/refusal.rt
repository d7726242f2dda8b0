ghost use Rattle.std.specs.Prelude.{◌≡◌};
ghost use Rattle.gl_check.specs.declared.refusal.CheckRefusal.TheVariants.{OutOfMemory};

use std::alloc::{AllocError, AllocFailed};

/// Why a rule isn't lawful. `at` is the number of the faulty node: the nodes are the rule's expressions and calls, those of the
/// condition first and then those of the actions in order, each behind the nodes inside it, from 0. Of several faulty nodes the
/// first is told, and of several faults of one node the first in this order.
#[derive(Clone, Copy, Debug, PartialEq, Eq)]
pub enum CheckRefusal {
    /// No function has this name.
    UnknownFunction { at: u64 },
    /// Arguments are too many, repeated, of a wrong name, left out, or some with a name and some without; a pattern isn't a string
    /// of the rule; or an action stands as an expression, or a function as an action.
    BadArguments { at: u64 },
    /// An operand or argument is of another kind than is asked for, or the condition isn't true or false.
    WrongType { at: u64 },
    /// No `let` before gives this name.
    UnknownVariable { at: u64 },
    OutOfMemory,
}

impl From<AllocError> for CheckRefusal {
    ghost from_gives = { λ _ e. e ≡ OutOfMemory };

    fn from(_: AllocError) -> CheckRefusal {
        CheckRefusal::OutOfMemory
    }
}

impl<T: Drop> From<AllocFailed<T>> for CheckRefusal {
    ghost from_gives = { λ _ e. e ≡ OutOfMemory };

    fn from(_: AllocFailed<T>) -> CheckRefusal {
        CheckRefusal::OutOfMemory
    }
}
