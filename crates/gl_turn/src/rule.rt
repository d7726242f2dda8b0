// The rule of the table under the lock.
use crate::shared::Shared;
use crate::view::View;
use atomic_table::TableRule;
use std::snapshot::Snapshot;

/// Turns by tickets. The key is the first value, as it was.
pub struct Tickets;

impl<T: Shared> TableRule<Option<T>, View, Snapshot<T>> for Tickets {
    ghost use Rattle.std.specs.Prelude.{length};
    ghost use Rattle.gl_turn.specs.Own.{fresh};
    ghost use Rattle.gl_turn.specs.Rule.{IsKept};
    ghost use Rattle.gl_turn.specs.Views.{outside};

    ghost holds = { λ k. IsKept T.shows (length (T.shows k.value).journal) (T.shows k.value).commits };

    ghost first = { λ k. outside (fresh (length (T.shows k.value).journal) (T.shows k.value).commits) 0 (T.shows k.value) };
}
