// The lock and its seats.
ghost use Rattle.std.specs.Prelude.{◌≡◌};

use crate::rule::Tickets;
use crate::shared::Shared;
use crate::view::View;
use atomic_table::{Seat as TableSeat, Table};
use std::alloc::Global;
use std::snapshot::Snapshot;

/// A lock over a value, which its seats enter in the order of their tickets.
#[derive(Drop)]
pub struct Turn<T: Shared> {
    pub(crate) table: Table<Option<T>, View, Snapshot<T>, Tickets, Global>,
    // How many entries and how many commits the first value had.
    pub(crate) journalled: u64,
    pub(crate) committed: u64,
    ghost sized: { (table.shared.table_id.words ≡ 5) × (table.shared.table_id.slots ≡ 1) },
}

/// The right to enter a lock. It knows what it has seen and what it did, and has no bytes. It may go to another thread
/// where the value may. A seat that is dropped in its turn keeps the others waiting for ever.
pub type Seat<T> = TableSeat<Option<T>, View>;
