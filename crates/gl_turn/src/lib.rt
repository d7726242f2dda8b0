//! A value that threads use in turns, and seats that know a beginning of what they will find.
//!
//! A seat enters by a ticket, takes the value out, and leaves with the value that it gives back. What it finds always
//! comes after all that it has seen: the journal that it saw is a front of the journal that it finds, no count has
//! fallen, and a stop has stayed. What seats did themselves adds up: at the end the journal is longer by just what the
//! seats that were joined appended, and their positions name just those entries.
//!
//! The value is any `Shared`, which says what of it a clause sees. `Turn::enter` alone may wait, and no clause says that
//! it returns, who comes first, or that anybody does. `specs/Order` has the order of what was seen, `specs/Own` a seat's
//! own numbers, `specs/Rule` what holds between any two steps, and `specs/Steps` what each kind of step tells.
#![tactic(auto)]

mod calls;
mod kinds;
mod laws;
mod refusal;
mod rule;
mod seen;
mod shared;
mod turn;
mod view;

pub use laws::{law_positions_name_entries, law_seen_is_ordered};
pub use refusal::TurnRefusal;
pub use seen::{Base, Seen};
pub use shared::Shared;
pub use turn::{Seat, Turn};
pub use view::{Own, View};
