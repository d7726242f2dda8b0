// The kinds of steps on the words, each with what it tells. The value itself moves by an exchange of the slot.
ghost use Rattle.gl_turn.specs.Own.{fresh, added};
ghost use Rattle.gl_turn.specs.Steps.{drew, saw, passed_on, counted, gave_up, merged, saw_seats, saw_appends, saw_commits, counted_appends, counted_commits};
ghost use Rattle.gl_turn.specs.Views.{outside, double, spent};

use crate::shared::Shared;
use crate::view::View;
use atomic_table::{Join, Play, Split};

/// The next ticket is drawn.
pub struct Draw;

impl<T> Play<Option<T>, View> for Draw {
    ghost then = { drew };
}

/// The serving number is looked at; where it is the seat's ticket, the value is the seat's to take.
pub struct SeeTurn;

impl<T: Shared> Play<Option<T>, View> for SeeTurn {
    ghost then = { saw T.shows };
}

/// The value that was given back is at home, and the next ticket is served.
pub struct PassTurn;

impl<T: Shared> Play<Option<T>, View> for PassTurn {
    ghost then = { passed_on T.shows };
}

/// The sums of all appends and of all commits are looked at, by the seat that holds the turn.
pub struct SeeAppends;

impl<T> Play<Option<T>, View> for SeeAppends {
    ghost then = { saw_appends };
}

pub struct SeeCommits;

impl<T> Play<Option<T>, View> for SeeCommits {
    ghost then = { saw_commits };
}

/// What the journal and the commits gained in this turn is added to them.
pub struct CountAppends;

impl<T> Play<Option<T>, View> for CountAppends {
    ghost then = { counted_appends };
}

pub struct CountCommits;

impl<T> Play<Option<T>, View> for CountCommits {
    ghost then = { counted_commits };
}

/// A seat is counted before it is split off.
pub struct CountSeatUp;

impl<T: Shared> Play<Option<T>, View> for CountSeatUp {
    ghost then = { counted T.shows };
}

/// A seat is counted back after its split was refused.
pub struct GiveUpSeat;

impl<T> Play<Option<T>, View> for GiveUpSeat {
    ghost then = { gave_up };
}

/// A seat is counted back after it was joined away.
pub struct CountSeatDown;

impl<T> Play<Option<T>, View> for CountSeatDown {
    ghost then = { merged };
}

/// The count of seats is looked at.
pub struct SeeSeats;

impl<T: Shared> Play<Option<T>, View> for SeeSeats {
    ghost then = { saw_seats T.shows };
}

/// A new seat has seen what the old one had, and has done nothing.
pub struct SplitSeat;

impl Split<View> for SplitSeat {
    ghost left = { λ v. outside v.own 0 v.seen };

    ghost right = { λ v. outside (fresh v.own.journalled v.own.committed) 0 v.seen };
}

/// One seat takes over what another did, and what it had seen.
pub struct JoinSeat;

impl Join<View> for JoinSeat {
    ghost both = { λ v w. double (added v.own w.own) v.seen w.seen };

    ghost spent = { spent };
}
