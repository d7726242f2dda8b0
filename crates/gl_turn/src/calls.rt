// The calls of the lock.
ghost use Rattle.std.specs.Prelude.{◌≡◌, ℕ, ◌+◌, ◌-◌, ◌%◌, ◌^◌, ◌<◌, ◌≤◌, [], ◌∷◌, None, Some, IfOk, IfErr, OnErr, IfSome, length};
ghost use Rattle.gl_turn.specs.declared.refusal.TurnRefusal.TheVariants.{OutOfMemory};
ghost use Rattle.gl_turn.specs.Order.{IsBefore, IsLonger};
ghost use Rattle.gl_turn.specs.Own.{fresh, one_turn_more, grown, added};
ghost use Rattle.gl_turn.specs.Rule.{Ends, IsSeatCount};
ghost use Rattle.gl_turn.specs.Seats.{own_of, seen_by, taken_by, journal_at_new, commits_at_new, IsAlone, IsSeatOf, IsOutside, IsInside};
ghost use Rattle.gl_turn.specs.Steps.{appended_more, committed_more};
ghost use Rattle.gl_turn.specs.Views.{waiting, inside};

use crate::kinds::{
    CountAppends, CountCommits, CountSeatDown, CountSeatUp, Draw, GiveUpSeat, JoinSeat, PassTurn,
    SeeAppends, SeeCommits, SeeSeats, SeeTurn, SplitSeat,
};
use crate::refusal::TurnRefusal;
use crate::rule::Tickets;
use crate::shared::Shared;
use crate::turn::{Seat, Turn};
use crate::view::View;
use atomic_table::{Refused, Table};
use std::alloc::{AllocError, AllocFailed, Global};
use std::snapshot::Snapshot;
use std::sync::Wait;

/// The most seats at a time. With more, two that wait might have one ticket modulo 2^64.
const MOST_SEATS: u64 = 1 << 62;

// The words: how many tickets were drawn, how many turns passed, how many seats there are, and the sums of their appends and commits.
const DRAWN: usize = 0;

const PASSED: usize = 1;

const SEATS: usize = 2;

const APPENDS: usize = 3;

const COMMITS: usize = 4;

// The slot of the value.
const VALUE: usize = 0;

impl<T: Shared + Drop> Turn<T> {
    /// A lock over the value, and its first seat, which has seen the value and done nothing.
    pub fn new(alloc: Global, value: T) -> Result<(Turn<T>, Seat<T>), TurnRefusal<T>>
        ensures began { IfOk result (λ r. (journal_at_new r.0 ≡ length (T.shows value).journal) × (commits_at_new r.0 ≡ (T.shows value).commits)) }
        ensures seat { IfOk result (λ r. IsSeatOf r.0 r.1 × IsOutside r.1 × (seen_by r.1 ≡ T.shows value)) }
        ensures own { IfOk result (λ r. own_of r.1 ≡ fresh (journal_at_new r.0) (commits_at_new r.0)) }
        ensures memory { IfErr result (λ e. e ≡ OutOfMemory value) }
    {
        let about = Snapshot::of(&value);
        let journalled = value.journalled();
        let committed = value.committed();
        let mut slots = Vec::new(alloc);
        if let Err(AllocFailed { value: slot }) = slots.push(Some(value)) {
            let Some(value) = slot else { unreachable!() };
            return Err(TurnRefusal::OutOfMemory(value));
        }
        match Table::<Option<T>, View, Snapshot<T>, Tickets, Global>::new(
            alloc,
            &[0, 0, 1, 0, 0],
            slots,
            &about,
        ) {
            Ok((table, seat)) => {
                let lock = Turn {
                    table,
                    journalled,
                    committed,
                };
                Ok((lock, seat))
            }
            Err(Refused { mut slots }) => {
                let Some(Some(value)) = slots.pop() else {
                    unreachable!()
                };
                Err(TurnRefusal::OutOfMemory(value))
            }
        }
    }

    /// Draws a ticket, waits until it is served, and gives the value, which comes after all that the seat had seen.
    /// It is the one call that may wait, and nothing says that it returns.
    pub fn enter<R: Wait>(&self, rt: &R, seat: &mut Seat<T>) -> T
        requires { IsSeatOf self.now seat.old × IsOutside seat.old }
        ensures seat { IsSeatOf self.now seat.new × IsInside seat.new × (taken_by seat.new ≡ T.shows result) }
        ensures later { IsBefore (seen_by seat.old) (T.shows result) }
        ensures own { own_of seat.new ≡ one_turn_more (own_of seat.old) }
        ensures same { (seen_by seat.new ≡ seen_by seat.old) × (IsAlone seat.old → IsAlone seat.new) }
    {
        let ticket = self.draw(seat);
        for _ in rt.forever() {
            let serving = self.table.shared.load::<SeeTurn>(seat, PASSED);
            if serving == ticket {
                return self.take(seat);
            }
            self.table
                .shared
                .park(rt, PASSED, (serving & 0xffff_ffff) as u32);
        }
        unreachable!()
    }

    /// Gives the value back, and the turn to the next ticket. What `enter` gave is to be a prefix of this value. The seat
    /// has then seen this one, and its own numbers and positions have grown as the value did since.
    pub fn leave(&self, seat: &mut Seat<T>, value: T)
        requires seat { IsSeatOf self.now seat.old × IsInside seat.old }
        requires grown { IsBefore (taken_by seat.old) (T.shows value) }
        ensures seat { IsSeatOf self.now seat.new × IsOutside seat.new }
        ensures seen { seen_by seat.new ≡ T.shows value }
        ensures own { own_of seat.new ≡ grown (own_of seat.old) (taken_by seat.old) (T.shows value) }
        ensures same { IsAlone seat.old → IsAlone seat.new }
    {
        let journalled = value.journalled();
        let committed = value.committed();
        let None = self.table.shared.exchange(seat, VALUE, Some(value)) else {
            unreachable!()
        };
        self.count(seat, journalled, committed);
        let passed = self.table.shared.fetch_add::<PassTurn>(seat, PASSED, 1);
        // Who draws a ticket from now on finds it served, so none sleeps where the next one isn't drawn yet.
        if self.table.shared.peek(DRAWN) != passed.wrapping_add(1) {
            self.table.shared.wake_all(PASSED);
        }
    }

    /// A new seat, which has seen the same and has done nothing. It takes no memory: it is refused only where there are
    /// 2^62 seats, and then the old one stands as before.
    pub fn split(&self, seat: &mut Seat<T>) -> Result<Seat<T>, AllocError>
        requires { IsSeatOf self.now seat.old × IsOutside seat.old }
        ensures seat { IsSeatOf self.now seat.new × IsOutside seat.new }
        ensures same { (own_of seat.new ≡ own_of seat.old) × (seen_by seat.new ≡ seen_by seat.old) }
        ensures new { IfOk result (λ s. IsSeatOf self.now s × IsOutside s × (seen_by s ≡ seen_by seat.old) × (own_of s ≡ fresh (journal_at_new self.now) (commits_at_new self.now))) }
        ensures full { OnErr result ((n : ℕ) × (2 ^ 62 ≤ n) × IsSeatCount T.shows (journal_at_new self.now) (commits_at_new self.now) seat.old.me.0 n) }
        ensures refused { OnErr result (IsAlone seat.old → IsAlone seat.new) }
    {
        let seats = self.table.shared.fetch_add::<CountSeatUp>(seat, SEATS, 1);
        if seats < MOST_SEATS {
            Ok(self.table.shared.split_seat::<SplitSeat>(seat))
        } else {
            self.table.shared.fetch_sub::<GiveUpSeat>(seat, SEATS, 1);
            Err(AllocError)
        }
    }

    /// Takes another seat in, with what it did and with the longer of what both had seen.
    pub fn join(&self, seat: &mut Seat<T>, other: Seat<T>)
        requires own { IsSeatOf self.now seat.old × IsOutside seat.old }
        requires other { IsSeatOf self.now other × IsOutside other }
        ensures seat { IsSeatOf self.now seat.new × IsOutside seat.new }
        ensures own { own_of seat.new ≡ added (own_of seat.old) (own_of other) }
        ensures seen { IsLonger (seen_by seat.old) (seen_by other) (seen_by seat.new) }
    {
        self.table.shared.join_seat::<JoinSeat>(seat, other);
        self.table.shared.fetch_sub::<CountSeatDown>(seat, SEATS, 1);
    }

    /// The number of seats that weren't joined away, at some moment of this call. A seat in the middle of its `split` or
    /// its `join` is counted once more. Where it is 1 this seat is alone, and stays so until it splits one off.
    pub fn seats(&self, seat: &mut Seat<T>) -> u64
        requires { IsSeatOf self.now seat.old × IsOutside seat.old }
        ensures seat { IsSeatOf self.now seat.new × IsOutside seat.new }
        ensures same { (own_of seat.new ≡ own_of seat.old) × (seen_by seat.new ≡ seen_by seat.old) }
        ensures count { IsSeatCount T.shows (journal_at_new self.now) (commits_at_new self.now) seat.new.me.0 result }
        ensures alone { (result ≡ 1 → IsAlone seat.new) × (IsAlone seat.old → IsAlone seat.new) }
    {
        self.table.shared.load::<SeeSeats>(seat, SEATS)
    }

    /// The value that was last given back. There is none exactly where another seat holds the turn: the value is then
    /// with that seat. It comes after all that this seat has seen, and has at least what this seat appended and
    /// committed, and just that where this seat is alone.
    pub fn close(self, seat: Seat<T>) -> Option<T>
        requires { IsSeatOf self seat × IsOutside seat }
        ensures exactly { Ends T.shows (journal_at_new self) (commits_at_new self) seat.id seat.me.0 result }
        ensures later { IfSome result (λ x. IsBefore (seen_by seat) (T.shows x)) }
        ensures least { IfSome result (λ x. (journal_at_new self + (own_of seat).appends ≤ length (T.shows x).journal) × (commits_at_new self + (own_of seat).commits ≤ (T.shows x).commits)) }
        ensures alone { IfSome result (λ x. IsAlone seat → (journal_at_new self + (own_of seat).appends ≡ length (T.shows x).journal) × (commits_at_new self + (own_of seat).commits ≡ (T.shows x).commits)) }
    {
        let Turn {
            table,
            journalled: _,
            committed: _,
        } = self;
        let mut closed = table.close_with(seat);
        let drawn = closed.word(DRAWN);
        let passed = closed.word(PASSED);
        let value = closed.take(VALUE);
        closed.free();
        if drawn == passed {
            value
        } else {
            drop(value);
            None
        }
    }

    // Draws the next ticket.
    fn draw(&self, seat: &mut Seat<T>) -> u64
        requires { IsSeatOf self.now seat.old × IsOutside seat.old }
        ensures table { seat.new.table_id ≡ seat.old.table_id }
        ensures drawn { seat.new.me ≡ (waiting (one_turn_more (own_of seat.old)) seat.old.me.0.alone (seen_by seat.old) seat.new.me.0.ticket, []) }
        ensures ticket { result ≡ seat.new.me.0.ticket % 2 ^ 64 }
    {
        self.table.shared.fetch_add::<Draw>(seat, DRAWN, 1)
    }

    // Moves the value out, once the turn has come.
    fn take(&self, seat: &mut Seat<T>) -> T
        requires { (seat.old.table_id ≡ self.now.table.shared.table_id) × ((x : T) × (seat.old.me.1 ≡ (0, Some x) ∷ [])) }
        ensures table { seat.new.table_id ≡ seat.old.table_id }
        ensures value { (seat.old.me.1 ≡ (0, Some result) ∷ []) × (seat.new.me ≡ (seat.old.me.0, (0, None) ∷ [])) }
    {
        match self.table.shared.exchange(seat, VALUE, None) {
            Some(value) => value,
            None => unreachable!(),
        }
    }

    // Counts the appends and the commits of this turn: by how much the value is ahead of the first one and of what all seats counted.
    fn count(&self, seat: &mut Seat<T>, journalled: u64, committed: u64)
        requires seat { IsSeatOf self.now seat.old × (seat.old.me ≡ (inside (own_of seat.old) seat.old.me.0.alone (seen_by seat.old) seat.old.me.0.ticket (taken_by seat.old) 0 0, seat.old.me.1)) }
        requires grown { (length (taken_by seat.old).journal ≤ journalled) × ((taken_by seat.old).commits ≤ committed) }
        ensures table { seat.new.table_id ≡ seat.old.table_id }
        ensures counted { seat.new.me ≡ (inside (committed_more (appended_more (own_of seat.old) (length (taken_by seat.old).journal) (journalled - length (taken_by seat.old).journal)) (committed - (taken_by seat.old).commits)) seat.old.me.0.alone (seen_by seat.old) seat.old.me.0.ticket (taken_by seat.old) (journalled - length (taken_by seat.old).journal) (committed - (taken_by seat.old).commits), seat.old.me.1) }
    {
        let shared = &self.table.shared;
        let appends = shared.load::<SeeAppends>(seat, APPENDS);
        let commits = shared.load::<SeeCommits>(seat, COMMITS);
        shared.fetch_add::<CountAppends>(seat, APPENDS, journalled - self.journalled - appends);
        shared.fetch_add::<CountCommits>(seat, COMMITS, committed - self.committed - commits);
    }
}
