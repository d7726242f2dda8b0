// Seats find what others added, whichever comes first.
ghost use Rattle.std.specs.Prelude.{◌<◌, ◌≤◌, length, All};
ghost use Rattle.gl_turn.specs.Order.{BeginsWith};
ghost use Rattle.gl_turn.specs.Seats.{IsSeatOf, IsOutside};

use gl_turn::{Seat, Shared, Turn};
use std::alloc::Global;
use std::sync::Wait;
use std::test::*;
use std::thread;
use std::thread::Threads;

// A list of bytes, each an entry of its own, and a commit count.
#[derive(Debug, Drop)]
struct Pad {
    items: Vec<u8>,
    committed: u64,
}

impl Shared for Pad {
    ghost use Rattle.gl_parts_tests.specs.Pads.{pad_seen};

    ghost shows = { λ p. pad_seen p.items.items p.committed };

    fn journalled(&self) -> u64 {
        self.items.len() as u64
    }

    fn committed(&self) -> u64 {
        self.committed
    }

    fn chunks(&self) -> u64 {
        0
    }

    fn tries(&self) -> u64 {
        0
    }
}

impl Pad {
    fn new(alloc: Global) -> Pad {
        Pad {
            items: Vec::new(alloc),
            committed: 0,
        }
    }

    // Adds an item and commits up to it, and says whether it did.
    fn add(&mut self, item: u8) -> bool
        ensures items { BeginsWith self.new.items.items self.old.items.items }
        ensures commits { self.old.committed ≤ self.new.committed }
    {
        let added = self.items.push(item).is_ok();
        self.committed = self.committed.max(self.items.len() as u64);
        added
    }

    fn count(&self, item: u8) -> usize {
        self.items.iter().filter(|&&x| x == item).count()
    }
}

// Enters, adds one item and leaves. It answers how many were found.
fn add_one<R: Wait>(rt: &R, lock: &Turn<Pad>, seat: &mut Seat<Pad>, item: u8) -> usize
    requires { IsSeatOf lock.now seat.old × IsOutside seat.old }
    ensures { IsSeatOf lock.now seat.new × IsOutside seat.new }
{
    let mut pad = lock.enter(rt, seat);
    let found = pad.items.len();
    pad.add(item);
    lock.leave(seat, pad);
    found
}

fn add_many<R: Wait>(
    rt: &R,
    lock: &Turn<Pad>,
    mut seat: Seat<Pad>,
    item: u8,
    times: u32,
) -> Seat<Pad>
    requires { IsSeatOf lock.now seat × IsOutside seat }
    ensures { IsSeatOf lock.now result × IsOutside result }
{
    for _ in 0..times {
        add_one(rt, lock, &mut seat, item);
    }
    seat
}

#[test]
fn the_second_seat_finds_what_the_first_added(rt: HostRuntime) -> Result<(), Fail> {
    let (lock, mut first) = Turn::new(rt.alloc(), Pad::new(rt.alloc()))?;
    let mut second = lock.split(&mut first)?;
    let seats = lock.seats(&mut first);
    let found = add_one(&rt, &lock, &mut first, 1);
    let found_next = add_one(&rt, &lock, &mut second, 2);
    lock.join(&mut first, second);
    let seats_left = lock.seats(&mut first);
    let Some(pad) = lock.close(first) else {
        return Err(Fail::new("another seat holds the turn"));
    };
    assert!(rt; found == 0 && found_next == 1 && seats == 2 && seats_left == 1);
    assert!(rt; pad.items.as_slice() == b"\x01\x02".as_slice() && pad.committed == 2);
    Ok(())
}

// Two threads add, each its own item so many times. Then one seat is left, and the lock is closed.
fn added_by_two<R: Threads + Wait + Sync>(
    rt: &R,
    lock: Turn<Pad>,
    first: Seat<Pad>,
    second: Seat<Pad>,
    times: u32,
) -> (u64, Option<Pad>)
    requires first { IsSeatOf lock first × IsOutside first }
    requires second { IsSeatOf lock second × IsOutside second }
{
    let shared = &lock;
    let (mut first, second) = thread::join(
        rt,
        move || -> Seat<Pad>
            requires { IsSeatOf shared.now first × IsOutside first }
            ensures { IsSeatOf shared.entry.now result × IsOutside result }
        { add_many(rt, shared, first, 1, times) },
        move || -> Seat<Pad>
            requires { IsSeatOf shared.now second × IsOutside second }
            ensures { IsSeatOf shared.entry.now result × IsOutside result }
        { add_many(rt, shared, second, 2, times) },
    );
    lock.join(&mut first, second);
    let seats = lock.seats(&mut first);
    (seats, lock.close(first))
}

#[test]
fn two_threads_lose_nothing(rt: HostRuntime) -> Result<(), Fail> {
    let (lock, mut first) = Turn::new(rt.alloc(), Pad::new(rt.alloc()))?;
    let second = lock.split(&mut first)?;
    let (seats, pad) = added_by_two(&rt, lock, first, second, 500);
    let Some(pad) = pad else {
        return Err(Fail::new("another seat holds the turn"));
    };
    assert!(rt; seats == 1 && pad.items.len() == 1000 && pad.committed == 1000);
    assert!(rt; pad.count(1) == 500 && pad.count(2) == 500);
    Ok(())
}

// One thread's work, with a seat of its own.
#[derive(Drop)]
struct Loop {
    item: u8,
    seat: Seat<Pad>,
}

fn run_loop<R: Wait>(rt: &R, lock: &Turn<Pad>, work: &mut Loop)
    requires { IsSeatOf lock.now work.old.seat × IsOutside work.old.seat }
    ensures { IsSeatOf lock.now work.new.seat × IsOutside work.new.seat }
{
    for _ in 0..100 {
        add_one(rt, lock, &mut work.seat, work.item);
    }
}

fn run_loops<R: Threads + Wait + Sync>(rt: &R, lock: &Turn<Pad>, loops: &mut [Loop])
    requires some { 0 < length loops.old }
    requires seats { All (λ w. IsSeatOf lock.now w.seat × IsOutside w.seat) loops.old }
    ensures { All (λ w. IsSeatOf lock.now w.seat × IsOutside w.seat) loops.new }
{
    let threads = loops.len();
    thread::for_each_mut(
        rt,
        loops,
        threads,
        &|_, work: &mut Loop|
            requires { IsSeatOf lock.now work.old.seat × IsOutside work.old.seat }
            ensures { IsSeatOf lock.entry.now work.new.seat × IsOutside work.new.seat }
        { run_loop(rt, lock, work) },
    );
}

#[test]
fn a_list_of_loops_loses_nothing(rt: HostRuntime) -> Result<(), Fail> {
    let (lock, mut first) = Turn::new(rt.alloc(), Pad::new(rt.alloc()))?;
    let mut loops = [
        Loop {
            item: 1,
            seat: lock.split(&mut first)?,
        },
        Loop {
            item: 2,
            seat: lock.split(&mut first)?,
        },
        Loop {
            item: 3,
            seat: lock.split(&mut first)?,
        },
    ];
    run_loops(&rt, &lock, &mut loops);
    let seats = lock.seats(&mut first);
    let Some(pad) = lock.close(first) else {
        return Err(Fail::new("another seat holds the turn"));
    };
    assert!(rt; seats == 4 && pad.items.len() == 300);
    assert!(rt; pad.count(1) == 100 && pad.count(2) == 100 && pad.count(3) == 100);
    Ok(())
}

#[test]
fn a_value_that_is_out_is_not_given(rt: HostRuntime) -> Result<(), Fail> {
    let (lock, first) = Turn::new(rt.alloc(), Pad::new(rt.alloc()))?;
    let mut first = first;
    let mut second = lock.split(&mut first)?;
    let mut pad = lock.enter(&rt, &mut second);
    pad.add(1);
    assert!(rt; lock.close(first).is_none() && pad.items.len() == 1);
    Ok(())
}
