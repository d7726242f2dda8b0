// Who holds which positions, and how far they are committed.
ghost use Rattle.std.specs.Prelude.{◌<◌};

use gl_pool::{Mark, Pool, PoolAnswer};
use std::alloc::AllocError;
use std::test::Fail;

// Gives a worker that holds nothing the next free positions, at most `limit` of them.
fn claim_next(
    pool: &mut Pool,
    worker: u32,
    limit: u64,
    journal: u64,
) -> Result<Option<Mark>, AllocError>
    requires worker { worker < 64 }
    requires some { 0 < limit }
{
    if let Some(_) = pool.held(worker) {
        return Ok(None);
    }
    let Some(run) = pool.free(journal) else {
        return Ok(None);
    };
    let mark = Mark {
        first: run.first,
        count: run.count.min(limit),
    };
    pool.claim(worker, mark)?;
    Ok(Some(mark))
}

// A first position and a count.
type Run = Option<(u64, u64)>;

// A call of a pool, and its answer.
#[derive(Clone, Copy)]
enum Call {
    // A worker claims so many positions of a journal at most.
    Claim(u32, u64, u64, Run),
    Held(u32, Run),
    Free(u64, Run),
    Abandon(u32, Run),
    Finish(u32, PoolAnswer),
    // What is committed.
    Next(u64),
}

fn is_run(found: Option<Mark>, wanted: Run) -> bool {
    match (found, wanted) {
        (Some(mark), Some(run)) => mark.first == run.0 && mark.count == run.1,
        (None, None) => true,
        (Some(_), None) => false,
        (None, Some(_)) => false,
    }
}

fn is_answered(pool: &mut Pool, call: Call) -> Result<bool, AllocError> {
    Ok(match call {
        Call::Claim(worker, limit, journal, run) => {
            if worker >= 64 || limit == 0 {
                return Ok(false);
            }
            is_run(claim_next(pool, worker, limit, journal)?, run)
        }
        Call::Held(worker, run) => is_run(pool.held(worker), run),
        Call::Free(journal, run) => is_run(pool.free(journal), run),
        Call::Abandon(worker, run) => is_run(pool.abandon(worker), run),
        Call::Finish(worker, answer) => pool.finish(worker) == answer,
        Call::Next(count) => pool.next_commit() == count,
    })
}

fn are_answered(pool: &mut Pool, calls: &[Call]) -> Result<bool, AllocError> {
    for call in calls {
        if !is_answered(pool, *call)? {
            return Ok(false);
        }
    }
    Ok(true)
}

const IN_ANY_ORDER: [Call; 12] = [
    Call::Claim(1, 2, 6, Some((0, 2))),
    Call::Held(1, Some((0, 2))),
    Call::Claim(2, 2, 6, Some((2, 2))),
    Call::Claim(3, 2, 6, Some((4, 2))),
    Call::Finish(3, PoolAnswer::Kept(0)),
    Call::Abandon(2, Some((2, 2))),
    Call::Finish(2, PoolAnswer::NoClaim),
    Call::Finish(1, PoolAnswer::Committed(2)),
    Call::Next(2),
    Call::Claim(2, 9, 6, Some((2, 2))),
    Call::Finish(2, PoolAnswer::Committed(6)),
    Call::Claim(2, 9, 6, None),
];

// Six positions and three workers; a range that was given up is claimed again, and commits once.
#[test]
fn ranges_come_in_in_any_order(rt: HostRuntime) -> Result<(), Fail> {
    let mut pool = Pool::new(rt.alloc(), 0);
    assert!(rt; are_answered(&mut pool, &IN_ANY_ORDER)?);
    Ok(())
}

const GIVEN_UP: [Call; 10] = [
    Call::Free(10, None),
    Call::Claim(0, 3, 20, Some((10, 3))),
    Call::Claim(1, 3, 20, Some((13, 3))),
    Call::Abandon(1, Some((13, 3))),
    Call::Abandon(0, Some((10, 3))),
    Call::Free(12, Some((10, 2))),
    Call::Free(20, Some((10, 10))),
    Call::Claim(2, 4, 20, Some((10, 4))),
    Call::Free(20, Some((14, 6))),
    Call::Finish(2, PoolAnswer::Committed(14)),
];

// What two workers gave up is one run with what was never claimed.
#[test]
fn a_run_goes_on_over_what_was_given_up(rt: HostRuntime) -> Result<(), Fail> {
    let mut pool = Pool::new(rt.alloc(), 10);
    assert!(rt; are_answered(&mut pool, &GIVEN_UP)?);
    Ok(())
}

const AT_THE_END: [Call; 3] = [
    Call::Claim(63, 256, u64::MAX, Some((u64::MAX - 2, 2))),
    Call::Free(u64::MAX, None),
    Call::Finish(63, PoolAnswer::Committed(u64::MAX)),
];

// The last position that a number can name has none behind it.
#[test]
fn positions_end_with_their_type(rt: HostRuntime) -> Result<(), Fail> {
    let mut pool = Pool::new(rt.alloc(), u64::MAX - 2);
    assert!(rt; are_answered(&mut pool, &AT_THE_END)?);
    Ok(())
}

#[test]
fn sixty_four_workers_finish_from_the_last(rt: HostRuntime) -> Result<(), Fail> {
    let mut pool = Pool::new(rt.alloc(), 0);
    for worker in 0..64u32 {
        let claim = Call::Claim(worker, 1, 64, Some((u64::from(worker), 1)));
        assert!(rt; is_answered(&mut pool, claim)?);
    }
    for worker in (1..64u32).rev() {
        assert!(rt; is_answered(&mut pool, Call::Finish(worker, PoolAnswer::Kept(0)))?);
    }
    assert!(rt; is_answered(&mut pool, Call::Finish(0, PoolAnswer::Committed(64)))?);
    Ok(())
}
