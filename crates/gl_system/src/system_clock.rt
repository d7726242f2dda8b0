// The system's clock.
ghost use Rattle.std.specs.Prelude.{◌≡◌, ◌⊎◌, None};
ghost use Rattle.gl_outside.specs.Clocks.{Ticks};
ghost use Rattle.gl_outside.specs.Listed.{one_more};

use gl_outside::{Clock, count_one};
use std::time;
use std::time::{SystemTime, UNIX_EPOCH};

/// The system's clock, which tells nothing. Where it can't be read it gives the last moment again, and counts that.
#[derive(Drop)]
pub struct SystemClock<R: time::Clock> {
    rt: R,
    last: u64,
    faults: u64,
}

impl<R: time::Clock> SystemClock<R> {
    /// A clock that could always be read so far.
    pub fn new(rt: R) -> SystemClock<R>
        ensures { (result.faults ≡ 0) × (result.last ≡ 0) }
    {
        SystemClock {
            rt,
            last: 0,
            faults: 0,
        }
    }

    /// How often it couldn't be read; it stays at 2^64 - 1.
    pub fn faults(&self) -> u64
        ensures { result ≡ self.now.faults }
    {
        self.faults
    }
}

impl<R: time::Clock> Clock for SystemClock<R> {
    ghost moments = { λ _. None };

    fn now_ms(&mut self) -> u64
        ensures time { Ticks None None result }
        ensures last { result ≡ self.new.last }
        ensures count { (self.new.faults ≡ self.old.faults) ⊎ ((self.new.faults ≡ one_more self.old.faults) × (result ≡ self.old.last)) }
    {
        match read_ms(&self.rt) {
            Some(now) => self.last = now,
            None => count_one(&mut self.faults),
        }
        self.last
    }
}

// The milliseconds since 1970; none where the clock can't be read, or stands before that.
fn read_ms<R: time::Clock>(rt: &R) -> Option<u64> {
    let now = SystemTime::now(rt).ok()?;
    let since = now.duration_since(UNIX_EPOCH).ok()?;
    u64::try_from(since.as_millis()).ok()
}
