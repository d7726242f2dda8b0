// What time it is.
ghost use Rattle.std.specs.Prelude.{◌≡◌, ℕ, Option, Some};
ghost use Rattle.gl_outside.specs.Clocks.{Moments, Ticks, Gave};

use std::marker::Model;

/// A clock. It may tell which moments it has left, and the last one that it gave.
pub trait Clock {
    ghost use Rattle.std.specs.Prelude.{Option};
    ghost use Rattle.gl_outside.specs.Clocks.{Moments};

    /// What is left and what was last, where it tells that.
    ghost moments: { Self → Option Moments };

    /// The present moment, in milliseconds since 1970: the next of those that are left, and else the last one again.
    fn now_ms(&mut self) -> u64
        ensures { Ticks (moments self.old) (moments self.new) result };
}

/// A clock that gives these moments, and then the last of them again and again.
#[derive(Drop)]
pub struct ListClock<'a> {
    left: &'a [u64],
    last: u64,
}

impl<'a> Model for ListClock<'a> {
    ghost use Rattle.gl_outside.specs.Clocks.{Moments};

    ghost Value = { Moments };

    ghost view = { λ c. record { left = c.left.now; last = c.last } };
}

impl<'a> ListClock<'a> {
    /// A clock that has these moments to give. Where there are none it gives 0.
    pub fn new(moments: &'a [u64]) -> ListClock<'a>
        ensures { result ≡ record { left = moments.now; last = 0 } }
    {
        ListClock {
            left: moments,
            last: 0,
        }
    }
}

impl<'a> Clock for ListClock<'a> {
    ghost moments = { λ c. Some c };

    fn now_ms(&mut self) -> u64 {
        if let Some((moment, later)) = self.left.split_first() {
            self.last = *moment;
            self.left = later;
        }
        self.last
    }
}

/// What a call of a clock answers is one of the moments that it gave meanwhile; and what it gave in a part of a while, it
/// gave in the whole.
pub fn law_given_moments()
    ensures one { (before after : Option Moments) (moment : ℕ) → Ticks before after moment → Gave before after moment }
    ensures earlier { (before middle after : Option Moments) (moment later : ℕ) → Gave before middle moment → Ticks middle after later → Gave before after moment }
    ensures later { (before middle after : Option Moments) (earlier moment : ℕ) → Ticks before middle earlier → Gave middle after moment → Gave before after moment }
{}
