// What threads use in turns.
ghost use Rattle.std.specs.Prelude.{◌≡◌, length};
ghost use Rattle.gl_turn.specs.declared.seen.Seen.{Seen};

use crate::seen::Seen;

/// A value for a `Turn`. It shows a journal and some counts, and the lock keeps account of how they grow.
pub trait Shared {
    /// What a seat sees of it.
    ghost shows: { Self → Seen };

    /// The number of entries.
    fn journalled(&self) -> u64
        ensures { result ≡ length (shows self.now).journal };

    /// How many of their positions are committed.
    fn committed(&self) -> u64
        ensures { result ≡ (shows self.now).commits };

    /// How many lawful chunks were answered.
    fn chunks(&self) -> u64
        ensures { result ≡ (shows self.now).chunks };

    /// How many tries of a processor there were.
    fn tries(&self) -> u64
        ensures { result ≡ (shows self.now).tries };
}
