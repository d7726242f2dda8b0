// Where bytes come from, and where they go.
ghost use Rattle.std.specs.Prelude.{◌≡◌, ◌<◌, ◌≤◌, length, IfOk};
ghost use Rattle.std.specs.Io.{ReadsAtMost, WritesAtMost};
ghost use Rattle.std.specs.Io.KnownBytes.{ReadConsumes, WriteAppends};
ghost use Rattle.gl_base.specs.Counts.{HasCause};
ghost use Rattle.gl_outside.specs.declared.fault.Outside.TheVariants.{Failed};

use crate::Outside;

/// Where bytes come from. A source may tell which bytes it has left.
pub trait Source {
    ghost use Rattle.std.specs.Prelude.{List, ℕ, Option};

    /// The bytes that are left, where it tells them.
    ghost left: { Self → Option (List ℕ) };

    /// How often it has failed.
    ghost faults: { Self → ℕ };

    /// Gives the next bytes, and answers how many. On a nonempty buffer 0 means the end of input.
    /// After `Err` what is left is as it was.
    fn read(&mut self, into: &mut [u8]) -> Result<usize, Outside>
        ensures bound { ReadsAtMost result into.new }
        ensures bytes { ReadConsumes (left self.old) (left self.new) result into.new }
        ensures cause { HasCause Failed (faults self.old) (faults self.new) result };

    /// How often it has failed, which never falls; it stays at 2^64 - 1.
    fn faults(&self) -> u64
        ensures { result ≡ faults self.now };
}

/// Where bytes go. A sink may tell which bytes it holds.
pub trait Sink {
    ghost use Rattle.std.specs.Prelude.{List, ℕ, Option};

    /// The bytes that it holds, where it tells them.
    ghost contents: { Self → Option (List ℕ) };

    /// How often it has failed.
    ghost faults: { Self → ℕ };

    /// Appends the first bytes of the piece, at least one where there is one, and answers how many.
    /// After `Err` what it holds is as it was.
    fn write(&mut self, bytes: &[u8]) -> Result<usize, Outside>
        ensures bound { WritesAtMost result bytes.now }
        ensures progress { 0 < length bytes.now → IfOk result (λ count. 0 < count) }
        ensures bytes { WriteAppends (contents self.old) (contents self.new) result bytes.now }
        ensures cause { HasCause Failed (faults self.old) (faults self.new) result };

    /// How often it has failed, which never falls; it stays at 2^64 - 1.
    fn faults(&self) -> u64
        ensures { result ≡ faults self.now };
}
