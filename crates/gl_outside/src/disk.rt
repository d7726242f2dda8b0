// A disk: a list of areas of bytes.
ghost use Rattle.std.specs.Prelude.{◌≡◌, ◌≢◌, ℕ, ◌+◌, ◌<◌, ◌≤◌, length, take, drop, IfOk, OnOk, OnErr, IsErrOf};
ghost use Rattle.gl_outside.specs.declared.fault.Outside.TheVariants.{Failed, OutOfMemory};
ghost use Rattle.gl_base.specs.Counts.{HasCause};
ghost use Rattle.gl_outside.specs.Faults.{NeedsNoMemory};
ghost use Rattle.gl_outside.specs.Disk.{DiskState, Tells, IsUnchanged, Elapses, Torn, CutTo, InArea, Follows, IsDurable, overwritten};

use crate::Outside;

pub trait Disk {
    /// What it tells of its areas, of what a crash may leave and of its calls.
    ghost state: { Self → DiskState };

    /// How often it has failed.
    ghost faults: { Self → ℕ };

    /// The length of an area.
    fn length(&mut self, area: u32) -> Result<u64, Outside>
        ensures answer { Tells (state self.old) → IfOk result (λ n. n ≡ length ((state self.old).reads area)) }
        ensures unchanged { Tells (state self.old) → IsUnchanged (state self.old) (state self.new) }
        ensures time { Tells (state self.old) → Elapses (state self.old) (state self.new) }
        ensures counted { Tells (state self.old) → OnOk result ((state self.new).calls ≡ (state self.old).calls + 1) }
        ensures tells { (state self.new).tells ≡ (state self.old).tells }
        ensures cause { HasCause Failed (faults self.old) (faults self.new) result };

    /// Fills the buffer with the bytes of an area from a place on.
    fn read(&mut self, area: u32, at: u64, into: &mut [u8]) -> Result<(), Outside>
        requires { Tells (state self.old) → at + length into.old ≤ length ((state self.old).reads area) }
        ensures bytes { Tells (state self.old) → OnOk result (into.new ≡ take (length into.old) (drop at ((state self.old).reads area))) }
        ensures unchanged { Tells (state self.old) → IsUnchanged (state self.old) (state self.new) }
        ensures time { Tells (state self.old) → Elapses (state self.old) (state self.new) }
        ensures counted { Tells (state self.old) → OnOk result ((state self.new).calls ≡ (state self.old).calls + 1) }
        ensures tells { (state self.new).tells ≡ (state self.old).tells }
        ensures cause { HasCause Failed (faults self.old) (faults self.new) result };

    /// Writes over what is there, and past the end. Until a `sync` of the area, a crash may leave any bytes there.
    fn write_at(&mut self, area: u32, at: u64, bytes: &[u8]) -> Result<(), Outside>
        requires { Tells (state self.old) → at ≤ length ((state self.old).reads area) }
        ensures written { Tells (state self.old) → OnOk result ((state self.new).reads area ≡ overwritten at bytes.now ((state self.old).reads area)) }
        // Where it failed it may be done in part.
        ensures in_part { Tells (state self.old) → InArea area (Torn at (length bytes.now)) (state self.old).reads (state self.new).reads }
        ensures crash { Tells (state self.old) → Follows (InArea area (Torn at (length bytes.now))) (state self.old) (state self.new) }
        ensures memory { Tells (state self.old) → IsErrOf result OutOfMemory → length ((state self.old).reads area) < at + length bytes.now }
        ensures memory_unchanged { Tells (state self.old) → IsErrOf result OutOfMemory → IsUnchanged (state self.old) (state self.new) }
        ensures time { Tells (state self.old) → Elapses (state self.old) (state self.new) }
        ensures counted { Tells (state self.old) → OnOk result ((state self.new).calls ≡ (state self.old).calls + 1) }
        ensures tells { (state self.new).tells ≡ (state self.old).tells }
        ensures cause { HasCause Failed (faults self.old) (faults self.new) result };

    /// Cuts an area to a length.
    fn cut(&mut self, area: u32, length: u64) -> Result<(), Outside>
        requires { Tells (state self.old) → length ≤ Rattle.std.specs.Prelude.length ((state self.old).reads area) }
        ensures done { Tells (state self.old) → OnOk result ((state self.new).reads area ≡ take length ((state self.old).reads area)) }
        ensures in_part { Tells (state self.old) → InArea area (CutTo length) (state self.old).reads (state self.new).reads }
        ensures crash { Tells (state self.old) → Follows (InArea area (CutTo length)) (state self.old) (state self.new) }
        ensures memory { NeedsNoMemory result }
        ensures time { Tells (state self.old) → Elapses (state self.old) (state self.new) }
        ensures counted { Tells (state self.old) → OnOk result ((state self.new).calls ≡ (state self.old).calls + 1) }
        ensures tells { (state self.new).tells ≡ (state self.old).tells }
        ensures cause { HasCause Failed (faults self.old) (faults self.new) result };

    /// After it, a crash leaves the area as it reads.
    fn sync(&mut self, area: u32) -> Result<(), Outside>
        ensures durable { Tells (state self.old) → OnOk result (IsDurable area ((state self.old).reads area) (state self.new)) }
        ensures unchanged { Tells (state self.old) → IsUnchanged (state self.old) (state self.new) }
        ensures memory { NeedsNoMemory result }
        ensures time { Tells (state self.old) → Elapses (state self.old) (state self.new) }
        ensures counted { Tells (state self.old) → OnOk result ((state self.new).calls ≡ (state self.old).calls + 1) }
        ensures tells { (state self.new).tells ≡ (state self.old).tells }
        ensures cause { HasCause Failed (faults self.old) (faults self.new) result };

    /// How often it has failed, which never falls.
    fn faults(&self) -> u64
        ensures { result ≡ faults self.now };
}
