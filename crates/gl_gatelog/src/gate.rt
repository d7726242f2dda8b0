// A gate is a byte before a batch: 1 where it is open, another where it is shut. A batch counts where its gate is open.
ghost use Rattle.std.specs.Prelude.{◌≡◌, ◌≢◌, ℕ, false, true, Bool, IsTrue, ◌+◌, ◌^◌, ◌<◌, ◌≤◌, length, OnOk, IsErrOf, if◌then◌else◌};
ghost use Rattle.gl_outside.specs.declared.fault.Outside.TheVariants.{Failed, OutOfMemory};
ghost use Rattle.gl_base.specs.Counts.{HasCause};
ghost use Rattle.gl_outside.specs.Disk.{Image, DiskState, Tells, IsUnchanged, Follows, InArea, After, LeavesOnly};
ghost use Rattle.gl_gatelog.specs.Gate.{AllShut, AllWait, IsOpened, ShutOrOpened, ClosedOrOpened, StillWaits};

use gl_outside::{Disk, Outside};

/// Stages bytes behind a shut gate, and opens it once they are on the disk.
fn open_gate<D: Disk>(disk: &mut D, area: u32, at: u64, bytes: &[u8]) -> Result<(), Outside>
    requires within { Tells (D.state disk.old) → at < length ((D.state disk.old).reads area) }
    requires fits { at + length bytes.now < 2 ^ 64 }
    requires some { 0 < length bytes.now }
    // Where the gate is shut in each image.
    ensures opened { Tells (D.state disk.old) → AllShut area at (D.state disk.old) → OnOk result (Follows (InArea area (IsOpened at bytes.now)) (D.state disk.old) (D.state disk.new)) }
    // A crash at any moment leaves the gate shut, or open with all the bytes behind it.
    ensures any_moment { Tells (D.state disk.old) → AllShut area at (D.state disk.old) → LeavesOnly (D.state disk.old) (D.state disk.new) (After (D.state disk.old) (InArea area (ShutOrOpened at bytes.now))) }
    ensures memory { Tells (D.state disk.old) → IsErrOf result Outside.OutOfMemory → IsUnchanged (D.state disk.old) (D.state disk.new) }
    ensures reaches { Tells (D.state disk.old) → OnOk result (at + 1 + length bytes.now ≤ length ((D.state disk.new).reads area)) }
    ensures no_shorter { Tells (D.state disk.old) → length ((D.state disk.old).reads area) ≤ length ((D.state disk.new).reads area) }
    ensures counted { Tells (D.state disk.old) → OnOk result ((D.state disk.new).calls ≡ (D.state disk.old).calls + 4) }
    ensures elsewhere { Tells (D.state disk.old) → (b : ℕ) → b ≢ area → (D.state disk.new).reads b ≡ (D.state disk.old).reads b }
    ensures tells { (D.state disk.new).tells ≡ (D.state disk.old).tells }
    ensures cause { HasCause Failed (D.faults disk.old) (D.faults disk.new) result }
{
    disk.write_at(area, at + 1, bytes)?;
    disk.sync(area)?;
    disk.write_at(area, at, &[1])?;
    disk.sync(area)?;
    // From here on every image has the bytes.
    Ok(())
}

/// Puts a shut gate into an area that has none, or that is a lone gate.
fn shut_gate<D: Disk>(disk: &mut D, area: u32) -> Result<(), Outside>
    // Where the area has no gate, or is a lone one, in each image.
    ensures shut { Tells (D.state disk.old) → OnOk result (AllShut area 0 (D.state disk.new)) }
    ensures still { Tells (D.state disk.old) → AllWait false area 0 (D.state disk.old) → Follows (InArea area (StillWaits false 0)) (D.state disk.old) (D.state disk.new) }
    ensures any_moment { Tells (D.state disk.old) → AllWait false area 0 (D.state disk.old) → LeavesOnly (D.state disk.old) (D.state disk.new) (After (D.state disk.old) (InArea area (StillWaits false 0))) }
    ensures there { Tells (D.state disk.old) → OnOk result (0 < length ((D.state disk.new).reads area)) }
    ensures counted { Tells (D.state disk.old) → OnOk result ((D.state disk.new).calls ≡ (D.state disk.old).calls + 2) }
    ensures elsewhere { Tells (D.state disk.old) → (b : ℕ) → b ≢ area → (D.state disk.new).reads b ≡ (D.state disk.old).reads b }
    ensures tells { (D.state disk.new).tells ≡ (D.state disk.old).tells }
    ensures cause { HasCause Failed (D.faults disk.old) (D.faults disk.new) result }
{
    disk.write_at(area, 0, &[0])?;
    disk.sync(area)?;
    Ok(())
}

/// Writes a batch where it waits for one: four calls, or six where no gate stands yet.
pub fn write_batch<D: Disk>(
    disk: &mut D,
    area: u32,
    at: u64,
    gated: bool,
    bytes: &[u8],
) -> Result<(), Outside>
    requires within { Tells (D.state disk.old) → gated ≡ true → at < length ((D.state disk.old).reads area) }
    requires ungated { gated ≡ false → at ≡ 0 }
    requires fits { at + length bytes.now < 2 ^ 64 }
    requires some { 0 < length bytes.now }
    // Where the place waits for a batch in each image.
    ensures opened { Tells (D.state disk.old) → AllWait gated area at (D.state disk.old) → OnOk result (Follows (InArea area (IsOpened at bytes.now)) (D.state disk.old) (D.state disk.new)) }
    ensures any_moment { Tells (D.state disk.old) → AllWait gated area at (D.state disk.old) → LeavesOnly (D.state disk.old) (D.state disk.new) (After (D.state disk.old) (InArea area (ClosedOrOpened at bytes.now))) }
    ensures memory { Tells (D.state disk.old) → AllWait gated area at (D.state disk.old) → IsErrOf result Outside.OutOfMemory → Follows (InArea area (StillWaits gated at)) (D.state disk.old) (D.state disk.new) }
    ensures reaches { Tells (D.state disk.old) → OnOk result (at + 1 + length bytes.now ≤ length ((D.state disk.new).reads area)) }
    // Where it wants memory the gate is still there.
    ensures stays { Tells (D.state disk.old) → gated ≡ true → at < length ((D.state disk.new).reads area) }
    ensures counted { Tells (D.state disk.old) → OnOk result ((D.state disk.new).calls ≡ (D.state disk.old).calls + (if gated then 4 else 6)) }
    ensures elsewhere { Tells (D.state disk.old) → (b : ℕ) → b ≢ area → (D.state disk.new).reads b ≡ (D.state disk.old).reads b }
    ensures tells { (D.state disk.new).tells ≡ (D.state disk.old).tells }
    ensures cause { HasCause Failed (D.faults disk.old) (D.faults disk.new) result }
{
    if gated {
        return open_gate(disk, area, at, bytes);
    }
    shut_gate(disk, area)?;
    open_gate(disk, area, at, bytes)
}
