// What a crash may leave of a disk in memory, in plain words.
ghost use Rattle.std.specs.Prelude.{◌↔◌, ℕ, Bool, List, ◌∷◌};
ghost use Rattle.gl_outside.specs.Crash.{AreLawful, IsCrashImage};
ghost use Rattle.gl_outside.specs.Disk.{Image};
ghost use Rattle.gl_outside.specs.Events.{Event, Wrote, WasCut, IsImage};
ghost use Rattle.gl_outside.specs.ImageWords.{MayBeLeft};

/// A crash leaves of each area what it read as at its last sync, but for the bytes that were written
/// or cut since, and with a length between the least and the greatest that it had since. Each such
/// image may be left, and no other, where each write began within what its area read as then.
pub fn law_crash_images()
    ensures { (events : List Event) (c : Image) → AreLawful events → (IsImage events c ↔ ((area : ℕ) → IsCrashImage area events (c area))) }
{}

/// The same in words alone, with nothing reckoned from the calls: of each area a crash may leave what
/// is no shorter than one length that it had since its last sync and no longer than another, and has
/// the bytes of that sync at each place that was neither written nor cut away since; and nothing else.
pub fn law_images_in_words()
    ensures { (events : List Event) (c : Image) → AreLawful events → (IsImage events c ↔ ((area : ℕ) → MayBeLeft area events (c area))) }
{}

/// A write and a cut, done or not, take away no image that a crash might have left before; so a call that fails takes none
/// away.
pub fn law_failed_calls_keep_images()
    ensures write { (events : List Event) (c : Image) (area at : ℕ) (bytes : List ℕ) (done : Bool) → IsImage events c → IsImage (Wrote area at bytes done ∷ events) c }
    ensures cut { (events : List Event) (c : Image) (area length : ℕ) (done : Bool) → IsImage events c → IsImage (WasCut area length done ∷ events) c }
{}
