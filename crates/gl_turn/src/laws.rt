// What holds of whatever was seen.
ghost use Rattle.std.specs.Prelude.{◌≡◌, ◌<◌, ◌++◌, ℕ, List, length, All};
ghost use Rattle.gl_turn.specs.declared.seen.Seen.{Seen};
ghost use Rattle.gl_turn.specs.Order.{BeginsWith, IsBefore};
ghost use Rattle.gl_turn.specs.Own.{numbers_from, entries_at};

/// What was seen comes before itself, and before all that comes after what comes after it.
pub fn law_seen_is_ordered()
    ensures same { (s : Seen) → IsBefore s s }
    ensures chain { (s t u : Seen) → IsBefore s t → IsBefore t u → IsBefore s u }
{}

/// The positions that a journal gains name just the entries that it gains, and go on naming them in each later journal.
pub fn law_positions_name_entries()
    ensures gained { (before gained : List (List ℕ)) → entries_at (before ++ gained) (numbers_from (length before) (length gained)) ≡ gained }
    ensures stay { (before after : List (List ℕ)) (positions : List ℕ) → BeginsWith after before →
        All (λ k. k < length before) positions → entries_at after positions ≡ entries_at before positions }
{}
