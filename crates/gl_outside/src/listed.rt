// Calls that are to fail, by their numbers from 1, and counts that stay at the end of their type.
ghost use Rattle.std.specs.Prelude.{◌≡◌, ◌≤◌};
ghost use Rattle.gl_base.specs.Counts.{Rose};
ghost use Rattle.std.specs.Bool.{MatchBool};
ghost use Rattle.gl_outside.specs.Listed.{IsListed, one_more};

/// One more; it stays at 2^64 - 1.
pub fn count_one(count: &mut u64)
    ensures more { count.new ≡ one_more count.old }
    ensures rose { Rose count.old count.new }
    ensures later { count.old ≤ count.new }
{
    *count = count.saturating_add(1);
}

/// Counts a call, and says whether it is to fail.
pub fn is_listed(failing: &[u64], made: &mut u64) -> bool
    ensures listed { MatchBool result (IsListed failing.now made.old) (IsListed failing.now made.old → ⊥) }
    ensures made { made.new ≡ one_more made.old }
{
    count_one(made);
    failing.contains(made)
}
