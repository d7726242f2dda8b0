// What holds of a node's outcomes, however its calls come one after another.
ghost use Rattle.std.specs.Prelude.{◌≡◌, ◌≤◌, ℕ, List, length};
ghost use Rattle.gl_outside.specs.Disk.{Image};
ghost use Rattle.gl_gatelog.specs.declared.kind.Log.{Log};
ghost use Rattle.gl_fields.specs.declared.entry.Entry.{Entry};
ghost use Rattle.gl_fields.specs.declared.entry.Outcome.{Outcome};
ghost use Rattle.gl_node.specs.Chains.{CommitsLongest};
ghost use Rattle.gl_node.specs.Damage.{IsDamaged};
ghost use Rattle.gl_node.specs.Decoding.{outcomes_to};
ghost use Rattle.gl_node.specs.Node.{AreTiled};
ghost use Rattle.gl_node.specs.Standing.{Shows};
ghost use Rattle.gl_node.specs.State.{Base, Event, State, opened, state_after, outcomes, commit_count};

/// Whatever happens, and in whatever order processors claim, finish or give up their ranges, the
/// outcomes are those that one thread gets by staging the journal in order, as far as it is
/// committed.
pub fn law_outcomes_of_one_thread()
    ensures { (base : Base) (events : List Event) → length base.found ≤ length base.journal →
        base.found ≡ outcomes_to base.journal (length base.found) →
        outcomes (state_after (opened base) events)
        ≡ outcomes_to (state_after (opened base) events).journal (commit_count (state_after (opened base) events)) }
{}

/// What a finish commits is the longest chain of finished ranges, from the commit count on without a
/// gap, whose batches fit into the index log: of each state in which no two ranges share a position.
pub fn law_longest_chain_is_committed()
    ensures { (s : State) (next : ℕ) → AreTiled s next → CommitsLongest s }
{}

/// An image is damaged at one place at most, and one that shows a journal and outcomes isn't damaged.
pub fn law_one_store()
    ensures damaged { (image : Image) (log log2 : Log) (area at area2 at2 : ℕ) → IsDamaged image log area at → IsDamaged image log2 area2 at2 → (log ≡ log2) × (area ≡ area2) × (at ≡ at2) }
    ensures shown { (image : Image) (journal : List Entry) (found : List Outcome) → Shows image journal found → (log : Log) (area at : ℕ) → IsDamaged image log area at → ⊥ }
{}
