// Where the n-th of what is counted stands.
ghost use Rattle.std.specs.Prelude.{◌≡◌, ◌+◌, ◌-◌, ◌^◌, ◌<◌, ◌≤◌, [], length, sum, take, slice_index, IfOk};
ghost use Rattle.gl_indexset.specs.Ranks.{AreSums, counts_of, lowered, paired, raised};

use std::alloc::{AllocError, Global};
use std::marker::Model;

/// Numbers, of which each rises and falls by one.
#[derive(Drop)]
struct Counts {
    numbers: Vec<usize>,
}

impl Model for Counts {
    ghost use Rattle.std.specs.Prelude.{ℕ, List};

    ghost Value = { List ℕ };

    ghost view = { λ c. c.numbers.items };
}

impl Counts {
    fn len(&self) -> usize
        ensures { result ≡ length self.now }
    {
        self.numbers.len()
    }

    // The number at a place, and 0 behind the last.
    fn get(&self, at: usize) -> usize
        ensures { result ≡ slice_index self.now at }
    {
        self.numbers.get(at).copied().unwrap_or(0)
    }

    // The sums of the first two, of the next two, and so on.
    fn paired(&self, alloc: Global) -> Result<Counts, AllocError>
        requires { sum self.now < 2 ^ 64 }
        ensures { IfOk result (λ sums. sums ≡ paired self.now) }
    {
        let half = self.len() / 2 + self.len() % 2;
        let mut numbers = Vec::with_capacity(alloc, half)?;
        for at in 0..half {
            numbers.push(self.get(at * 2) + self.get(at * 2 + 1))?;
        }
        Ok(Counts { numbers })
    }

    // Under which of the two numbers that a sum is of the one stands that is the `rest`-th under the
    // sum, and the how manieth it is there.
    fn half(&self, at: usize, rest: usize) -> (usize, usize)
        requires { rest < slice_index (paired self.now) at }
        ensures before { sum (take result.0 self.now) + result.1 ≡ sum (take at (paired self.now)) + rest }
        ensures there { result.1 < slice_index self.now result.0 }
    {
        let first = self.numbers[at * 2];
        if rest < first {
            (at * 2, rest)
        } else {
            (at * 2 + 1, rest - first)
        }
    }

    fn raise(&mut self, at: usize)
        requires at { at < length self.old }
        requires fits { slice_index self.old at < 2 ^ 64 - 1 }
        ensures { self.new ≡ raised at self.old }
    {
        self.numbers[at] += 1;
    }

    fn lower(&mut self, at: usize)
        requires { 0 < slice_index self.old at }
        ensures { self.new ≡ lowered at self.old }
    {
        self.numbers[at] -= 1;
    }
}

/// Counts in a row. Finding where the n-th of what they count stands, and changing a count by one, takes
/// a logarithm of how many counts there are.
#[derive(Drop)]
pub(crate) struct Ranks {
    /// The counts, the sums of each two of them, the sums of each two of those, and so on up to one.
    levels: Vec<Counts>,
}

impl Model for Ranks {
    ghost use Rattle.std.specs.Prelude.{ℕ, List};
    ghost use Rattle.gl_indexset.specs.Ranks.{AreSums, counts_of};

    ghost Value = { List ℕ };

    ghost view = { λ r. counts_of r.levels.items };

    ghost invariant = { λ r. AreSums r.levels.items };
}

impl Ranks {
    /// No counts. It takes no memory.
    pub(crate) fn new(alloc: Global) -> Ranks
        ensures { result ≡ [] }
    {
        Ranks {
            levels: Vec::new(alloc),
        }
    }

    /// The counts that these numbers are.
    pub(crate) fn of(alloc: Global, numbers: Vec<usize>) -> Result<Ranks, AllocError>
        requires { sum numbers.items < 2 ^ 64 }
        ensures { IfOk result (λ counts. counts ≡ numbers.items) }
    {
        let mut levels = Vec::new(alloc);
        let mut counts = Counts { numbers };
        while counts.len() > 1 {
            let sums = counts.paired(alloc)?;
            levels.push(counts)?;
            counts = sums;
        }
        levels.push(counts)?;
        Ok(Ranks { levels })
    }

    /// How many counts there are.
    pub(crate) fn len(&self) -> usize
        ensures { result ≡ length self.now }
    {
        match self.levels.first() {
            None => 0,
            Some(counts) => counts.len(),
        }
    }

    /// At which count the `n`-th of all that is counted stands; the first is 0.
    pub(crate) fn find(&self, n: usize) -> usize
        requires { n < sum self.now }
        ensures before { sum (take result self.now) ≤ n }
        ensures there { n < sum (take result self.now) + slice_index self.now result }
    {
        place_of(self.levels.as_slice(), n)
    }

    /// Counts one more at a place.
    pub(crate) fn raise(&mut self, at: usize)
        requires at { at < length self.old }
        requires fits { sum self.old < 2 ^ 64 - 1 }
        ensures { self.new ≡ raised at self.old }
    {
        raise_each(&mut self.levels, at);
    }

    /// Counts one less at a place.
    pub(crate) fn lower(&mut self, at: usize)
        requires { 0 < slice_index self.old at }
        ensures { self.new ≡ lowered at self.old }
    {
        lower_each(&mut self.levels, at);
    }
}

// From one sum down to one of its two, at which count the n-th stands.
fn place_of(levels: &[Counts], n: usize) -> usize
    requires sums { AreSums levels.now }
    requires counted { n < sum (counts_of levels.now) }
    ensures before { sum (take result (counts_of levels.now)) ≤ n }
    ensures there { n < sum (take result (counts_of levels.now)) + slice_index (counts_of levels.now) result }
{
    let mut level = levels.len() - 1;
    let mut at = 0;
    let mut rest = n;
    while level > 0 {
        level -= 1;
        let (lower, left) = levels[level].half(at, rest);
        at = lower;
        rest = left;
    }
    at
}

// Counts one more at a place, and in each sum over it.
fn raise_each(levels: &mut Vec<Counts>, at: usize)
    requires sums { AreSums levels.old.items }
    requires at { at < length (counts_of levels.old.items) }
    requires fits { sum (counts_of levels.old.items) < 2 ^ 64 - 1 }
    ensures sums { AreSums levels.new.items }
    ensures counts { counts_of levels.new.items ≡ raised at (counts_of levels.old.items) }
{
    let mut place = at;
    for level in 0..levels.len() {
        levels[level].raise(place);
        place /= 2;
    }
}

// Counts one less at a place, and in each sum over it.
fn lower_each(levels: &mut Vec<Counts>, at: usize)
    requires sums { AreSums levels.old.items }
    requires some { 0 < slice_index (counts_of levels.old.items) at }
    ensures sums { AreSums levels.new.items }
    ensures counts { counts_of levels.new.items ≡ lowered at (counts_of levels.old.items) }
{
    let mut place = at;
    for level in 0..levels.len() {
        levels[level].lower(place);
        place /= 2;
    }
}
