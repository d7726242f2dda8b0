// The positions of the rows that have a word.
ghost use Rattle.std.specs.Prelude.{◌≡◌, ◌≤◌, [], ◌∷◌, drop, nat_lt, vec_len, IfOk, OnOk, OnErr};
ghost use Rattle.std.specs.List.{list_all};
ghost use Rattle.gl_words.specs.Positions.{AreFrom, with_position, without_position};

use std::alloc::{AllocError, Global};
use std::marker::Model;

/// Positions in rising order. Taking the first of them out is cheap.
#[derive(Drop)]
pub struct Positions {
    items: Vec<u64>,
    /// How many of the first are gone.
    gone: usize,
}

impl Model for Positions {
    ghost use Rattle.std.specs.Prelude.{◌≤◌, ℕ, List, drop, length};
    ghost use Rattle.gl_words.specs.Positions.{AreFrom};

    ghost Value = { List ℕ };

    ghost view = { λ p. drop p.gone p.items.items };

    ghost invariant = { λ p. (p.gone ≤ length p.items.items) × AreFrom 0 (drop p.gone p.items.items) };
}

impl Positions {
    /// One position.
    pub fn of(alloc: Global, position: u64) -> Result<Positions, AllocError>
        ensures { IfOk result (λ one. one ≡ position ∷ []) }
    {
        let mut items = Vec::with_capacity(alloc, 1)?;
        items.push(position)?;
        Ok(Positions { items, gone: 0 })
    }

    /// They as they stand, the lowest first.
    pub fn as_slice(&self) -> &[u64]
        ensures { result.now ≡ self.now }
    {
        &self.items[self.gone..]
    }

    /// Puts a position behind the others, where it is above them.
    pub fn put(&mut self, position: u64) -> Result<(), AllocError>
        ensures ok { OnOk result (self.new ≡ with_position position self.old) }
        ensures err { OnErr result (self.new ≡ self.old) }
    {
        put_behind(&mut self.items, self.gone, position)
    }

    /// Takes a position out, if it is there. It takes no memory.
    pub fn take_out(&mut self, position: u64)
        ensures { self.new ≡ without_position position self.old }
    {
        let gone = take_out(&mut self.items, self.gone, position);
        self.gone = gone;
    }
}

// Whether a position is above these, which rise.
fn is_above(position: u64, positions: &[u64]) -> bool
    requires { AreFrom 0 positions.now }
    ensures { result ≡ list_all (λ p. nat_lt p position) positions.now }
{
    match positions.last() {
        None => true,
        Some(last) => *last < position,
    }
}

// Puts a position behind those that aren't gone, where it is above them.
fn put_behind(items: &mut Vec<u64>, gone: usize, position: u64) -> Result<(), AllocError>
    requires gone { gone ≤ vec_len items.old }
    requires rising { AreFrom 0 (drop gone items.old.items) }
    ensures gone { gone ≤ vec_len items.new }
    ensures rising { AreFrom 0 (drop gone items.new.items) }
    ensures ok { OnOk result (drop gone items.new.items ≡ with_position position (drop gone items.old.items)) }
    ensures err { OnErr result (items.new.items ≡ items.old.items) }
{
    if is_above(position, &items[gone..]) {
        items.push(position)?;
    }
    Ok(())
}

// Takes a position out of those behind the first, which are gone, and answers how many are gone then.
fn take_out(items: &mut Vec<u64>, gone: usize, position: u64) -> usize
    requires gone { gone ≤ vec_len items.old }
    requires rising { AreFrom 0 (drop gone items.old.items) }
    ensures gone { result ≤ vec_len items.new }
    ensures rising { AreFrom 0 (drop result items.new.items) }
    ensures left { drop result items.new.items ≡ without_position position (drop gone items.old.items) }
{
    match items[gone..].binary_search(&position) {
        Err(_) => gone,
        Ok(0) => packed(items, gone + 1),
        Ok(n) => {
            items.remove(gone + n);
            gone
        }
    }
}

// Drops those that are gone once they are more than half of all, and answers how many are gone then.
fn packed(items: &mut Vec<u64>, gone: usize) -> usize
    requires { gone ≤ vec_len items.old }
    ensures gone { result ≤ vec_len items.new }
    ensures left { drop result items.new.items ≡ drop gone items.old.items }
{
    if gone <= items.len() / 2 {
        return gone;
    }
    items.drain(..gone);
    0
}
