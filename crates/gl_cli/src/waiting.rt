// The bytes of a script that came in and weren't given yet.
ghost use Rattle.std.specs.Prelude.{◌≡◌, ◌+◌, ◌<◌, ◌++◌, [], length, take, drop, IfOk, OnOk, MatchOption};
ghost use Rattle.gl_cli.specs.LineReading.{NoNewline, IsNewlineAt};

use gl_base::Items;
use std::alloc::{AllocError, Global};
use std::marker::Model;

/// Bytes that wait to be given, in a buffer that forgets the given ones only when it needs room. No
/// byte is looked at twice for a line feed. A contract sees the bytes that wait.
#[derive(Drop)]
pub struct Waiting {
    bytes: Vec<u8>,
    // What stands before it was given.
    start: usize,
    // From the start up to here there is no line feed.
    searched: usize,
}

impl Model for Waiting {
    ghost use Rattle.std.specs.Prelude.{List, ℕ, drop};
    ghost use Rattle.gl_cli.specs.LineReading.{IsSearched};

    ghost Value = { List ℕ };

    ghost view = { λ w. drop w.start w.bytes.items };

    ghost invariant = { λ w. IsSearched w.start w.searched w.bytes.items };
}

/// Where the first line feed stands.
fn newline_in(bytes: &[u8]) -> Option<usize>
    ensures { MatchOption result (NoNewline bytes.now) (λ place. IsNewlineAt bytes.now (length bytes.now) place) }
{
    bytes.iter().position(|b| *b == b'\n')
}

impl Waiting {
    pub fn new(alloc: Global) -> Waiting
        ensures { result ≡ [] }
    {
        Waiting {
            bytes: Vec::new(alloc),
            start: 0,
            searched: 0,
        }
    }

    pub fn len(&self) -> usize
        ensures { result ≡ length self.now }
    {
        self.bytes.len() - self.start
    }

    /// Where the first line feed among the first `budget` bytes stands.
    pub fn newline_within(&mut self, budget: usize) -> Option<usize>
        ensures same { self.new ≡ self.old }
        ensures found { MatchOption result (NoNewline (take budget self.old)) (λ place. IsNewlineAt self.old budget place) }
    {
        let end = self.start + budget.min(self.bytes.len() - self.start);
        if end <= self.searched {
            return None;
        }
        match newline_in(&self.bytes[self.searched..end]) {
            Some(steps) => {
                self.searched += steps;
                Some(self.searched - self.start)
            }
            None => {
                self.searched = end;
                None
            }
        }
    }

    /// Forgets what was given.
    fn forget(&mut self)
        ensures { self.new ≡ self.old }
    {
        if self.start > 0 {
            self.bytes.drain(..self.start);
            self.searched -= self.start;
            self.start = 0;
        }
    }

    /// Puts bytes behind those that wait.
    pub fn add(&mut self, more: &[u8]) -> Result<(), AllocError>
        ensures { OnOk result (self.new ≡ self.old ++ more.now) }
    {
        self.forget();
        self.bytes.extend_from_slice(more)
    }

    /// Gives the first `count` bytes, and drops the one behind them.
    pub fn give_line(&mut self, alloc: Global, count: usize) -> Result<Items<u8>, AllocError>
        requires { count < length self.old }
        ensures line { IfOk result (λ line. line ≡ take count self.old) }
        ensures rest { OnOk result (self.new ≡ drop (count + 1) self.old) }
    {
        let end = self.start + count;
        let line = Items::from_slice(alloc, &self.bytes[self.start..end])?;
        self.start = end + 1;
        self.searched = end + 1;
        Ok(line)
    }

    /// Gives all bytes.
    pub fn give_rest(&mut self, alloc: Global) -> Result<Items<u8>, AllocError>
        ensures line { IfOk result (λ line. line ≡ self.old) }
        ensures rest { OnOk result (self.new ≡ []) }
    {
        let line = Items::from_slice(alloc, &self.bytes[self.start..])?;
        self.bytes.clear();
        self.start = 0;
        self.searched = 0;
        Ok(line)
    }
}
