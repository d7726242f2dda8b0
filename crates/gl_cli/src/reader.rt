ghost use Rattle.std.specs.Prelude.{◌≡◌, ◌^◌, ◌<◌, ◌≤◌, ◌⊎◌, length, take, IfOk, OnOk, IsTrue, MatchOption, []};
ghost use Rattle.std.specs.Bool.{IsFalse};
ghost use Rattle.std.specs.Io.KnownBytes.{Keeps, IsAtEnd, prepend_known};
ghost use Rattle.gl_base.specs.Counts.{HasCause};
ghost use Rattle.gl_cli.specs.LineReading.{NoNewline, IsNewlineAt, GivesKnown, IsLine};

use crate::waiting::Waiting;
use gl_base::Items;
use gl_outside::{Outside, Source};
use std::alloc::{AllocError, Global};

/// How many bytes a source is asked for at once.
const BLOCK: usize = 65_536;

/// What a reading came to.
#[derive(Drop)]
pub enum Next {
    Line(Items<u8>),
    End,
    TooLong,
}

/// Reads a script line by line, within a budget of bytes.
#[derive(Drop)]
pub struct LineReader {
    pub waiting: Waiting,
    pub budget: usize,
    pub ended: bool,
    // Where a source puts its next bytes; made at the first reading.
    block: Vec<u8>,
}

/// Makes the room where a source puts its next bytes, if it isn't there yet.
fn make_block(block: &mut Vec<u8>) -> Result<(), AllocError>
    ensures { OnOk result (0 < length block.new.items) }
{
    if block.is_empty() {
        block.resize(BLOCK, 0)?;
    }
    Ok(())
}

impl LineReader {
    pub fn new(alloc: Global, budget: usize) -> LineReader
        ensures empty { result.waiting ≡ [] }
        ensures budget { result.budget ≡ budget }
        ensures begun { IsFalse result.ended }
    {
        LineReader {
            waiting: Waiting::new(alloc),
            budget,
            ended: false,
            block: Vec::new(alloc),
        }
    }

    /// Puts the next bytes of the source behind those that wait, or sees that it has ended.
    fn refill<S: Source>(&mut self, source: &mut S) -> Result<(), Outside>
        requires { IsFalse self.old.ended }
        ensures same { OnOk result (Keeps (prepend_known self.old.waiting (S.left source.old)) (prepend_known self.new.waiting (S.left source.new))) }
        ensures end { OnOk result (IsTrue self.new.ended → IsAtEnd (S.left source.new)) }
        ensures progress { OnOk result ((length self.old.waiting < length self.new.waiting) ⊎ (IsTrue self.new.ended × (self.new.waiting ≡ self.old.waiting))) }
        ensures budget { self.new.budget ≡ self.old.budget }
        ensures cause { HasCause Outside.Failed (S.faults source.old) (S.faults source.new) result }
    {
        make_block(&mut self.block)?;
        let count = source.read(&mut self.block)?;
        if count == 0 {
            self.ended = true;
            return Ok(());
        }
        self.waiting.add(&self.block[..count])?;
        Ok(())
    }

    /// Reads on until a line feed waits within the budget, or more bytes wait than the budget allows, or the source has ended.
    fn fill<S: Source>(&mut self, source: &mut S) -> Result<Option<usize>, Outside>
        requires { self.old.budget < 2 ^ 63 }
        ensures same { OnOk result (Keeps (prepend_known self.old.waiting (S.left source.old)) (prepend_known self.new.waiting (S.left source.new))) }
        ensures found { IfOk result (λ found. MatchOption found
            (NoNewline (take self.new.budget self.new.waiting) × ((self.new.budget < length self.new.waiting) ⊎ IsTrue self.new.ended))
            (λ place. IsNewlineAt self.new.waiting self.new.budget place)) }
        ensures end { (IsTrue self.old.ended → IsAtEnd (S.left source.old)) → OnOk result (IsTrue self.new.ended → IsAtEnd (S.left source.new)) }
        ensures budget { self.new.budget ≡ self.old.budget }
        ensures asks_no_more { IsTrue self.old.ended → source.new ≡ source.old }
        ensures cause { HasCause Outside.Failed (S.faults source.old) (S.faults source.new) result }
    {
        loop {
            if let Some(place) = self.waiting.newline_within(self.budget) {
                return Ok(Some(place));
            }
            if self.waiting.len() > self.budget || self.ended {
                return Ok(None);
            }
            self.refill(source)?;
        }
    }

    /// Gives the next line without its line feed, or tells that there is none, or that the next one doesn't end within
    /// the budget. Once the source has ended it isn't asked again. After `Err` bytes of the source may be lost.
    pub fn next_line<S: Source>(&mut self, alloc: Global, source: &mut S) -> Result<Next, Outside>
        requires small { self.old.budget < 2 ^ 63 }
        requires ended { IsTrue self.old.ended → IsAtEnd (S.left source.old) }
        ensures given { IfOk result (λ next. GivesKnown next (prepend_known self.old.waiting (S.left source.old)) self.old.budget
            (prepend_known self.new.waiting (S.left source.new)) self.new.budget) }
        ensures small { OnOk result (self.new.budget ≤ self.old.budget) }
        ensures shorter { IfOk result (λ next. IsLine next → self.new.budget < self.old.budget) }
        ensures ended { OnOk result (IsTrue self.new.ended → IsAtEnd (S.left source.new)) }
        ensures at_end { result ≡ Ok Next.End → IsAtEnd (S.left source.new) }
        ensures asks_no_more { IsTrue self.old.ended → source.new ≡ source.old }
        ensures cause { HasCause Outside.Failed (S.faults source.old) (S.faults source.new) result }
    {
        match self.fill(source)? {
            Some(end) => {
                let line = self.waiting.give_line(alloc, end)?;
                self.budget -= end + 1;
                Ok(Next::Line(line))
            }
            None => {
                let count = self.waiting.len();
                if count > self.budget {
                    return Ok(Next::TooLong);
                }
                if count == 0 {
                    return Ok(Next::End);
                }
                let line = self.waiting.give_rest(alloc)?;
                self.budget -= count;
                Ok(Next::Line(line))
            }
        }
    }
}
