// A source and a sink in memory, which fail exactly at listed calls.
ghost use Rattle.std.specs.Prelude.{◌≡◌, ◌↔◌, ◌<◌, [], length, min, max, IfOk, IsErrOf, Some};
ghost use Rattle.std.specs.Io.{ReadsAtMost, WritesAtMost};
ghost use Rattle.std.specs.Io.KnownBytes.{ReadConsumes, WriteAppends};
ghost use Rattle.gl_base.specs.Counts.{HasCause};
ghost use Rattle.gl_outside.specs.declared.fault.Outside.TheVariants.{Failed};
ghost use Rattle.gl_outside.specs.Faults.{NeedsNoMemory};
ghost use Rattle.gl_outside.specs.Listed.{IsListed, one_more};
ghost use Rattle.gl_outside.specs.Views.{SourceView, SinkView};

use crate::listed::{count_one, is_listed};
use crate::{Outside, Sink, Source};
use std::alloc::Global;
use std::marker::Model;

/// A source over bytes that gives at most a piece a call, and fails exactly at listed calls.
#[derive(Drop)]
pub struct MemorySource<'a> {
    left: &'a [u8],
    piece: usize,
    failing: &'a [u64],
    made: u64,
    faults: u64,
}

impl<'a> Model for MemorySource<'a> {
    ghost use Rattle.gl_outside.specs.Views.{SourceView};

    ghost Value = { SourceView };

    ghost view = { λ s. record { left = s.left.now; piece = s.piece; failing = s.failing.now; made = s.made; faults = s.faults } };
}

impl<'a> MemorySource<'a> {
    /// A source of these bytes, which gives at most `piece` of them a call, and at least one.
    /// The calls whose numbers are in `failing` fail; the first call is 1, and from 2^64 - 1 on each is that.
    pub fn new(bytes: &'a [u8], piece: usize, failing: &'a [u64]) -> MemorySource<'a>
        ensures { result ≡ record { left = bytes.now; piece = piece; failing = failing.now; made = 0; faults = 0 } }
    {
        MemorySource {
            left: bytes,
            piece,
            failing,
            made: 0,
            faults: 0,
        }
    }
}

impl<'a> Source for MemorySource<'a> {
    ghost left = { λ s. Some s.left };

    ghost faults = { λ s. s.faults };

    fn read(&mut self, into: &mut [u8]) -> Result<usize, Outside>
        ensures bound { ReadsAtMost result into.new }
        ensures bytes { ReadConsumes (Some self.old.left) (Some self.new.left) result into.new }
        ensures cause { HasCause Failed self.old.faults self.new.faults result }
        ensures exact { IsErrOf result Failed ↔ IsListed self.old.failing self.old.made }
        ensures fault { IsErrOf result Failed → self.new.faults ≡ one_more self.old.faults }
        ensures memory { NeedsNoMemory result }
        ensures given { IfOk result (λ n. n ≡ min (max self.old.piece 1) (min (length into.old) (length self.old.left))) }
        ensures made { self.new.made ≡ one_more self.old.made }
        ensures kept { (self.new.failing ≡ self.old.failing) × (self.new.piece ≡ self.old.piece) }
    {
        if is_listed(self.failing, &mut self.made) {
            count_one(&mut self.faults);
            return Err(Outside::Failed);
        }
        let given = self.piece.max(1).min(into.len()).min(self.left.len());
        let (first, later) = self.left.split_at(given);
        into[..given].copy_from_slice(first);
        self.left = later;
        Ok(given)
    }

    fn faults(&self) -> u64 {
        self.faults
    }
}

/// A sink that keeps the bytes, takes at most a piece a call, and fails exactly at listed calls.
#[derive(Drop)]
pub struct MemorySink {
    taken: Vec<u8>,
    piece: usize,
    failing: Vec<u64>,
    made: u64,
    faults: u64,
}

impl Model for MemorySink {
    ghost use Rattle.gl_outside.specs.Views.{SinkView};

    ghost Value = { SinkView };

    ghost view = { λ s. record { taken = s.taken.items; piece = s.piece; failing = s.failing.items; made = s.made; faults = s.faults } };
}

impl MemorySink {
    /// An empty sink that takes at most `piece` bytes a call, and at least one.
    /// The calls whose numbers are in `failing` fail; the first call is 1, and from 2^64 - 1 on each is that.
    pub fn new(alloc: Global, piece: usize, failing: Vec<u64>) -> MemorySink
        ensures { result ≡ record { taken = []; piece = piece; failing = failing.items; made = 0; faults = 0 } }
    {
        MemorySink {
            taken: Vec::new(alloc),
            piece,
            failing,
            made: 0,
            faults: 0,
        }
    }

    /// The bytes that it took.
    pub fn bytes(&self) -> &[u8]
        ensures { result.now ≡ self.now.taken }
    {
        self.taken.as_slice()
    }
}

impl Sink for MemorySink {
    ghost contents = { λ s. Some s.taken };

    ghost faults = { λ s. s.faults };

    fn write(&mut self, bytes: &[u8]) -> Result<usize, Outside>
        ensures bound { WritesAtMost result bytes.now }
        ensures progress { 0 < length bytes.now → IfOk result (λ count. 0 < count) }
        ensures bytes { WriteAppends (Some self.old.taken) (Some self.new.taken) result bytes.now }
        ensures cause { HasCause Failed self.old.faults self.new.faults result }
        ensures exact { IsErrOf result Failed ↔ IsListed self.old.failing self.old.made }
        ensures fault { IsErrOf result Failed → self.new.faults ≡ one_more self.old.faults }
        ensures given { IfOk result (λ n. n ≡ min (max self.old.piece 1) (length bytes.now)) }
        ensures made { self.new.made ≡ one_more self.old.made }
        ensures kept { (self.new.failing ≡ self.old.failing) × (self.new.piece ≡ self.old.piece) }
    {
        if is_listed(&self.failing, &mut self.made) {
            count_one(&mut self.faults);
            return Err(Outside::Failed);
        }
        let count = self.piece.max(1).min(bytes.len());
        self.taken.extend_from_slice(&bytes[..count])?;
        Ok(count)
    }

    fn faults(&self) -> u64 {
        self.faults
    }
}
