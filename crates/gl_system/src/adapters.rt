// Std's readers and writers as sources and sinks.
ghost use Rattle.std.specs.Prelude.{◌≡◌, ◌<◌, ◌≤◌, length, None, IfSome};

use gl_outside::{Outside, Sink, Source, count_one};
use std::io::{ErrorKind, Read, Write};

/// A reader as a source, which tells nothing of its bytes. A call that was interrupted is made again.
#[derive(Drop)]
pub struct ReaderSource<R: Read> {
    reader: R,
    faults: u64,
}

impl<R: Read> ReaderSource<R> {
    /// A source that hasn't failed yet.
    pub fn new(reader: R) -> ReaderSource<R>
        ensures { result.faults ≡ 0 }
    {
        ReaderSource { reader, faults: 0 }
    }
}

impl<R: Read> Source for ReaderSource<R> {
    ghost left = { λ _. None };

    ghost faults = { λ s. s.faults };

    fn read(&mut self, into: &mut [u8]) -> Result<usize, Outside> {
        match read_some(&mut self.reader, into) {
            Some(count) => Ok(count),
            None => {
                count_one(&mut self.faults);
                Err(Outside::Failed)
            }
        }
    }

    fn faults(&self) -> u64 {
        self.faults
    }
}

/// A writer as a sink, which tells nothing of its bytes. A call that was interrupted is made again,
/// and what was written is flushed before the call returns.
#[derive(Drop)]
pub struct WriterSink<W: Write> {
    writer: W,
    faults: u64,
}

impl<W: Write> WriterSink<W> {
    /// A sink that hasn't failed yet.
    pub fn new(writer: W) -> WriterSink<W>
        ensures { result.faults ≡ 0 }
    {
        WriterSink { writer, faults: 0 }
    }
}

impl<W: Write> Sink for WriterSink<W> {
    ghost contents = { λ _. None };

    ghost faults = { λ s. s.faults };

    fn write(&mut self, bytes: &[u8]) -> Result<usize, Outside> {
        if let Some(count) = write_some(&mut self.writer, bytes) {
            if flush(&mut self.writer) {
                return Ok(count);
            }
        }
        count_one(&mut self.faults);
        Err(Outside::Failed)
    }

    fn faults(&self) -> u64 {
        self.faults
    }
}

// One read that isn't interrupted, or none where it failed.
fn read_some<R: Read>(reader: &mut R, into: &mut [u8]) -> Option<usize>
    ensures { IfSome result (λ n. n ≤ length into.new) }
{
    for _ in 0..u64::MAX {
        match reader.read(into) {
            Ok(count) => return Some(count),
            Err(error) if error.kind() == ErrorKind::Interrupted => {}
            Err(_) => return None,
        }
    }
    None
}

// One write that isn't interrupted, or none where it failed or took nothing.
fn write_some<W: Write>(writer: &mut W, bytes: &[u8]) -> Option<usize>
    ensures bound { IfSome result (λ n. n ≤ length bytes.now) }
    ensures progress { 0 < length bytes.now → IfSome result (λ n. 0 < n) }
{
    for _ in 0..u64::MAX {
        match writer.write(bytes) {
            Ok(0) if !bytes.is_empty() => return None,
            Ok(count) => return Some(count),
            Err(error) if error.kind() == ErrorKind::Interrupted => {}
            Err(_) => return None,
        }
    }
    None
}

// Whether what was written could be flushed.
fn flush<W: Write>(writer: &mut W) -> bool {
    for _ in 0..u64::MAX {
        match writer.flush() {
            Ok(()) => return true,
            Err(error) if error.kind() == ErrorKind::Interrupted => {}
            Err(_) => return false,
        }
    }
    false
}
