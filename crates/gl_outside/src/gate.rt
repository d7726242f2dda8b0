// Where a processor can be held.

/// What a processor tells between its turns. A test's gate may hold it there, within a bound.
pub trait Gate<R, W> {
    /// The worker has claimed the range, and goes to stage it.
    fn pass(&mut self, worker: u32, range: &R);

    /// It has staged the range, and goes to give the work back.
    fn passed(&mut self, worker: u32, work: &W);
}

/// A gate that holds nobody.
#[derive(Clone, Copy, Debug, PartialEq, Eq)]
pub struct FreeGate;

impl<R, W> Gate<R, W> for FreeGate {
    fn pass(&mut self, _worker: u32, _range: &R) {}

    fn passed(&mut self, _worker: u32, _work: &W) {}
}
