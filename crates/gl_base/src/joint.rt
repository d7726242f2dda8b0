ghost use Rattle.std.specs.Prelude.{◌≡◌, IfOk};

use std::alloc::{AllocError, Global};
use std::marker::Model;
use std::sync::Arc;

/// A value that several owners have together, and that contracts see as the value itself. It stands once
/// in memory, and is dropped with its last owner.
#[derive(Debug, Drop)]
pub struct Joint<T> {
    inner: Arc<T>,
}

impl<T> Model for Joint<T> {
    ghost Value = { T };

    ghost coded = { T.code };

    ghost view = { λ j. j.inner.value };
}

impl<T> Joint<T> {
    pub fn get(&self) -> &T
        ensures { result.now ≡ self.now }
    {
        &self.inner
    }
}

impl<T: Drop> Joint<T> {
    pub fn new(alloc: Global, value: T) -> Result<Joint<T>, AllocError>
        ensures { IfOk result (λ j. j ≡ value) }
    {
        Ok(Joint {
            inner: Arc::new(alloc, value)?,
        })
    }

    /// One more owner of the same value. It takes no memory, but the count of owners is bounded.
    pub fn share(&self) -> Result<Joint<T>, AllocError>
        ensures { IfOk result (λ j. j ≡ self.now) }
    {
        Ok(Joint {
            inner: Arc::try_clone(&self.inner)?,
        })
    }
}
