// Why there is no lock.

/// Why a lock wasn't made. The value comes back.
#[derive(Debug, Drop, PartialEq, Eq)]
pub enum TurnRefusal<T> {
    OutOfMemory(T),
}
