//! What the server is handed from outside, as traits with a written meaning, and their kinds in memory.
//!
//! A `Source`, a `Sink` and a `Disk` may tell their content; then each call says what became of it,
//! and a disk says which images a crash may leave at any moment. Whatever they tell, a count of
//! faults never falls, and a call answers `Failed` exactly where its object's count moved.
//!
//! `MemorySource`, `MemorySink` and `MemoryDisk` tell everything, and fail exactly at listed calls; the
//! disk also where its room for a record of its calls is used up. `law_crash_images` says in plain words
//! which images it may leave, each call says what it records, and `MemoryDisk::after_crash` makes a disk of one.
//!
//! A `Link` gives datagrams and a `Clock` moments, and a processor passes a `Gate`. `MemoryLink`, `ListClock` and `FreeGate`
//! are their kinds in memory. Those that stand over the system are in `gl_system`.
#![tactic(auto)]

mod areas;
mod clock;
mod crash;
mod disk;
mod fault;
mod gate;
mod laws;
mod link;
mod listed;
mod memory;
mod memory_link;
mod record;
mod stream;
mod streams;

pub use clock::{Clock, ListClock, law_given_moments};
pub use crash::Unsynced;
pub use disk::Disk;
pub use fault::Outside;
pub use gate::{FreeGate, Gate};
pub use laws::{law_crash_images, law_failed_calls_keep_images, law_images_in_words};
pub use link::{Delivery, LONGEST_DATAGRAM, Link, Received};
pub use listed::{count_one, is_listed};
pub use memory::MemoryDisk;
pub use memory_link::MemoryLink;
pub use stream::{Sink, Source};
pub use streams::{MemorySink, MemorySource};
