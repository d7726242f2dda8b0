//! A log of records that survives a crash at any moment.
//!
//! Records are appended in batches, each behind a gate that is opened once the batch is on the disk. So every image
//! that a crash may leave has the batches that were answered, and at most the one whose append was cut off.
//!
//! The areas of a log read as one of three things: no batch, a whole log, or a log that is broken at a place
//! (`law_one_reading`). `GateLog::open` answers by that, and `Opening` reads a log batch by batch for a caller that
//! looks into the records on the way. What is said of a disk's content rests on a disk that tells its bytes.
#![tactic(auto)]

mod area;
mod batch;
mod gate;
mod kind;
mod log;
mod open;
mod position;
mod reader;
mod walk;

pub use kind::{Log, LogFault};
pub use log::{GateLog, law_one_log, law_one_reading};
pub use reader::{Opening, law_reading_ends};
