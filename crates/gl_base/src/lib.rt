//! What several crates of the server share, and none of its rules.
//!
//! `Text` and `Items` are a `String` and a `Vec` that contracts see as lists, so that a clause can
//! compare a type that holds one with a definition's value; `Joint` is a value that several owners
//! share, seen as the value. `Fed` is what a reader of frames answers. `bytes` has what stands at the
//! front of bytes, and `whole` the whole numbers that digits write.
//! Counts of faults, and what a call may say of one, are defined in `specs/Counts`, and the numbers that
//! digits write in `specs/Digits`. Each call here is total, and says its whole result.
#![tactic(auto)]

pub mod bytes;
mod fed;
mod items;
mod joint;
mod text;
pub mod whole;

pub use fed::Fed;
pub use items::Items;
pub use joint::Joint;
pub use text::Text;
