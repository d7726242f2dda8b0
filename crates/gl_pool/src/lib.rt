//! The pool of claims: which worker holds which positions of the journal, and how far all work is done.
//!
//! A worker claims the next free positions, and finishes them or gives them up. Ranges come in in any
//! order; what is committed goes up without a gap. Contracts see the list of all calls so far
//! (`specs/Claims`): what is claimed and what is finished are sets of positions, and each call answers
//! by them. A pool keeps the claims, the ranges between them that were given up, and the least position
//! that was never claimed. Each call takes time for the open ranges alone, however many are finished.
#![tactic(auto)]

mod mark;
mod pool;
mod span;

pub use mark::{Claim, Mark, PoolAnswer};
pub use pool::Pool;
