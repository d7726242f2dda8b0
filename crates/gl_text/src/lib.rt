//! What rules over a message's texts ask of a text: whether a part stands in it, at its front or at its end, its pieces between
//! separators, its characters by their numbers, the whole number that it writes, what is made of it by changing its letters' case, by
//! leaving out the spaces at its ends or by putting one part in place of another; and texts of whole numbers, of streams' ids and of
//! syslog's facilities and severities.
//!
//! A text is seen as its bytes of UTF-8. `specs/Texts` says where a part stands, and what a piece and a run
//! of characters is; `specs/Changing` what is made of a text; `specs/Numbers` which texts write a whole number; `specs/Ids`
//! which write an id. Each call gives exactly that, and what it gives as bytes can be cut out of the text: it begins and
//! ends between characters. Only a call that gives a new text takes memory, and `contains_any_case`.
#![tactic(auto)]

mod case;
mod decimal;
mod ends;
mod find;
mod id;
mod laws;
mod names;
mod number;
mod positions;
mod replacing;
mod trimming;

pub use case::{lowercase, uppercase};
pub use decimal::Decimal;
pub use ends::{
    contains_any_case, ends_with, ends_with_any_case, starts_with, starts_with_any_case,
};
pub use find::{contains, piece};
pub use id::{id_text, read_id};
pub use laws::law_ids_read_back;
pub use names::{facility_name, severity_name};
pub use number::whole_number;
pub use positions::{character_count, characters};
pub use replacing::replaced;
pub use trimming::trimmed;
