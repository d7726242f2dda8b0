//! JSON objects (RFC 8259) as slices of their text.
//!
//! `read_object` reads exactly the texts that the grammar of `specs/Grammar` has, in UTF-8
//! (`specs/Chars`) and nested to 64 levels, and gives their members as slices: only their list takes
//! memory. Of any other text it says the first byte that no case takes behind the bytes before it, or
//! that a 65th level opens before it (`specs/JsonReading`, `specs/Places`). `unescape` gives what stands
//! between the quotes of a string (`specs/Escapes`), and `flatten` the fields of an object and of those
//! that nest in it (`specs/Flattening`). That what is read from left to right is what the grammar has are
//! laws, which hold whatever the calls answer for want of memory (`law_objects_are_read`,
//! `law_strings_say`). Not proved: time is linear in the text, but that `flatten` reads what nests once for
//! each level.
#![tactic(auto)]

mod bytes;
mod chars;
mod flat;
mod laws;
mod number;
mod read;
mod refusal;
mod spelling;
mod value;

pub use flat::flatten;
pub use laws::{
    law_nested_objects_are_read, law_objects_are_read, law_parts_are_utf8, law_strings_say,
};
pub use read::read_object;
pub use refusal::JsonRefusal;
pub use spelling::{as_written, unescape};
pub use value::{Member, Raw};
