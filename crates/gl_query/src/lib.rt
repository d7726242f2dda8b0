//! The query language of a search: reading a query, printing it, and telling whether it holds of a
//! message's fields.
//!
//! `read_query` reads exactly the texts whose tokens (`specs/Tokens`) are a query of the grammar
//! (`specs/Grammar`) within the limits, with its tree there, and else says where the text is refused
//! (`specs/Refusals`). A `Query` is seen as the nodes of its tree in Polish notation (`specs/Tree`).
//! `print_query` writes the text of that tree (`specs/Printing`), which reads back to it wherever it is
//! within the limits.
//! `matches` says whether that tree holds of a map of fields (`specs/Matching`, over the tokens of a text
//! in `specs/Texts` and wildcards in `specs/Patterns`). It takes no memory, and time as the texts that it
//! looks at times the query. A message of which a query holds has each of the query's required terms
//! (`specs/Required`, by `law_required_terms`), which `Query::required` lends. `next_token` walks over the
//! tokens of a text as `matches` does.
#![tactic(auto)]

mod builder;
mod decimal;
mod lexer;
mod matching;
mod pattern;
mod print;
mod query;
mod read;
mod required;
mod step;
mod term;
mod texts;
mod token;
mod word;

pub use matching::matches;
pub use print::print_query;
pub use query::{Query, QueryRefusal};
pub use read::{MAX_QUERY, law_one_tree, read_query};
pub use required::{RequiredTerm, in_lower_case, law_required_terms};
pub use term::{Limit, Node, Piece, Term};
pub use texts::next_token;
pub use token::{Comparison, Edge, Token};
