//! The command line, the session script and its answers, and the top call of the program.
//!
//! `run_command` does all that the program does. Its contract is the main theorem: by the words, the
//! bytes of the source, the sink, the status and the disk, it says what the session wrote and what the
//! disk shows, in the words of `specs/Script` (what a line asks for), `specs/Runs` (what the lines
//! answer, and what happens), `specs/Answers` (the answers' bytes) and `specs/Ends` (how it ends).
#![tactic(auto)]

mod answering;
mod arriving;
mod checking;
mod connections;
mod desk;
mod frames;
mod law;
mod line;
mod parse;
mod print;
mod reader;
mod session;
mod status;
mod top;
mod waiting;
mod writer;

pub use law::law_arrivals_of_a_script;
pub use status::{Command, Status};
pub use top::{command_of, run_command};
