//! Rows on messages under configurations whole: what commands make, and what a message of each kind of input becomes by it
//! (`gl_rows` says what rows are).
#![tactic(auto)]

mod compilable;
mod desk;
mod lawful;
mod messages;

use desk::Desk;
use gl_rows::told;
use std::io::Write;
use std::{env, fs, io};

fn main(rt: HostRuntime) -> io::Result<()> {
    for file in env::args(&rt)?.skip(1) {
        let rows = fs::read_to_string(&rt, file.as_str())?;
        let mut desk = Desk::new(rt.alloc())?;
        let told = told(rt.alloc(), file.as_str(), rows.as_str(), &mut desk)?;
        io::writer(&rt).write_all(told.as_bytes())?;
    }
    Ok(())
}
