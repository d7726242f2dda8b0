//! Rows on commands: which command a JSON value is, and which texts are kept commands (`gl_rows` says what rows are).
#![tactic(auto)]

mod desk;
mod texts;
mod values;

use desk::Desk;
use gl_rows::told;
use std::io::Write;
use std::{env, fs, io};

fn main(rt: HostRuntime) -> io::Result<()> {
    for file in env::args(&rt)?.skip(1) {
        let rows = fs::read_to_string(&rt, file.as_str())?;
        let told = told(rt.alloc(), file.as_str(), rows.as_str(), &mut Desk)?;
        io::writer(&rt).write_all(told.as_bytes())?;
    }
    Ok(())
}
