//! Rows on requests: whose a token is and what it may see and do, and what requests are replied (`gl_rows` says what rows are).
#![tactic(auto)]

mod access;
mod asked;
mod desk;
mod refusals;
mod replies;
mod serving;
mod shown;

use desk::Desk;
use gl_rows::told;
use std::io::Write;
use std::{env, fs, io};

fn main(rt: HostRuntime) -> io::Result<()> {
    for file in env::args(&rt)?.skip(1) {
        let rows = fs::read_to_string(&rt, file.as_str())?;
        let mut desk = Desk::new(rt.alloc())?;
        let told = told(rt.alloc(), file.as_str(), rows.as_str(), &mut desk)?;
        io::writer(&rt).write_all(told.as_bytes())?;
    }
    Ok(())
}
