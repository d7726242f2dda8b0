use gl_eval::Staged;
use gl_rows::push_fields;
use std::alloc::AllocError;
use std::fmt::Write;

/// Puts a message's fields and streams behind a text.
pub fn push_state(out: &mut String, state: &Staged) -> Result<(), AllocError> {
    push_fields(out, &state.fields)?;
    for id in state.streams.as_slice() {
        write!(out, " {id}")?;
    }
    Ok(())
}
