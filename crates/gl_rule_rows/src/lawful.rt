use gl_check::{Checked, check};
use gl_rulelang::read_rule;
use std::alloc::{AllocError, Global};

/// The rule of a text, checked; none where there is none.
pub fn lawful(alloc: Global, text: &str) -> Result<Option<Checked>, AllocError> {
    match read_rule(alloc, text) {
        Ok(rule) => Ok(check(alloc, rule).ok()),
        Err(_) => Ok(None),
    }
}
