// A text with its ASCII letters in one case.
ghost use Rattle.std.specs.Prelude.{◌≡◌, IfOk};
ghost use Rattle.gl_text.specs.Changing.{lowercase, uppercase};

use gl_base::Text;
use std::alloc::{AllocError, Global};

/// The text with each ASCII letter in lower case.
pub fn lowercase(alloc: Global, text: &str) -> Result<Text, AllocError>
    ensures { IfOk result (λ t. t ≡ lowercase text.now) }
{
    Ok(Text::from_string(text.to_ascii_lowercase(alloc)?))
}

/// The text with each ASCII letter in upper case.
pub fn uppercase(alloc: Global, text: &str) -> Result<Text, AllocError>
    ensures { IfOk result (λ t. t ≡ uppercase text.now) }
{
    Ok(Text::from_string(text.to_ascii_uppercase(alloc)?))
}
