// The text of a stream's id.
ghost use Rattle.std.specs.Prelude.{◌≡◌, IfOk};
ghost use Rattle.std.specs.List.{list_all};
ghost use Rattle.gl_text.specs.Ids.{id_text, read_id, is_hex_digit};

use gl_base::Text;
use std::alloc::{AllocError, Global};

/// The text of an id: 24 lower-case hexadecimal digits.
pub fn id_text(alloc: Global, id: u64) -> Result<Text, AllocError>
    ensures { IfOk result (λ text. text ≡ id_text id) }
{
    let text = format!(in alloc; "{id:024x}")?;
    Ok(Text::from_string(text))
}

/// The id of which this is the text. `None` where it isn't 24 lower-case hexadecimal digits, or where their number
/// passes 18,446,744,073,709,551,615.
pub fn read_id(text: &str) -> Option<u64>
    ensures { result ≡ read_id text.now }
{
    if text.len() != 24 {
        return None;
    }
    if !are_id_digits(text.as_bytes()) {
        return None;
    }
    u64::from_str_radix(text, 16).ok()
}

fn are_id_digits(bytes: &[u8]) -> bool
    ensures { result ≡ list_all is_hex_digit bytes.now }
{
    for byte in bytes {
        if !matches!(*byte, b'0'..=b'9' | b'a'..=b'f') {
            return false;
        }
    }
    true
}
