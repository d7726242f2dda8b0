// Which names things may have.
ghost use Rattle.std.specs.Prelude.{◌≡◌};
ghost use Rattle.std.specs.List.{list_all};
ghost use Rattle.gl_fields.specs.Fields.{is_name_byte};
ghost use Rattle.gl_grok.specs.Pieces.{is_name_byte as is_grok_byte, is_pattern_name};
ghost use Rattle.gl_settings.specs.Names.{is_short_name, begins_control, has_control, is_title, is_hex_digit, is_hash};

/// The bytes of the name of an input, an index set, a lookup table, a pattern of grok or a user, at most.
const MAX_SHORT_NAME: usize = 64;

/// The bytes of the name of a stream, a rule or a pipeline, at most.
const MAX_TITLE: usize = 128;

/// The hexadecimal digits of a SHA-256.
const HASH_DIGITS: usize = 64;

fn has_name_bytes(name: &[u8]) -> bool
    ensures { result ≡ list_all is_name_byte name.now }
{
    name.iter().all(|b| b.is_ascii_alphanumeric() || *b == b'_' || *b == b'.' || *b == b'-')
}

/// Whether this may be the name of an input, an index set, a lookup table or a user.
pub fn is_short_name(name: &str) -> bool
    ensures { result ≡ is_short_name name.now }
{
    !name.is_empty() && name.len() <= MAX_SHORT_NAME && has_name_bytes(name.as_bytes())
}

fn has_grok_bytes(name: &[u8]) -> bool
    ensures { result ≡ list_all is_grok_byte name.now }
{
    name.iter().all(|b| b.is_ascii_alphanumeric() || *b == b'_')
}

/// Whether this may be the name of a pattern of grok.
pub fn is_grok_name(name: &str) -> bool
    ensures { result ≡ is_pattern_name name.now }
{
    !name.is_empty() && name.len() <= MAX_SHORT_NAME && has_grok_bytes(name.as_bytes())
}

/// Whether a control character begins here.
fn begins_control(bytes: &[u8]) -> bool
    ensures { result ≡ begins_control bytes.now }
{
    match bytes {
        [] => false,
        [b] => *b < 32 || *b == 127,
        [b, c, ..] => *b < 32 || *b == 127 || (*b == 194 && *c < 160),
    }
}

fn has_control(name: &[u8]) -> bool
    ensures { result ≡ has_control name.now }
{
    let mut rest = name;
    while let [_, behind @ ..] = rest {
        if begins_control(rest) {
            return true;
        }
        rest = behind;
    }
    false
}

/// Whether this may be the name of a stream, a rule or a pipeline.
pub fn is_title(name: &str) -> bool
    ensures { result ≡ is_title name.now }
{
    !name.is_empty() && name.len() <= MAX_TITLE && !has_control(name.as_bytes())
}

/// Whether this is a SHA-256 as 64 lower-case hexadecimal digits.
pub fn is_hash(text: &str) -> bool
    ensures { result ≡ is_hash text.now }
{
    text.len() == HASH_DIGITS && has_hex_digits(text.as_bytes())
}

fn has_hex_digits(text: &[u8]) -> bool
    ensures { result ≡ list_all is_hex_digit text.now }
{
    text.iter().all(|b| matches!(*b, b'0'..=b'9' | b'a'..=b'f'))
}
