// The tokens of a field's text.
ghost use Rattle.std.specs.Prelude.{◌≡◌, ◌+◌, ◌<◌, ◌≤◌, [], ◌∷◌, length, take, drop, true, slice_index, MatchOption};
ghost use Rattle.gl_query.specs.Texts.{is_token_byte, text_tokens, same_token, begins, has_some, some_end, stands, TokenAhead};

fn is_token_byte(b: u8) -> bool
    ensures { result ≡ is_token_byte b }
{
    (b >= b'0' && b <= b'9')
        || (b >= b'A' && b <= b'Z')
        || (b >= b'a' && b <= b'z')
        || b == b'_'
        || b >= 128
}

// How many bytes stand before the next token.
#[tactic(auto, using(crate::proofs::Texting::gap_goes))]
fn gap_len(text: &[u8]) -> usize
    ensures gap { text_tokens (drop result text.now) ≡ text_tokens text.now }
    ensures within { result ≤ length text.now }
    ensures found { result < length text.now → is_token_byte (slice_index text.now result) ≡ true }
{
    for (n, b) in text.iter().enumerate() {
        if is_token_byte(*b) {
            return n;
        }
    }
    text.len()
}

// How many bytes the token at the front has.
fn token_len(text: &[u8]) -> usize
    requires some { 0 < length text.now }
    requires token { is_token_byte (slice_index text.now 0) ≡ true }
    ensures token { text_tokens text.now ≡ take result text.now ∷ text_tokens (drop result text.now) }
    ensures within { result ≤ length text.now }
    ensures some { 0 < result }
{
    for (n, b) in text.iter().enumerate() {
        if !is_token_byte(*b) {
            return n;
        }
    }
    text.len()
}

/// The first token of a text as it stands, and what stands behind it; `None` behind the last token.
///
/// Called on what stands behind again and again it gives the text's tokens. It takes no memory.
pub fn next_token(text: &[u8]) -> Option<(&[u8], &[u8])>
    ensures { MatchOption result (text_tokens text.now ≡ []) (λ r. TokenAhead text.now r.0.now r.1.now) }
{
    let gap = gap_len(text);
    if gap == text.len() {
        return None;
    }
    let text = &text[gap..];
    let len = token_len(text);
    Some(text.split_at(len))
}

fn same_token(a: &[u8], b: &[u8]) -> bool
    ensures { result ≡ same_token a.now b.now }
{
    a.eq_ignore_ascii_case(b)
}

// Whether the tokens of a text begin with those of a word.
fn begins(word: &[u8], text: &[u8]) -> bool
    ensures { result ≡ begins (text_tokens word.now) (text_tokens text.now) }
{
    let mut word = word;
    let mut text = text;
    while let Some((token, more)) = next_token(word) {
        match next_token(text) {
            None => return false,
            Some((other, rest)) => {
                if !same_token(token, other) {
                    return false;
                }
                word = more;
                text = rest;
            }
        }
    }
    true
}

fn has_token(text: &[u8]) -> bool
    ensures { result ≡ has_some (text_tokens text.now) }
{
    match next_token(text) {
        Some(_) => true,
        None => false,
    }
}

// Whether the tokens of a word stand one after another among those of a text.
fn stands_somewhere(word: &[u8], text: &[u8]) -> bool
    ensures { result ≡ some_end (begins (text_tokens word.now)) (text_tokens text.now) }
{
    let mut text = text;
    loop {
        if begins(word, text) {
            return true;
        }
        match next_token(text) {
            None => return false,
            Some((_, rest)) => text = rest,
        }
    }
}

/// Whether the tokens of a word, one at least, stand one after another among those of a text.
pub(crate) fn stands(word: &[u8], text: &[u8]) -> bool
    ensures { result ≡ stands word.now text.now }
{
    has_token(word) && stands_somewhere(word, text)
}
