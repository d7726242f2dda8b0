ghost use Rattle.std.specs.Prelude.{◌≡◌, length};
ghost use Rattle.gl_rulelang.specs.Cutting.{tokens_of, Cuts};

use crate::front::{Front, at_front};
use crate::refusal::TextRefusal;
use crate::token::Placed;
use std::alloc::Global;

/// The tokens of a text, each with its place in bytes.
pub fn cut<'t>(alloc: Global, text: &'t str) -> Result<Vec<Placed<'t>>, TextRefusal>
    ensures { Cuts (length text.now) result (tokens_of text.now) }
{
    let mut tokens = Vec::new(alloc);
    let mut rest = text;
    let mut at = 0;
    while !rest.is_empty() {
        match at_front(rest) {
            Front::Blank(len) => {
                rest = rest.split_at(len).1;
                at += len;
            }
            Front::Token(token, len) => {
                tokens.push(Placed { token, at })?;
                rest = rest.split_at(len).1;
                at += len;
            }
            Front::Bad => return Err(TextRefusal::BadToken { at: at as u64 }),
        }
    }
    Ok(tokens)
}
