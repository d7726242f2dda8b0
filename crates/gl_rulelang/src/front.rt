ghost use Rattle.std.specs.Prelude.{◌≡◌, ◌<◌, ◌≤◌, ◌-◌, [], ◌∷◌, length, take, drop, true, false, slice_index, option_map};
ghost use Rattle.gl_rulelang.specs.Tokens.{token_view};
ghost use Rattle.gl_rulelang.specs.Fronts.{Ends, front_of, front_view, word, word_front, numeral_front, string_front, slash, single, pair, message_front, punctuation};
ghost use Rattle.std.specs.Char.{is_ascii_digit};
ghost use Rattle.gl_rulelang.specs.Bytes.{string_len, is_letter};

use crate::rule::Binary;
use crate::text::{
    Class, before, behind, comment_len, is_blank, is_letter, number, quoted, run_len, string_len,
};
use crate::token::{Sign, Token};

/// What stands at the front of a text, with its length in bytes.
#[derive(Clone, Copy, Debug)]
pub enum Front<'t> {
    /// White space, or a comment.
    Blank(usize),
    Token(Token<'t>, usize),
    /// No token, and no comment.
    Bad,
}

/// A keyword, a word for a sign, or a name.
fn word_token(text: &str) -> Token<'_>
    ensures { token_view result ≡ word text.now }
{
    match text {
        "rule" => Token::Sign(Sign::Rule),
        "when" => Token::Sign(Sign::When),
        "then" => Token::Sign(Sign::Then),
        "end" => Token::Sign(Sign::End),
        "let" => Token::Sign(Sign::Let),
        "pipeline" => Token::Sign(Sign::Pipeline),
        "stage" => Token::Sign(Sign::Stage),
        "match" => Token::Sign(Sign::Match),
        "all" => Token::Sign(Sign::All),
        "either" => Token::Sign(Sign::Either),
        "pass" => Token::Sign(Sign::Pass),
        "true" => Token::Sign(Sign::True),
        "false" => Token::Sign(Sign::False),
        "not" => Token::Sign(Sign::Not),
        "and" => Token::Operator(Binary::And),
        "or" => Token::Operator(Binary::Or),
        _ => Token::Name(text),
    }
}

/// A sign of two bytes where this second one follows, else one of one byte, where there is one.
fn pair<'t>(second: u8, two: Token<'t>, one: Option<Token<'t>>, behind: &[u8]) -> Front<'t>
    ensures { front_view result ≡ pair second (token_view two.entry) (option_map token_view one.entry) behind.now }
{
    match behind {
        [next, ..] if *next == second => Front::Token(two, 2),
        _ => match one {
            Some(token) => Front::Token(token, 1),
            None => Front::Bad,
        },
    }
}

fn message_front<'t>(behind: &[u8]) -> Front<'t>
    ensures { front_view result ≡ message_front behind.now }
{
    if behind.starts_with(b"message") {
        Front::Token(Token::Sign(Sign::Message), 8)
    } else {
        Front::Bad
    }
}

/// A sign, by its first byte and what follows it.
fn punctuation<'t>(first: u8, behind: &[u8]) -> Front<'t>
    ensures { front_view result ≡ punctuation first behind.now }
{
    match first {
        b'(' => Front::Token(Token::Sign(Sign::Open), 1),
        b')' => Front::Token(Token::Sign(Sign::Close), 1),
        b',' => Front::Token(Token::Sign(Sign::Comma), 1),
        b';' => Front::Token(Token::Sign(Sign::Semicolon), 1),
        b':' => Front::Token(Token::Sign(Sign::Colon), 1),
        b'.' => Front::Token(Token::Sign(Sign::Dot), 1),
        b'+' => Front::Token(Token::Operator(Binary::Plus), 1),
        b'-' => Front::Token(Token::Operator(Binary::Minus), 1),
        b'*' => Front::Token(Token::Operator(Binary::Times), 1),
        b'%' => Front::Token(Token::Operator(Binary::Remainder), 1),
        b'=' => {
            let one = Some(Token::Sign(Sign::Assign));
            pair(b'=', Token::Operator(Binary::Equal), one, behind)
        }
        b'!' => {
            let one = Some(Token::Sign(Sign::Not));
            pair(b'=', Token::Operator(Binary::NotEqual), one, behind)
        }
        b'<' => {
            let one = Some(Token::Operator(Binary::Less));
            pair(b'=', Token::Operator(Binary::AtMost), one, behind)
        }
        b'>' => {
            let one = Some(Token::Operator(Binary::Greater));
            pair(b'=', Token::Operator(Binary::AtLeast), one, behind)
        }
        b'&' => pair(b'&', Token::Operator(Binary::And), None, behind),
        b'|' => pair(b'|', Token::Operator(Binary::Or), None, behind),
        b'$' => message_front(behind),
        _ => Front::Bad,
    }
}

/// What begins with `/`: a comment to the line's end, one up to `*/`, or the sign.
fn slash<'t>(behind: &[u8]) -> Front<'t>
    ensures { front_view result ≡ slash behind.now }
{
    match behind {
        [b'/', line @ ..] => Front::Blank(run_len(Class::Line, line) + 2),
        [b'*', comment @ ..] => match comment_len(comment) {
            Some(len) => Front::Blank(len + 2),
            None => Front::Bad,
        },
        _ => Front::Token(Token::Operator(Binary::Divide), 1),
    }
}

fn word_front(text: &str) -> Front<'_>
    requires { is_letter (slice_index text.now 0) ≡ true }
    ensures { front_view result ≡ word_front text.now }
{
    let len = run_len(Class::Name, text.as_bytes());
    Front::Token(word_token(before(text, len)), len)
}

fn numeral_front(text: &str) -> Front<'_>
    requires { is_ascii_digit (slice_index text.now 0) ≡ true }
    ensures { front_view result ≡ numeral_front text.now }
{
    let len = run_len(Class::Digit, text.as_bytes());
    match number(before(text, len)) {
        Some(value) => Front::Token(Token::Number(value), len),
        None => Front::Bad,
    }
}

/// What begins with a quote.
fn string_front(text: &str) -> Front<'_>
    requires some { 0 < length text.now }
    requires quote { slice_index text.now 0 ≡ 34 }
    ensures { front_view result ≡ string_front (string_len false (drop 1 text.now)) (drop 1 text.now) }
{
    let spelled = behind(text, 1);
    match string_len(spelled.as_bytes()) {
        Some(len) => Front::Token(Token::String(quoted(spelled, len)), len + 2),
        None => Front::Bad,
    }
}

/// What stands at the front of a text. It ends within the text, between two characters.
pub fn at_front(text: &str) -> Front<'_>
    ensures front { front_view result ≡ front_of text.now }
    ensures ends { Ends text.now (front_view result) }
{
    by_first_byte(text)
}

#[tactic(auto, unfolding(crate::specs::Fronts::front_of))]
fn by_first_byte(text: &str) -> Front<'_>
    ensures { front_view result ≡ front_of text.now }
{
    match text.as_bytes() {
        [] => Front::Bad,
        [first, behind @ ..] => {
            if is_blank(*first) {
                return Front::Blank(1);
            }
            if is_letter(*first) {
                return word_front(text);
            }
            if first.is_ascii_digit() {
                return numeral_front(text);
            }
            match *first {
                b'"' => string_front(text),
                b'/' => slash(behind),
                other => punctuation(other, behind),
            }
        }
    }
}
