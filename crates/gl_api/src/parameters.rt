// The parameters of a search.
ghost use Rattle.std.specs.Prelude.{◌≡◌, ◌==◌, [], map, unwrap_or, IfOk, None};
ghost use Rattle.std.specs.List.{slice_split};
ghost use Rattle.form_urlencoded.specs.Form.{raw_pairs};
ghost use Rattle.gl_api.specs.declared.parameters.Parameter.TheVariants.{Streams, Limit, Query};
ghost use Rattle.gl_api.specs.declared.parameters.Unasked.TheVariants.{OutOfMemory};
ghost use Rattle.gl_api.specs.Parameters.{all_ids, chosen_in, first_value, given, ids_in, number_in, page_size_in, parameter_name, request_of, text_pair, value_of, Reads};

use form_urlencoded::parse;
use gl_base::whole::digits_within;
use gl_base::{Items, Text};
use gl_text::read_id;
use std::alloc::{AllocError, Global};

/// How many digits a number has at most.
const MAX_DIGITS: usize = 15;

/// What these digits write at most.
const MAX_NUMBER: u64 = 999_999_999_999_999;

/// How many messages a page has at most.
const MAX_PAGE: u64 = 1_000;

/// How many a page has where no number is given.
const PAGE: u64 = 50;

/// The parameters that a search knows.
#[derive(Clone, Copy)]
pub enum Parameter {
    Streams,
    From,
    To,
    Offset,
    Limit,
    Query,
}

/// What a search asks for.
#[derive(Drop)]
pub struct Request {
    /// The ids of the streams that were chosen, if any were.
    pub chosen: Option<Items<u64>>,
    /// The first moment, in milliseconds since 1970.
    pub from: u64,
    /// The moment behind the last.
    pub to: u64,
    /// How many of the messages that are found are left out before the page.
    pub offset: u64,
    /// How many messages the page has at most: 0 to 1,000.
    pub limit: u64,
    /// The text of the query, which isn't read yet.
    pub query: Text,
}

/// Why a text asks for no search.
#[derive(Clone, Copy)]
pub enum Unasked {
    /// The first parameter, in the order of `Parameter`, whose value isn't of its form.
    Bad(Parameter),
    OutOfMemory,
}

impl From<AllocError> for Unasked {
    ghost from_gives = { λ _ e. e ≡ OutOfMemory };

    fn from(_: AllocError) -> Unasked {
        Unasked::OutOfMemory
    }
}

impl Parameter {
    /// Its name in a text.
    pub fn name(self) -> &'static str
        ensures { result.now ≡ parameter_name self }
    {
        match self {
            Parameter::Streams => "streams",
            Parameter::From => "from",
            Parameter::To => "to",
            Parameter::Offset => "offset",
            Parameter::Limit => "limit",
            Parameter::Query => "q",
        }
    }
}

// The value of the first pair of this name.
fn first_value(alloc: Global, text: &str, name: &str) -> Result<Option<Text>, AllocError>
    ensures { IfOk result (λ o. o ≡ first_value name.now (map text_pair (raw_pairs text.now))) }
{
    for pair in parse(alloc, text.as_bytes()) {
        let (key, value) = pair?;
        if key.as_str() == name {
            return Ok(Some(Text::from_str(alloc, value.as_str())?));
        }
    }
    Ok(None)
}

fn value_of(alloc: Global, text: &str, parameter: Parameter) -> Result<Option<Text>, AllocError>
    ensures { IfOk result (λ o. o ≡ value_of text.now parameter) }
{
    first_value(alloc, text, parameter.name())
}

// The number that 1 to 15 digits write.
fn number_in(text: &str) -> Option<u64>
    ensures { result ≡ number_in text.now }
{
    if text.is_empty() || text.len() > MAX_DIGITS {
        return None;
    }
    digits_within(0, text.as_bytes(), MAX_NUMBER)
}

fn page_size_in(text: &str) -> Option<u64>
    ensures { result ≡ page_size_in text.now }
{
    let number = number_in(text)?;
    if number > MAX_PAGE {
        return None;
    }
    Some(number)
}

fn pieces(alloc: Global, text: &str) -> Result<Vec<&str>, AllocError>
    ensures { IfOk result (λ v. map (λ x. x.now) v.items ≡ slice_split (λ b. b == 44) text.now) }
{
    text.split(',').collect(alloc)
}

fn ids_of(alloc: Global, texts: &[&str]) -> Result<Option<Items<u64>>, AllocError>
    ensures { IfOk result (λ ids. ids ≡ all_ids (map (λ x. x.now) texts.now)) }
{
    let mut ids = Items::new(alloc);
    for text in texts {
        let Some(id) = read_id(text) else {
            return Ok(None);
        };
        ids.push(id)?;
    }
    Ok(Some(ids))
}

fn ids_in(alloc: Global, text: &str) -> Result<Option<Items<u64>>, AllocError>
    ensures { IfOk result (λ ids. ids ≡ ids_in text.now) }
{
    let texts = pieces(alloc, text)?;
    ids_of(alloc, texts.as_slice())
}

fn chosen(alloc: Global, text: &str) -> Result<Option<Items<u64>>, Unasked>
    ensures { Reads result (given text.now Streams chosen_in None) }
{
    match value_of(alloc, text, Parameter::Streams)? {
        None => Ok(None),
        Some(value) => match ids_in(alloc, value.as_str())? {
            None => Err(Unasked::Bad(Parameter::Streams)),
            Some(ids) => Ok(Some(ids)),
        },
    }
}

fn number(alloc: Global, text: &str, parameter: Parameter, default: u64) -> Result<u64, Unasked>
    ensures { Reads result (given text.now parameter number_in default) }
{
    match value_of(alloc, text, parameter)? {
        None => Ok(default),
        Some(value) => match number_in(value.as_str()) {
            None => Err(Unasked::Bad(parameter)),
            Some(number) => Ok(number),
        },
    }
}

fn page_size(alloc: Global, text: &str) -> Result<u64, Unasked>
    ensures { Reads result (given text.now Limit page_size_in 50) }
{
    match value_of(alloc, text, Parameter::Limit)? {
        None => Ok(PAGE),
        Some(value) => match page_size_in(value.as_str()) {
            None => Err(Unasked::Bad(Parameter::Limit)),
            Some(number) => Ok(number),
        },
    }
}

fn query(alloc: Global, text: &str) -> Result<Text, AllocError>
    ensures { IfOk result (λ query. query ≡ unwrap_or (value_of text.now Query) []) }
{
    match value_of(alloc, text, Parameter::Query)? {
        None => Text::from_str(alloc, ""),
        Some(value) => Ok(value),
    }
}

/// The search that the text behind a `?` asks for. Of repeated parameters the first counts, and unknown ones don't.
#[tactic(auto, unfolding(crate::specs::Parameters::request_of))]
pub fn request_in(alloc: Global, text: &str) -> Result<Request, Unasked>
    ensures { Reads result (request_of text.now) }
{
    let chosen = chosen(alloc, text)?;
    let from = number(alloc, text, Parameter::From, 0)?;
    let to = number(alloc, text, Parameter::To, u64::MAX)?;
    let offset = number(alloc, text, Parameter::Offset, 0)?;
    let limit = page_size(alloc, text)?;
    let query = query(alloc, text)?;
    Ok(Request {
        chosen,
        from,
        to,
        offset,
        limit,
        query,
    })
}
