// Routes, by the target of a request.
ghost use Rattle.std.specs.Prelude.{◌≡◌, ◌==◌, IfOk, option_map};
ghost use Rattle.std.specs.List.{list_any};
ghost use Rattle.std.specs.Str.Lossy.{utf8_lossy};
ghost use Rattle.percent_encoding.specs.Percent as percent;
ghost use Rattle.gl_http.specs.Routes as routes;

use gl_base::Text;
use percent_encoding::percent_decode;
use std::alloc::{AllocError, Global};

/// What a request asks for.
#[derive(Debug, Drop)]
pub enum Route {
    /// `POST /gelf`: a message.
    Gelf,
    /// `POST /api/commands`.
    Commands,
    /// `GET /api/search`, with the query as it was sent: what stands behind the first `?`, which may be empty.
    Search(Text),
    /// `GET /api/streams`.
    Streams,
    /// `GET /api/system`.
    System,
    /// `GET /api/rules/NAME`, with the name percent-decoded (RFC 3986, section 2.1).
    Rule(Text),
    /// `GET /api/pipelines/NAME`, with the name percent-decoded.
    Pipeline(Text),
}

// A target's path and query.
fn split_target(target: &str) -> (&str, &str)
    ensures path { result.0.now ≡ routes.path_of target.now }
    ensures query { result.1.now ≡ routes.query_of target.now }
{
    match target.split_once('?') {
        Some(parts) => parts,
        None => (target, ""),
    }
}

fn decoded(alloc: Global, text: &str) -> Result<Text, AllocError>
    ensures { IfOk result (λ name. name ≡ utf8_lossy (percent.percent_decode text.now)) }
{
    let name = percent_decode(text.as_bytes())
        .decode_utf8_lossy(alloc)?
        .into_owned(alloc)?;
    Ok(Text::from_string(name))
}

fn has_slash(bytes: &[u8]) -> bool
    ensures { result ≡ list_any (λ b. b == 47) bytes.now }
{
    bytes.contains(&b'/')
}

fn is_segment(text: &str) -> bool
    ensures { result ≡ routes.is_segment text.now }
{
    if text.is_empty() {
        return false;
    }
    !has_slash(text.as_bytes())
}

fn after_text<'p>(front: &str, path: &'p str) -> Option<&'p str>
    ensures { option_map (λ s. s.now) result ≡ routes.after_text front.now path.now }
{
    path.strip_prefix(front)
}

fn name_under(alloc: Global, front: &str, path: &str) -> Result<Option<Text>, AllocError>
    ensures { IfOk result (λ o. o ≡ routes.name_under front.now path.now) }
{
    match after_text(front, path) {
        Some(text) => {
            if !is_segment(text) {
                return Ok(None);
            }
            Ok(Some(decoded(alloc, text)?))
        }
        None => Ok(None),
    }
}

fn named_route(alloc: Global, path: &str) -> Result<Option<Route>, AllocError>
    ensures { IfOk result (λ o. o ≡ routes.named_route path.now) }
{
    if let Some(name) = name_under(alloc, "/api/rules/", path)? {
        return Ok(Some(Route::Rule(name)));
    }
    if let Some(name) = name_under(alloc, "/api/pipelines/", path)? {
        return Ok(Some(Route::Pipeline(name)));
    }
    Ok(None)
}

fn path_route(alloc: Global, path: &str, query: &str) -> Result<Option<Route>, AllocError>
    ensures { IfOk result (λ o. o ≡ routes.path_route path.now query.now) }
{
    match path {
        "/gelf" => Ok(Some(Route::Gelf)),
        "/api/commands" => Ok(Some(Route::Commands)),
        "/api/search" => Ok(Some(Route::Search(Text::from_str(alloc, query)?))),
        "/api/streams" => Ok(Some(Route::Streams)),
        "/api/system" => Ok(Some(Route::System)),
        _ => named_route(alloc, path),
    }
}

impl Route {
    /// The route of a request's target, `None` where no route has it. `Err` is want of memory.
    pub fn of_target(alloc: Global, target: &str) -> Result<Option<Route>, AllocError>
        ensures { IfOk result (λ o. o ≡ routes.route_of target.now) }
    {
        let (path, query) = split_target(target);
        path_route(alloc, path, query)
    }

    /// Whether its method is POST; the others' is GET.
    pub fn takes_post(&self) -> bool
        ensures { result ≡ routes.takes_post self.now }
    {
        match self {
            Route::Gelf | Route::Commands => true,
            Route::Search(_) | Route::Streams | Route::System => false,
            Route::Rule(_) | Route::Pipeline(_) => false,
        }
    }

    /// Whether this is the route's method (RFC 9110, section 9), by its exact bytes.
    pub fn is_method(&self, method: &[u8]) -> bool
        ensures { result ≡ routes.has_method self.now method.now }
    {
        if self.takes_post() {
            method == b"POST".as_slice()
        } else {
            method == b"GET".as_slice()
        }
    }
}
