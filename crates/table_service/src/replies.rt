//! Responses.

ghost use Rattle.std.specs.Prelude.{◌≡◌, ◌++◌, ◌∷◌, [], IsTrue, OnOk};
ghost use Rattle.http_header.specs.FieldValue.{is_visible_text};
ghost use Rattle.http_server.specs.Response.{IsBlank, fields_of};
ghost use Rattle.table_service.specs.Replies.{IsProblem, Writes, kind, kind_of, line_of, security};
ghost use Rattle.table_service.specs.Replies.{status_of};

use crate::plan::{PageReply, PageStatus, Problem};
use bytes::Bytes;
use http::header::HeaderValueError;
use http::{HeaderName, HeaderValue, StatusCode, header};
use http_server::Response;
use std::alloc::AllocError;
use table_views::{script, style};

/// What pages may load and where forms may go.
const POLICY: &str = "default-src 'none'; script-src 'self'; style-src 'self'; \
    connect-src 'self'; form-action 'self'; base-uri 'none'; frame-ancestors 'none'";

/// The page that is sent where there is no page: it leads back.
const NOT_FOUND: &[u8] = b"\
<!DOCTYPE html>
<html lang=\"en\"><head><meta charset=\"utf-8\">
<meta name=\"viewport\" content=\"width=device-width, initial-scale=1\">
<title>No such page</title><link rel=\"stylesheet\" href=\"/table.css\"></head>
<body class=\"hall\">
<main><h1>No such page</h1>
<p>No page has this address, its round was not opened, or nobody has its number.</p>
<p><a href=\"/\">all rounds</a></p>
</main></body></html>
";

/// Adds a field after the others.
fn add(response: &mut Response, name: HeaderName, text: &'static str) -> Result<(), AllocError>
    requires plain { IsTrue (is_visible_text text.now) }
    ensures status { response.new.status ≡ response.old.status }
    ensures headers { OnOk result
        (fields_of response.new ≡ fields_of response.old ++ (name, text.now) ∷ []) }
    ensures body { response.new.body ≡ response.old.body }
{
    response.add_header(name, HeaderValue::from_static(text))
}

/// The fields that each answer has.
fn secure(response: &mut Response) -> Result<(), AllocError>
    ensures status { response.new.status ≡ response.old.status }
    ensures headers { OnOk result (fields_of response.new ≡ fields_of response.old ++ security) }
    ensures body { response.new.body ≡ response.old.body }
{
    add(response, header::CONTENT_SECURITY_POLICY, POLICY)?;
    add(response, header::X_CONTENT_TYPE_OPTIONS, "nosniff")?;
    add(response, header::REFERRER_POLICY, "same-origin")?;
    add(response, header::CACHE_CONTROL, "no-store")
}

/// A body of a kind.
fn tell(response: &mut Response, text: &'static str, body: Bytes) -> Result<(), AllocError>
    requires plain { IsTrue (is_visible_text text.now) }
    ensures status { response.new.status ≡ response.old.status }
    ensures headers { OnOk result (fields_of response.new
        ≡ (fields_of response.old ++ security) ++ kind text.now ∷ []) }
    ensures body { OnOk result (response.new.body.items ≡ response.old.body.items ++ body) }
{
    secure(response)?;
    add(response, header::CONTENT_TYPE, text)?;
    response.body.push(body)
}

/// The status and the text of a problem.
#[tactic(auto, unfolding(crate::specs::Replies::not_found))]
fn status_of(problem: Problem) -> (StatusCode, &'static [u8])
    ensures status { result.0 ≡ status_of problem }
    ensures line { result.1.now ≡ line_of problem }
{
    match problem {
        Problem::BadForm => (StatusCode::BAD_REQUEST, b"400 Bad Request\n"),
        Problem::Foreign => (
            StatusCode::FORBIDDEN,
            b"Not taken: the page is not of this score table, or was loaded before its last start. \
Go back, load the page again, and send it again.\n",
        ),
        Problem::NotFound => (StatusCode::NOT_FOUND, NOT_FOUND),
        Problem::Method => (StatusCode::METHOD_NOT_ALLOWED, b"405 Method Not Allowed\n"),
        Problem::Busy => (
            StatusCode::SERVICE_UNAVAILABLE,
            b"Not taken: there is no room now. Go back, and send it again in a while.\n",
        ),
    }
}

/// What the text of a problem is: the page that leads back, or a line.
fn kind_of(problem: Problem) -> &'static str
    ensures plain { IsTrue (is_visible_text result.now) }
    ensures is { result.now ≡ kind_of problem }
{
    match problem {
        Problem::NotFound => "text/html; charset=utf-8",
        _ => "text/plain; charset=utf-8",
    }
}

/// A line of text, or the page that leads back.
pub(crate) fn tell_problem(response: &mut Response, problem: Problem) -> Result<(), AllocError>
    requires { IsBlank response.old }
    ensures { OnOk result (IsProblem problem response.new) }
{
    let (status, line) = status_of(problem);
    response.status = status;
    tell(response, kind_of(problem), Bytes::from_static(line))
}

/// Fills a response.
pub(crate) fn write(response: &mut Response, reply: PageReply) -> Result<(), AllocError>
    requires { IsBlank response.old }
    ensures { OnOk result (Writes reply response.new) }
{
    match reply {
        PageReply::Text(problem) => tell_problem(response, problem),
        PageReply::Html { status, page } => {
            response.status = match status {
                PageStatus::Asked => StatusCode::OK,
                PageStatus::Wrong => StatusCode::UNPROCESSABLE_ENTITY,
            };
            tell(response, "text/html; charset=utf-8", Bytes::from_vec(page)?)
        }
        PageReply::Style => tell(
            response,
            "text/css; charset=utf-8",
            Bytes::from_static(style().as_bytes()),
        ),
        PageReply::Script => tell(
            response,
            "text/javascript; charset=utf-8",
            Bytes::from_static(script().as_bytes()),
        ),
        PageReply::SeeOther { location } => {
            response.status = StatusCode::SEE_OTHER;
            secure(response)?;
            match HeaderValue::from_vec(location) {
                Ok(location) => response.add_header(header::LOCATION, location),
                Err(HeaderValueError::OutOfMemory) => Err(AllocError),
                Err(HeaderValueError::Invalid) => Ok(()),
            }
        }
    }
}
