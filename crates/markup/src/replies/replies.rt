//! The answer to a request for a page.

ghost use Rattle.std.specs.Prelude.{◌≡◌, ◌++◌, ◌∷◌, [], codes, OnOk};
ghost use Rattle.std.specs.Option.{option_copied};
ghost use Rattle.http_header.specs.HeaderMap.{get_all};
ghost use Rattle.http.specs.Request.{head_of};
ghost use Rattle.http_server.specs.Response.{IsBlank, IsResponse, fields_of};
ghost use Rattle.markup.specs.replies.Replies.{Replies, is_read, no_store, page_fields, text_field};
ghost use Rattle.markup.specs.replies.Tags.{is_fresh};

use crate::replies::page::Page;
use crate::replies::tags::names;
use bytes::Bytes;
use http::{HeaderValue, Method, Request, StatusCode, header};
use http_server::Response;
use std::alloc::AllocError;

/// Whether a method only reads: GET and HEAD do.
pub fn is_read(method: &Method) -> bool
    ensures { result ≡ is_read method.now }
{
    method.as_str() == "GET" || method.as_str() == "HEAD"
}

/// Whether `If-None-Match` names this tag, so that the browser has the page already.
pub fn is_fresh(request: &Request<Bytes>, tag: &HeaderValue) -> bool
    ensures { result ≡ is_fresh (get_all (head_of request.now).headers (codes "if-none-match"))
        tag.now.bytes }
{
    for value in request.headers().get_all(header::IF_NONE_MATCH).iter() {
        if names(value.as_bytes(), tag.as_bytes()) {
            return true;
        }
    }
    false
}

/// One line of text as the body.
fn tell(response: &mut Response, line: &'static [u8]) -> Result<(), AllocError>
    ensures status { response.new.status ≡ response.old.status }
    ensures headers { OnOk result
        (fields_of response.new ≡ fields_of response.old ++ text_field ∷ []) }
    ensures body { OnOk result (response.new.body.items ≡ response.old.body.items ++ line.now) }
{
    let kind = HeaderValue::from_static("text/plain; charset=utf-8");
    response.add_header(header::CONTENT_TYPE, kind)?;
    response.body.push(Bytes::from_static(line))
}

fn refuse_method(response: &mut Response) -> Result<(), AllocError>
    requires { IsBlank response.old }
    ensures { OnOk result (IsResponse 405
        ((codes "allow", codes "GET, HEAD") ∷ text_field ∷ [])
        (codes "405 Method Not Allowed\n") response.new) }
{
    response.status = StatusCode::METHOD_NOT_ALLOWED;
    response.add_header(header::ALLOW, HeaderValue::from_static("GET, HEAD"))?;
    tell(response, b"405 Method Not Allowed\n")
}

fn refuse_path(response: &mut Response) -> Result<(), AllocError>
    requires { IsBlank response.old }
    ensures { OnOk result (IsResponse 404 (no_store ∷ text_field ∷ []) (codes "404 Not Found\n")
        response.new) }
{
    response.status = StatusCode::NOT_FOUND;
    response.add_header(header::CACHE_CONTROL, HeaderValue::from_static("no-store"))?;
    tell(response, b"404 Not Found\n")
}

/// What is said of a page whether it is sent or not.
fn describe(page: &Page, response: &mut Response) -> Result<(), AllocError>
    ensures status { response.new.status ≡ response.old.status }
    ensures headers { OnOk result
        (fields_of response.new ≡ fields_of response.old ++ page_fields page.now) }
    ensures body { response.new.body ≡ response.old.body }
{
    response.add_header(header::ETAG, page.tag.clone()?)?;
    response.add_header(header::CACHE_CONTROL, page.cache_control.clone()?)
}

/// A browser that has the page already gets just that answer.
fn keep(page: &Page, response: &mut Response) -> Result<(), AllocError>
    requires { IsBlank response.old }
    ensures { OnOk result (IsResponse 304 (page_fields page.now) [] response.new) }
{
    response.status = StatusCode::NOT_MODIFIED;
    describe(page, response)
}

fn send(page: &Page, response: &mut Response) -> Result<(), AllocError>
    requires { IsBlank response.old }
    ensures { OnOk result (IsResponse 200
        ((codes "content-type", page.now.content_type.bytes) ∷ page_fields page.now)
        page.now.body response.new) }
{
    response.add_header(header::CONTENT_TYPE, page.content_type.clone()?)?;
    describe(page, response)?;
    response.body.push(page.body.clone()?)
}

/// Answers a request for a page, if one is at its path: with the page, with 304 where the browser
/// has it already, with 404 where there is none, which no browser is to keep, and with 405 where
/// the method is neither GET nor HEAD. The error is for memory alone.
pub fn reply(
    request: &Request<Bytes>,
    page: Option<&Page>,
    response: &mut Response,
) -> Result<(), AllocError>
    requires { IsBlank response.old }
    ensures { OnOk result (Replies request.now (option_copied page.entry) response.new) }
{
    if !is_read(request.method()) {
        return refuse_method(response);
    }
    let Some(page) = page else {
        return refuse_path(response);
    };
    if is_fresh(request, &page.tag) {
        return keep(page, response);
    }
    send(page, response)
}
