//! The answer to who asks of the desks of the hall.

ghost use Rattle.std.specs.Prelude.{◌≡◌, OnOk};
ghost use Rattle.http_server.specs.Response.{IsBlank, IsResponse};
ghost use Rattle.board_service.specs.Services.{fields_of};

use bytes::Bytes;
use http::{HeaderValue, header};
use http_server::Response;
use std::alloc::AllocError;

/// Sends a text of a kind, which nobody is to keep.
pub(crate) fn send_status(
    kind: HeaderValue,
    text: Vec<u8>,
    response: &mut Response,
) -> Result<(), AllocError>
    requires { IsBlank response.old }
    ensures { OnOk result (IsResponse 200 (fields_of kind.bytes) text.items response.new) }
{
    response.add_header(header::CONTENT_TYPE, kind)?;
    response.add_header(header::CACHE_CONTROL, HeaderValue::from_static("no-store"))?;
    response.body.push(Bytes::from_vec(text)?)
}
