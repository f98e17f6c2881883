//! The pages of the board.

ghost use Rattle.std.specs.Prelude.{◌≡◌, IfOk, length};
ghost use Rattle.http_header.specs.FieldValue.{plain_value};
ghost use Rattle.markup.specs.replies.Tags.{tag_text};
ghost use Rattle.board_views.specs.Paths.{StandsAt};
ghost use Rattle.board_views.specs.Views.{kind_of, keeping_of, position_of, IsPageOf, IsPageAt};

use crate::bodies::body_of;
use crate::paths::View;
use acceptor::NoMemory;
use bytes::Bytes;
use http::HeaderValue;
use markup::replies::{Page, entity_tag};
use mirror::Mirror;
use std::alloc::{AllocError, Global};

/// What the body of a view is, as it is said to a browser.
fn kind_of(view: View) -> HeaderValue
    ensures { result ≡ plain_value (kind_of view) }
{
    match view {
        View::Table(_) | View::TableAt { .. } => HeaderValue::from_static(
            "text/csv; charset=utf-8",
        ),
        View::Log => HeaderValue::from_static("text/plain; charset=utf-8"),
        View::Style => HeaderValue::from_static("text/css; charset=utf-8"),
        View::Script => HeaderValue::from_static("text/javascript; charset=utf-8"),
        View::Overview
        | View::Hall
        | View::HallRound(_)
        | View::Round(_)
        | View::RoundAt { .. }
        | View::Person { .. }
        | View::Podiums
        | View::People => HeaderValue::from_static("text/html; charset=utf-8"),
    }
}

/// How long a browser may keep a view.
fn keeping_of(view: View) -> HeaderValue
    ensures { result ≡ plain_value (keeping_of view) }
{
    match view {
        View::RoundAt { .. } | View::TableAt { .. } => {
            HeaderValue::from_static("public, max-age=31536000, immutable")
        }
        _ => HeaderValue::from_static("no-cache"),
    }
}

/// The position of the log that a view is of.
fn position_of(mirror: &Mirror, view: View) -> u32
    ensures { result ≡ position_of mirror.now view }
{
    match view {
        View::RoundAt { position, .. } | View::TableAt { position, .. } => position,
        _ => mirror.len(),
    }
}

/// The entity tag of what is at a path at a position. A path of the board has only bytes that a
/// header field can have, so that it is refused only for memory.
fn tag_of(alloc: Global, position: u32, path: &[u8]) -> Result<HeaderValue, NoMemory>
    ensures { IfOk result (λ tag. tag ≡ plain_value (tag_text position path.now)) }
{
    match entity_tag(alloc, u64::from(position), path) {
        Ok(tag) => Ok(tag),
        Err(_) => Err(AllocError),
    }
}

/// The page of a view at its path.
fn page_of(
    alloc: Global,
    mirror: &Mirror,
    title: &[u8],
    path: &[u8],
    view: View,
) -> Result<Option<Page>, NoMemory>
    ensures { IfOk result (λ page. IsPageOf title.now mirror.now path.now view page) }
{
    let Some(body) = body_of(alloc, mirror, title, view)? else {
        return Ok(None);
    };
    let tag = tag_of(alloc, position_of(mirror, view), path)?;
    Ok(Some(Page {
        content_type: kind_of(view),
        cache_control: keeping_of(view),
        tag,
        body: Bytes::from_vec(body)?,
    }))
}

/// The page at a path of the board, made from the mirror as it is; none where no view is at the
/// path, where its round is not open, or where the log has not come so far as the path says.
///
/// What is at a position of the log may be kept for ever. Of all else a browser has to ask each
/// time; its entity tag is another one where the mirror has grown. NoMemory is for memory alone.
pub fn page_at(
    alloc: Global,
    mirror: &Mirror,
    title: &[u8],
    path: &[u8],
) -> Result<Option<Page>, NoMemory>
    ensures { IfOk result (λ page. IsPageAt title.now mirror.now path.now page) }
{
    match View::from_path(path) {
        Some(view) => page_of(alloc, mirror, title, path, view),
        None => Ok(None),
    }
}
