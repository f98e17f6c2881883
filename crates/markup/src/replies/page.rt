//! A page as it is sent.

use bytes::Bytes;
use http::HeaderValue;

/// A page, and what is said of it.
#[derive(Drop)]
pub struct Page {
    /// As `text/html; charset=utf-8`.
    pub content_type: HeaderValue,
    /// As `no-cache`, or `immutable` for a page that never changes.
    pub cache_control: HeaderValue,
    /// Its entity tag, which is another one where the page is another one.
    pub tag: HeaderValue,
    pub body: Bytes,
}
