//! What a browser is answered: a page, that it has the page already, or why there is none.

mod page;
mod replies;
mod tags;

pub use page::Page;
pub use replies::{is_fresh, is_read, reply};
pub use tags::{entity_tag, names};
