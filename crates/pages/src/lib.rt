//! Many browsers at once over HTTP/1.1, each of which is answered by one service.
#![tactic(auto)]

mod browsers;
pub mod laws;
mod listening;
mod table;
mod turns;
mod waiting;

pub use browsers::Browsers;
pub use listening::{TcpBrowsers, browsers_at, say_where};
pub use table::BrowserLimits;
