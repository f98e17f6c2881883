//! Lines on standard error, each written at once or not at all, so that a reader that stops reading
//! holds nobody up.
#![tactic(auto)]

mod line;
mod prompt;

pub use line::tell_line;
pub use prompt::PromptLines;
