//! What is said of an export that is made.

ghost use Rattle.std.specs.Prelude.{◌≡◌};
ghost use Rattle.wcif_results.specs.Notes.{any_runs, is_running};

use formats::{Event, Format};
use std::fmt;
use wcif::Quoted;

/// What is said of an export that is made.
#[derive(Drop)]
pub enum ExportNote {
    /// The round is not closed.
    Running {
        event: Event,
        round: u8,
    },
    /// The file has no round with the id, and the round has no result.
    LeftOut {
        event: Event,
        round: u8,
    },
    /// The file's round has another format, or none.
    OtherFormat {
        event: Event,
        round: u8,
        format: Format,
        other: Quoted,
    },
}

impl fmt::Display for ExportNote {
    fn fmt<W: fmt::Write>(&self, f: &mut fmt::Formatter<W>) -> fmt::Result {
        match self {
            ExportNote::Running { event, round } => {
                write!(f, "{}-r{round}: the round still runs", event.name())
            }
            ExportNote::LeftOut { event, round } => write!(
                f,
                "{}-r{round}: left out: it has no result, and the file has no such round",
                event.name()
            ),
            ExportNote::OtherFormat {
                event,
                round,
                format,
                other,
            } => write!(
                f,
                "{}-r{round}: the format is {}, and in the file {other}",
                event.name(),
                format.name()
            ),
        }
    }
}

/// Whether it says that a round still runs.
fn is_running(note: &ExportNote) -> bool
    ensures { result ≡ is_running note.now }
{
    match note {
        ExportNote::Running { .. } => true,
        ExportNote::LeftOut { .. } => false,
        ExportNote::OtherFormat { .. } => false,
    }
}

/// Whether a round still runs.
pub fn any_runs(notes: &[ExportNote]) -> bool
    ensures { result ≡ any_runs notes.now }
{
    notes.iter().any(|note| is_running(note))
}
