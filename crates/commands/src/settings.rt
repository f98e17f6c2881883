//! Which settings a round of an event may have.

ghost use Rattle.std.specs.Prelude.{◌≡◌, IfNone, IsTrue};
ghost use Rattle.formats.specs.{Events.unit_of, Results.IsFormatOf};
ghost use Rattle.rounds.specs.Tables.{IsCutoff};
ghost use Rattle.texts.specs.Spelling.{IsFitCutoff};
ghost use Rattle.commands.specs.Accepted.{is_cutoff, is_limit, settings_refusal};

use crate::outcomes::is_multi;
use attempts::Unit;
use formats::{Event, Format, allowed, attempts_of, unit_of};
use texts::Code;

/// Whether a cutoff counts fewer attempts than the format has. Multi-blind has none.
fn is_cutoff(unit: Unit, format: Format, cutoff: Option<(u8, u32)>) -> bool
    ensures value { result ≡ is_cutoff unit format cutoff }
    ensures within { IsFitCutoff cutoff → IsTrue result → IsCutoff format cutoff }
{
    match cutoff {
        None => true,
        Some((attempts, _)) => !is_multi(unit) && attempts < attempts_of(format),
    }
}

/// Whether a limit is there where the event is timed, and not where it isn't.
fn is_limit(unit: Unit, limit: Option<u32>) -> bool
    ensures { result ≡ is_limit unit limit }
{
    match unit {
        Unit::Time => limit.is_some(),
        Unit::Moves | Unit::Multi => limit.is_none(),
    }
}

/// Why the settings of a round of an event are refused, where they are.
pub(crate) fn settings_refusal(
    event: Event,
    format: Format,
    cutoff: Option<(u8, u32)>,
    limit: Option<u32>,
) -> Option<Code>
    ensures value { result ≡ settings_refusal event format cutoff limit }
    ensures cutoff { IfNone result (IsFitCutoff cutoff → IsCutoff format cutoff) }
    ensures format { IfNone result (IsFormatOf (unit_of event) format) }
{
    if !allowed(event, format) {
        return Some(Code::FormatNotAllowed);
    }
    if !is_cutoff(unit_of(event), format, cutoff) {
        return Some(Code::CutoffNotAllowed);
    }
    if !is_limit(unit_of(event), limit) {
        return Some(Code::LimitNotAllowed);
    }
    None
}
