//! How a round is run, and how far it is.

ghost use Rattle.std.specs.Prelude.{◌≡◌, ◌++◌, OnOk};
ghost use Rattle.attempts.specs.Texts.{value_text};
ghost use Rattle.round_words.specs.Words.{advance_words, cutoff_words, format_words, limit_words};
ghost use Rattle.round_words.specs.Words.{settings_words, state_words};

use attempts::{NoMemory, Unit, Value, print_value, push_decimal};
use formats::{Advance, Event, Format, unit_of};
use texts::Settings;

/// Adds a value as a sheet has it.
pub fn push_value(out: &mut Vec<u8>, value: Value, unit: Unit) -> Result<(), NoMemory>
    ensures { OnOk result (out.new.items ≡ out.old.items ++ value_text unit value) }
{
    let text = print_value(*out.allocator(), value, unit)?;
    out.extend_from_slice(&text)
}

/// How many attempts there are and what counts of them (WCA Regulations, article 9b).
pub fn format_words(format: Format) -> &'static str
    ensures { result.now ≡ format_words format }
{
    match format {
        Format::Ao5 => "average of 5",
        Format::Mo3 => "mean of 3",
        Format::Bo1 => "best of 1",
        Format::Bo2 => "best of 2",
        Format::Bo3 => "best of 3",
    }
}

fn push_cutoff(out: &mut Vec<u8>, unit: Unit, cutoff: Option<(u8, u32)>) -> Result<(), NoMemory>
    ensures { OnOk result (out.new.items ≡ out.old.items ++ cutoff_words unit cutoff) }
{
    let Some((attempts, border)) = cutoff else {
        return Ok(());
    };
    let border = print_value(*out.allocator(), Value::Number(border), unit)?;
    out.extend_from_slice(b", cutoff ")?;
    out.extend_from_slice(&border)?;
    out.extend_from_slice(b" in ")?;
    push_decimal(out, u32::from(attempts))
}

fn push_limit(out: &mut Vec<u8>, limit: Option<u32>) -> Result<(), NoMemory>
    ensures { OnOk result (out.new.items ≡ out.old.items ++ limit_words limit) }
{
    let Some(limit) = limit else {
        return Ok(());
    };
    let limit = print_value(*out.allocator(), Value::Number(limit), Unit::Time)?;
    out.extend_from_slice(b", limit ")?;
    out.extend_from_slice(&limit)
}

fn push_advance(out: &mut Vec<u8>, advance: Advance) -> Result<(), NoMemory>
    ensures { OnOk result (out.new.items ≡ out.old.items ++ advance_words advance) }
{
    match advance {
        Advance::Final => Ok(()),
        Advance::Top(number) => {
            out.extend_from_slice(b", top ")?;
            push_decimal(out, u32::from(number))?;
            out.extend_from_slice(b" advance")
        }
        Advance::Percent(percent) => {
            out.extend_from_slice(b", top ")?;
            push_decimal(out, u32::from(percent))?;
            out.extend_from_slice(b"% advance")
        }
    }
}

/// Adds a round's settings, as `average of 5, cutoff 15.00 in 2, limit 10:00.00, top 12 advance`.
pub fn push_settings(out: &mut Vec<u8>, event: Event, settings: Settings) -> Result<(), NoMemory>
    ensures { OnOk result (out.new.items ≡ out.old.items ++ settings_words event settings) }
{
    out.extend_from_slice(format_words(settings.format).as_bytes())?;
    push_cutoff(out, unit_of(event), settings.cutoff)?;
    push_limit(out, settings.limit)?;
    push_advance(out, settings.advance)
}

/// How far a round is: `running`, `closed`, or `final result`.
pub fn state_words(closed: bool, advance: Advance) -> &'static str
    ensures { result.now ≡ state_words closed advance }
{
    match (closed, advance) {
        (false, _) => "running",
        (true, Advance::Final) => "final result",
        (true, Advance::Top(_) | Advance::Percent(_)) => "closed",
    }
}

/// Adds how far a round is.
pub fn push_state_words(out: &mut Vec<u8>, closed: bool, advance: Advance) -> Result<(), NoMemory>
    ensures { OnOk result (out.new.items ≡ out.old.items ++ state_words closed advance) }
{
    out.extend_from_slice(state_words(closed, advance).as_bytes())
}
