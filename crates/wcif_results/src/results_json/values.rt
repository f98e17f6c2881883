//! Results as JSON numbers.

ghost use Rattle.std.specs.Prelude.{◌≡◌, OnOk, Some, option_map};
ghost use Rattle.json.specs.Tree.{json_tokens};
ghost use Rattle.formats.specs.Results.{best_of};
ghost use Rattle.wcif_results.specs.results_json.Values.{advance_json, average_json, best_json};
ghost use Rattle.wcif_results.specs.results_json.Values.{cutoff_json, limit_json, name_json};
ghost use Rattle.wcif_results.specs.results_json.Values.{natural, one_member, values_json};
ghost use Rattle.wcif_results.specs.Written.{Adds};

use crate::average_result;
use crate::results::write_value;
use attempts::{NoMemory, Value};
use formats::{Advance, Averaged};
use json::Writer;

/// Writes a number.
pub(crate) fn write_natural(out: &mut Writer, number: u32) -> Result<(), NoMemory>
    ensures { OnOk result (Adds out.old out.new (json_tokens (natural number))) }
{
    out.u64(u64::from(number))
}

/// Writes a number of eight bits.
pub(crate) fn write_byte(out: &mut Writer, number: u8) -> Result<(), NoMemory>
    ensures { OnOk result (Adds out.old out.new (json_tokens (natural number))) }
{
    out.u64(u64::from(number))
}

/// Writes the attempts that are done.
pub(crate) fn write_values(out: &mut Writer, values: &[Value]) -> Result<(), NoMemory>
    ensures { OnOk result (Adds out.old out.new (json_tokens (values_json values.now))) }
{
    out.begin_array()?;
    for value in values {
        write_value(out, *value)?;
    }
    out.end_array()
}

/// Writes the best of the attempts, or null where there is none.
pub(crate) fn write_best(out: &mut Writer, values: &[Value], best: Value) -> Result<(), NoMemory>
    requires { best ≡ best_of values.now }
    ensures { OnOk result (Adds out.old out.new (json_tokens (best_json values.now))) }
{
    if values.is_empty() {
        out.null()
    } else {
        write_value(out, best)
    }
}

/// Writes the average, or null where there is none.
pub(crate) fn write_average(out: &mut Writer, average: Averaged) -> Result<(), NoMemory>
    ensures { OnOk result (Adds out.old out.new (json_tokens (average_json average))) }
{
    match average {
        Averaged::Missing => out.null(),
        other => out.i64(average_result(other)),
    }
}

/// Writes the bytes of a name.
fn write_text(out: &mut Writer, bytes: &[u8]) -> Result<(), NoMemory>
    ensures { OnOk result (Adds out.old out.new (json_tokens (name_json (Some bytes.now)))) }
{
    match str::from_utf8(bytes) {
        Ok(text) => out.string(text),
        Err(_) => out.null(),
    }
}

/// Writes a name, or null where there is none.
pub(crate) fn write_name(out: &mut Writer, name: Option<&[u8]>) -> Result<(), NoMemory>
    ensures { OnOk result (Adds out.old out.new
        (json_tokens (name_json (option_map (λ n. n.now) name.entry)))) }
{
    match name {
        Some(bytes) => write_text(out, bytes),
        None => out.null(),
    }
}

/// Writes a cutoff.
fn write_border(out: &mut Writer, attempts: u8, below: u32) -> Result<(), NoMemory>
    ensures { OnOk result (Adds out.old out.new
        (json_tokens (cutoff_json (Some (attempts, below))))) }
{
    out.begin_object()?;
    out.key("attempts")?;
    write_byte(out, attempts)?;
    out.key("below")?;
    write_natural(out, below)?;
    out.end_object()
}

/// Writes a cutoff, or null.
pub(crate) fn write_cutoff(out: &mut Writer, cutoff: Option<(u8, u32)>) -> Result<(), NoMemory>
    ensures { OnOk result (Adds out.old out.new (json_tokens (cutoff_json cutoff))) }
{
    match cutoff {
        Some((attempts, below)) => write_border(out, attempts, below),
        None => out.null(),
    }
}

/// Writes a time limit, or null.
pub(crate) fn write_limit(out: &mut Writer, limit: Option<u32>) -> Result<(), NoMemory>
    ensures { OnOk result (Adds out.old out.new (json_tokens (limit_json limit))) }
{
    match limit {
        Some(hundredths) => write_natural(out, hundredths),
        None => out.null(),
    }
}

/// Writes a number under a name, as an object of its own.
fn write_one(out: &mut Writer, name: &str, number: u32) -> Result<(), NoMemory>
    ensures { OnOk result (Adds out.old out.new (json_tokens (one_member name.now number))) }
{
    out.begin_object()?;
    out.key(name)?;
    write_natural(out, number)?;
    out.end_object()
}

/// Writes who advances, or null where nobody does.
pub(crate) fn write_advance(out: &mut Writer, advance: Advance) -> Result<(), NoMemory>
    ensures { OnOk result (Adds out.old out.new (json_tokens (advance_json advance))) }
{
    match advance {
        Advance::Final => out.null(),
        Advance::Top(number) => write_one(out, "top", u32::from(number)),
        Advance::Percent(percent) => write_one(out, "percent", u32::from(percent)),
    }
}
