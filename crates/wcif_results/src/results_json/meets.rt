//! What is written of a meet.

ghost use Rattle.std.specs.Prelude.{◌≡◌, flat_map, IfOk, OnOk};
ghost use Rattle.json.specs.Tree.{json_tokens};
ghost use Rattle.wcif_results.specs.results_json.Meets.{event_list, meet_json, rounds_json};
ghost use Rattle.wcif_results.specs.{Files.IsTextOf, Written.Adds};

use crate::results_json::rounds_written::write_opened;
use attempts::NoMemory;
use commands::Meet;
use formats::Event;
use json::Writer;
use std::alloc::Global;

/// Writes the rounds of an event that were opened.
fn write_event(out: &mut Writer, meet: &Meet, event: Event) -> Result<(), NoMemory>
    ensures { OnOk result (Adds out.old out.new
        (flat_map json_tokens (event_list meet.now.accepted event))) }
{
    write_opened(out, meet, event, 1)?;
    write_opened(out, meet, event, 2)?;
    write_opened(out, meet, event, 3)?;
    write_opened(out, meet, event, 4)
}

/// Writes the list of all rounds that were opened.
fn write_rounds(out: &mut Writer, meet: &Meet) -> Result<(), NoMemory>
    ensures { OnOk result (Adds out.old out.new (json_tokens (rounds_json meet.now.accepted))) }
{
    out.begin_array()?;
    for event in &Event::ALL {
        write_event(out, meet, *event)?;
    }
    out.end_array()
}

/// Writes the results of a meet.
fn write_meet(out: &mut Writer, meet: &Meet) -> Result<(), NoMemory>
    ensures { OnOk result (Adds out.old out.new (json_tokens (meet_json meet.now.accepted))) }
{
    out.begin_object()?;
    out.key("rounds")?;
    write_rounds(out, meet)?;
    out.end_object()
}

/// The JSON of the results of a meet: one object, whose member `rounds` has each round that was
/// opened, in the order of the events' numbers and then of the rounds', with its settings and what
/// its sheet has of each entrant. There is no white space in it. docs/FORMATS.md says what each
/// member means, and docs/results.schema.json is its JSON Schema.
///
/// # Errors
///
/// `NoMemory` where memory ran out.
pub fn results_text(alloc: Global, meet: &Meet) -> Result<Vec<u8>, NoMemory>
    ensures { IfOk result (λ text. IsTextOf text.items (meet_json meet.now.accepted)) }
{
    let mut out = Writer::new(Vec::new(alloc));
    write_meet(&mut out, meet)?;
    Ok(out.into_inner())
}
