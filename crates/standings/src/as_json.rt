//! What is printed of the answers of a hall's desks, as JSON.

ghost use Rattle.std.specs.Prelude.{◌≡◌, ◌≤◌, IfOk, OnOk, flat_map, length};
ghost use Rattle.json.specs.{Json.string, Tree.json_tokens, Tree.members_tokens};
ghost use Rattle.client.specs.Printing.{refusal_name};
ghost use Rattle.wire.specs.Spelling.{lengths_of};
ghost use Rattle.standings.specs.AsJson.{difference_json, differs_json, other_json, fault_members};
ghost use Rattle.standings.specs.AsJson.{hall_json, lag_json, lag_of, lags_json, list_of};
ghost use Rattle.standings.specs.AsJson.{meaning_members, natural, polled_json, promised_json};
ghost use Rattle.standings.specs.{AsJson.reply_members, AsText.role_name, Written.Adds};
ghost use Rattle.standings.specs.Reports.{ReadsBack, json_line, json_text};
ghost use Rattle.standings.specs.declared.polled.StatusReply.TheVariants as reply;

use crate::as_text::{in_order, role_name};
use crate::meaning::{
    answered, behind_by, difference, every_desk, is_majority, size_of, status_of,
};
use crate::polled::{PolledDesk, StatusReply};
use acceptor::ballot::Ballot;
use client::refusal_name;
use json::Writer;
use std::alloc::{AllocError, Global};
use wire::{ClientRefusal, DeskRole, DeskStatus, Difference, Lengths};

fn write_natural(out: &mut Writer, number: u32) -> Result<(), AllocError>
    ensures { OnOk result (Adds out.old out.new (json_tokens (natural number))) }
{
    out.u64(u64::from(number))
}

fn write_byte(out: &mut Writer, number: u8) -> Result<(), AllocError>
    ensures { OnOk result (Adds out.old out.new (json_tokens (natural number))) }
{
    out.u64(u64::from(number))
}

fn write_role(out: &mut Writer, role: DeskRole) -> Result<(), AllocError>
    ensures { OnOk result (Adds out.old out.new (json_tokens (string (role_name role)))) }
{
    out.string(role_name(role))
}

fn write_refusal(out: &mut Writer, refusal: ClientRefusal) -> Result<(), AllocError>
    ensures { OnOk result (Adds out.old out.new (json_tokens (string (refusal_name refusal)))) }
{
    out.string(refusal_name(refusal))
}

/// Writes the ballot that a desk has promised, or null.
fn write_promised(out: &mut Writer, promised: Option<Ballot>) -> Result<(), AllocError>
    ensures { OnOk result (Adds out.old out.new (json_tokens (promised_json promised))) }
{
    let Some(ballot) = promised else {
        return out.null();
    };
    out.begin_object()?;
    out.key("round")?;
    write_natural(out, ballot.number)?;
    out.key("desk")?;
    write_byte(out, ballot.desk)?;
    out.end_object()
}

/// Writes the lengths of the hall's logs that were reported to a desk.
fn write_told(out: &mut Writer, told: Lengths) -> Result<(), AllocError>
    ensures { OnOk result
        (Adds out.old out.new (json_tokens (list_of natural (lengths_of told)))) }
{
    out.begin_array()?;
    for length in told.as_slice() {
        write_natural(out, *length)?;
    }
    out.end_array()
}

/// Writes how a desk is, and the end of its object.
fn write_standing(out: &mut Writer, desk: u8, standing: DeskStatus) -> Result<(), AllocError>
    ensures { OnOk result (Adds out.old out.new
        (members_tokens (reply_members (reply.Stands desk standing)))) }
{
    out.key("desk")?;
    write_byte(out, desk)?;
    out.key("role")?;
    write_role(out, standing.role)?;
    out.key("commands")?;
    write_natural(out, standing.length)?;
    out.key("waiting")?;
    write_byte(out, standing.waiting)?;
    out.key("promised")?;
    write_promised(out, standing.promised)?;
    out.key("told")?;
    write_told(out, standing.told)?;
    out.end_object()
}

/// Writes why it isn't known how a desk is, and the end of its object.
fn write_fault(out: &mut Writer, name: &str) -> Result<(), AllocError>
    ensures { OnOk result (Adds out.old out.new (members_tokens (fault_members name.now))) }
{
    out.key("fault")?;
    out.string(name)?;
    out.end_object()
}

/// Writes that a desk is of an earlier program, and the end of its object.
fn write_earlier(out: &mut Writer, desk: u8) -> Result<(), AllocError>
    ensures { OnOk result (Adds out.old out.new
        (members_tokens (reply_members (reply.Earlier desk)))) }
{
    out.key("desk")?;
    write_byte(out, desk)?;
    write_fault(out, "an earlier program")
}

/// Writes that a desk refused, and the end of its object.
fn write_refused(out: &mut Writer, refusal: ClientRefusal) -> Result<(), AllocError>
    ensures { OnOk result (Adds out.old out.new
        (members_tokens (reply_members (reply.Refused refusal)))) }
{
    out.key("fault")?;
    out.string("refused")?;
    out.key("refusal")?;
    write_refusal(out, refusal)?;
    out.end_object()
}

/// Writes what came of asking a desk, and the end of its object.
fn write_reply(out: &mut Writer, reply: &StatusReply) -> Result<(), AllocError>
    ensures { OnOk result (Adds out.old out.new (members_tokens (reply_members reply.now))) }
{
    match reply {
        StatusReply::Stands { desk, standing } => write_standing(out, *desk, *standing),
        StatusReply::Earlier { desk } => write_earlier(out, *desk),
        StatusReply::CannotConnect => write_fault(out, "cannot connect"),
        StatusReply::NoAnswer => write_fault(out, "no answer"),
        StatusReply::Late => write_fault(out, "no answer in time"),
        StatusReply::NoKey => write_fault(out, "the desk has no key"),
        StatusReply::OtherKey => write_fault(out, "the desk has another key"),
        StatusReply::HasKey => write_fault(out, "the desk has a key"),
        StatusReply::Refused { refusal } => write_refused(out, *refusal),
    }
}

/// Writes a desk that was asked.
fn write_polled(out: &mut Writer, polled: &PolledDesk<'_>) -> Result<(), AllocError>
    ensures { OnOk result (Adds out.old out.new (json_tokens (polled_json polled.now))) }
{
    out.begin_object()?;
    out.key("asked")?;
    write_byte(out, polled.asked)?;
    out.key("address")?;
    out.string(polled.address)?;
    write_reply(out, &polled.reply)
}

/// Writes the desks that were asked.
fn write_desks(out: &mut Writer, polled: &[PolledDesk<'_>]) -> Result<(), AllocError>
    ensures { OnOk result
        (Adds out.old out.new (json_tokens (list_of polled_json polled.now))) }
{
    out.begin_array()?;
    for one in polled {
        write_polled(out, one)?;
    }
    out.end_array()
}

/// Writes how many commands a desk lacks.
fn write_lag(out: &mut Writer, desk: u8, by: u32) -> Result<(), AllocError>
    ensures { OnOk result (Adds out.old out.new (json_tokens (lag_json desk by))) }
{
    out.begin_object()?;
    out.key("desk")?;
    write_byte(out, desk)?;
    out.key("commands")?;
    write_natural(out, by)?;
    out.end_object()
}

/// Writes what a desk lacks, where it lacks any.
fn write_lag_of(out: &mut Writer, polled: &[PolledDesk<'_>], desk: u8) -> Result<(), AllocError>
    ensures { OnOk result
        (Adds out.old out.new (flat_map json_tokens (lag_of polled.now desk))) }
{
    let by = behind_by(polled, desk);
    if by == 0 {
        Ok(())
    } else {
        write_lag(out, desk, by)
    }
}

/// Writes the desks that are behind.
fn write_lags(out: &mut Writer, polled: &[PolledDesk<'_>]) -> Result<(), AllocError>
    ensures { OnOk result (Adds out.old out.new (json_tokens (lags_json polled.now))) }
{
    let desks = every_desk();
    out.begin_array()?;
    for desk in &desks {
        write_lag_of(out, polled, *desk)?;
    }
    out.end_array()
}

/// Writes which desk has another command, and where.
fn write_other(out: &mut Writer, desk: u8, position: u32) -> Result<(), AllocError>
    ensures { OnOk result (Adds out.old out.new (json_tokens (other_json desk position))) }
{
    out.begin_object()?;
    out.key("desk")?;
    write_byte(out, desk)?;
    out.key("position")?;
    write_natural(out, position)?;
    out.end_object()
}

/// Writes how a desk differs.
fn write_differs(out: &mut Writer, difference: Difference) -> Result<(), AllocError>
    ensures { OnOk result (Adds out.old out.new (json_tokens (differs_json difference))) }
{
    match difference {
        Difference::OtherEntry { desk, position } => write_other(out, desk, position),
        Difference::Shorter { desk, length } => write_lag(out, desk, length),
    }
}

/// Writes how a desk differs, or null.
fn write_difference(out: &mut Writer, differs: Option<Difference>) -> Result<(), AllocError>
    ensures { OnOk result (Adds out.old out.new (json_tokens (difference_json differs))) }
{
    match differs {
        Some(difference) => write_differs(out, difference),
        None => out.null(),
    }
}

/// Writes what the answers come to, and the end of the object.
fn write_meaning(out: &mut Writer, polled: &[PolledDesk<'_>]) -> Result<(), AllocError>
    requires { length polled.now ≤ 5 }
    ensures { OnOk result (Adds out.old out.new (members_tokens (meaning_members polled.now))) }
{
    out.key("size")?;
    write_natural(out, size_of(polled))?;
    out.key("answered")?;
    write_natural(out, answered(polled))?;
    out.key("majority")?;
    out.boolean(is_majority(polled))?;
    out.key("in_order")?;
    out.boolean(in_order(polled))?;
    out.key("behind")?;
    write_lags(out, polled)?;
    out.key("differs")?;
    write_difference(out, difference(polled))?;
    out.key("status")?;
    write_byte(out, status_of(polled))?;
    out.end_object()
}

fn write_hall(out: &mut Writer, hall: u32, polled: &[PolledDesk<'_>]) -> Result<(), AllocError>
    requires { length polled.now ≤ 5 }
    ensures { OnOk result (Adds out.old out.new (json_tokens (hall_json hall polled.now))) }
{
    out.begin_object()?;
    out.key("hall")?;
    write_natural(out, hall)?;
    out.key("desks")?;
    write_desks(out, polled)?;
    write_meaning(out, polled)
}

/// The JSON object of the desks that were asked, at most five.
fn json_text(alloc: Global, hall: u32, polled: &[PolledDesk<'_>]) -> Result<Vec<u8>, AllocError>
    requires { length polled.now ≤ 5 }
    ensures text { IfOk result (λ text. text.items ≡ json_text hall polled.now) }
    ensures reads_back { OnOk result (ReadsBack hall polled.now) }
{
    let mut out = Writer::new(Vec::new(alloc));
    write_hall(&mut out, hall, polled)?;
    Ok(out.into_inner())
}

/// The JSON object of the desks of a hall that were asked, at most five, without white space, and a
/// line feed. docs/FORMATS.md names its members.
pub fn json_line(alloc: Global, hall: u32, polled: &[PolledDesk<'_>]) -> Result<Vec<u8>, AllocError>
    requires { length polled.now ≤ 5 }
    ensures line { IfOk result (λ text. text.items ≡ json_line hall polled.now) }
    ensures reads_back { OnOk result (ReadsBack hall polled.now) }
{
    let mut text = json_text(alloc, hall, polled)?;
    text.extend_from_slice(b"\n")?;
    Ok(text)
}
