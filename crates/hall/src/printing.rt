//! What is printed of a hall.

ghost use Rattle.std.specs.Prelude.{◌≡◌, ◌++◌, ◌<◌, OnOk, codes, decimal};
ghost use Rattle.hall.specs.Texts.{number_field, ballot_field, vote_field, body_text, message_text};
ghost use Rattle.hall.specs.Texts.{messages_text, fault_name, refusal_text, entry_text};

use acceptor::NoMemory;
use acceptor::ballot::Ballot;
use acceptor::entry::Entry;
use acceptor::message::{Body, Message, Report};
use itoa::Buffer;
use replica::roles::NodeFault;

/// Adds a number in decimal.
fn push_number(out: &mut Vec<u8>, number: u64) -> Result<(), NoMemory>
    ensures { OnOk result (out.new.items ≡ out.old.items ++ decimal number) }
{
    let mut buffer = Buffer::new();
    out.extend_from_slice(buffer.format(number).as_bytes())
}

/// Adds a space and a number.
fn push_field(out: &mut Vec<u8>, number: u64) -> Result<(), NoMemory>
    ensures { OnOk result (out.new.items ≡ out.old.items ++ number_field number) }
{
    out.extend_from_slice(b" ")?;
    push_number(out, number)
}

/// Adds a space and a ballot, as `number.desk`.
fn push_ballot(out: &mut Vec<u8>, ballot: Ballot) -> Result<(), NoMemory>
    ensures { OnOk result (out.new.items ≡ out.old.items ++ ballot_field ballot) }
{
    out.extend_from_slice(b" ")?;
    push_number(out, u64::from(ballot.number))?;
    out.extend_from_slice(b".")?;
    push_number(out, u64::from(ballot.desk))
}

/// Adds a space and a vote: its ballot and the id of its entry; `-` where there is none.
fn push_vote(out: &mut Vec<u8>, vote: &Option<Report>) -> Result<(), NoMemory>
    ensures { OnOk result (out.new.items ≡ out.old.items ++ vote_field vote.now) }
{
    match vote {
        Some(report) => {
            push_ballot(out, report.ballot)?;
            push_field(out, report.entry.id())
        }
        None => out.extend_from_slice(b" -"),
    }
}

/// Adds a word, a ballot and a position.
fn push_asked(out: &mut Vec<u8>, kind: &[u8], ballot: Ballot, pos: u32) -> Result<(), NoMemory>
    ensures { OnOk result
        (out.new.items ≡ out.old.items ++ kind.now ++ ballot_field ballot ++ number_field pos) }
{
    out.extend_from_slice(kind)?;
    push_ballot(out, ballot)?;
    push_field(out, u64::from(pos))
}

/// Adds `Decided`, a position and an id.
fn push_decided(out: &mut Vec<u8>, pos: u32, id: u64) -> Result<(), NoMemory>
    ensures { OnOk result
        (out.new.items ≡ out.old.items ++ codes "Decided" ++ number_field pos ++ number_field id) }
{
    out.extend_from_slice(b"Decided")?;
    push_field(out, u64::from(pos))?;
    push_field(out, id)
}

/// Adds the kind of a message and its fields.
fn push_body(out: &mut Vec<u8>, body: &Body) -> Result<(), NoMemory>
    ensures { OnOk result (out.new.items ≡ out.old.items ++ body_text body.now) }
{
    match body {
        Body::Prepare { ballot, pos } => push_asked(out, b"Prepare", *ballot, *pos),
        Body::Promise { ballot, pos, vote } => {
            push_asked(out, b"Promise", *ballot, *pos)?;
            push_vote(out, vote)
        }
        Body::Accept { ballot, pos, entry } => {
            push_asked(out, b"Accept", *ballot, *pos)?;
            push_field(out, entry.id())
        }
        Body::Accepted { ballot, pos } => push_asked(out, b"Accepted", *ballot, *pos),
        Body::Nack {
            ballot,
            pos,
            promised,
        } => {
            push_asked(out, b"Nack", *ballot, *pos)?;
            push_ballot(out, *promised)
        }
        Body::Behind { len } => {
            out.extend_from_slice(b"Behind")?;
            push_field(out, u64::from(*len))
        }
        Body::Decided { pos, entry } => push_decided(out, *pos, entry.id()),
    }
}

/// Adds the line of a message with its number.
fn push_message(out: &mut Vec<u8>, number: usize, message: &Message) -> Result<(), NoMemory>
    ensures { OnOk result (out.new.items ≡ out.old.items ++ message_text number message.now) }
{
    out.extend_from_slice(b"m")?;
    push_number(out, number as u64)?;
    push_field(out, u64::from(message.from))?;
    push_field(out, u64::from(message.to))?;
    out.extend_from_slice(b" ")?;
    push_body(out, &message.body)?;
    out.extend_from_slice(b"\n")
}

/// Adds a line for each message after the first `told`.
pub fn push_messages(out: &mut Vec<u8>, told: usize, sent: &[Message]) -> Result<(), NoMemory>
    ensures { OnOk result (out.new.items ≡ out.old.items ++ messages_text told sent.now) }
{
    for place in told..sent.len() {
        push_message(out, place + 1, &sent[place])?;
    }
    Ok(())
}

/// The name of a refusal.
fn fault_name(fault: NodeFault) -> &'static [u8]
    ensures { result.now ≡ fault_name fault }
{
    match fault {
        NodeFault::Busy => b"Busy",
        NodeFault::LogFull => b"LogFull",
        NodeFault::BallotsSpent => b"BallotsSpent",
        NodeFault::NoMemory => b"NoMemory",
        NodeFault::Down => b"Down",
    }
}

/// Adds what is printed for a line whose event was refused, or was not.
pub fn push_refusal(
    out: &mut Vec<u8>,
    line: usize,
    refused: Option<NodeFault>,
) -> Result<(), NoMemory>
    ensures { OnOk result (out.new.items ≡ out.old.items ++ refusal_text line refused) }
{
    if let Some(fault) = refused {
        out.extend_from_slice(b"refused")?;
        push_field(out, line as u64)?;
        out.extend_from_slice(b" ")?;
        out.extend_from_slice(fault_name(fault))?;
        out.extend_from_slice(b"\n")?;
    }
    Ok(())
}

/// Adds the line of an entry of a desk's log.
pub fn push_entry(out: &mut Vec<u8>, desk: u8, pos: u32, entry: &Entry) -> Result<(), NoMemory>
    ensures { OnOk result (out.new.items ≡ out.old.items ++ entry_text desk pos entry.now) }
{
    out.extend_from_slice(b"desk")?;
    push_field(out, u64::from(desk))?;
    push_field(out, u64::from(pos))?;
    push_field(out, entry.id())?;
    out.extend_from_slice(b" ")?;
    out.extend_from_slice(entry.text())?;
    out.extend_from_slice(b"\n")
}
