//! A command, or those of an input, entered at a desk.

ghost use Rattle.std.specs.Prelude.{◌≡◌, IfErr, IfOk, OnOk, string_bytes};
ghost use Rattle.desk_choice.specs.Seeking.{no_memory};
ghost use Rattle.lines.specs.Bytes.{sides};
ghost use Rattle.subcommands.specs.Entering.{EndsEnter, EndsLines, EndsWords, IsFit, IsUnfit};
ghost use Rattle.subcommands.specs.{Entering.is_looked_at, Entering.spaced, Places.reach};

use crate::finding::{contact_of, found_at};
use crate::reached::HallSearch;
use crate::telling::tell_asked;
use arguments::{EnterOptions, Place};
use batch::{Dial, Receiver, knows_await};
use desk_requests::{DeskFault, enter_all, enter_one, may_enter, tell};
use lines::RunFault;
use std::alloc::Global;
use std::io::{IsTerminal, Read, Write};

/// Enters a command at a desk, as [`enter_one`] does, and returns the exit status.
fn enter_at<D: Dial, W: Write, F: Write>(
    rt: &HostRuntime,
    dial: &mut D,
    place: Place<'_>,
    patience: u32,
    id: Option<u64>,
    text: &str,
    waits: bool,
    explains: bool,
    writer: &mut W,
    faults: &mut F,
) -> u8
    ensures { EndsEnter place.entry patience
        (record { id = id; text = text.now; waits = waits }) result
        (reach D.dialed F.contents dial.old dial.new faults.old)
        (W.contents writer.old) (W.contents writer.new) }
{
    let found = match found_at(rt, dial, place, patience, explains, faults) {
        Ok(found) => found,
        Err(status) => return status,
    };
    let contact = contact_of(&found, patience);
    let alloc = rt.alloc();
    let receiver = Receiver {
        hall: found.hall,
        desk: found.desk,
        awaits: knows_await(dial, contact, found.hall, found.desk),
    };
    let mut reached = HallSearch::new(rt, place, found.key);
    match enter_one(
        rt,
        alloc,
        dial,
        contact,
        receiver,
        id,
        text,
        waits,
        writer,
        &mut reached,
        faults,
    ) {
        Ok(status) => status,
        Err(fault) => tell_asked(rt, faults, Err(fault), &found, contact, explains),
    }
}

/// Whether a text has to be a command: where it is waited for, and where it has no id.
fn is_looked_at(id: Option<u64>, waits: bool) -> bool
    ensures { result ≡ is_looked_at id waits }
{
    match id {
        None => true,
        Some(_) => waits,
    }
}

/// The text of words that were given one after the other.
fn text_of(alloc: Global, words: &[&str]) -> Result<String, DeskFault>
    ensures ok { IfOk result (λ text. string_bytes text ≡ spaced words.now) }
    ensures err { IfErr result (λ f. f ≡ no_memory) }
{
    match words.join(alloc, " ") {
        Ok(text) => Ok(text),
        Err(_) => Err(DeskFault::Run(RunFault::NoMemory)),
    }
}

/// Whether a text may be entered: of one that has to be a command, and is not, `faults` gets what
/// is wrong with it.
fn fit<F: Write>(
    alloc: Global,
    id: Option<u64>,
    waits: bool,
    text: &[u8],
    faults: &mut F,
) -> Result<(), DeskFault>
    ensures ok { OnOk result (IsFit id waits text.now) }
    ensures err { IfErr result (λ f. IsUnfit f id waits text.now) }
{
    if !is_looked_at(id, waits) {
        return Ok(());
    }
    may_enter(alloc, text, faults)
}

/// Enters a command at a desk, whose words are between single spaces, and returns the exit status:
/// 1 where it was waited for and refused. Where it is waited for, and where it has no id, a text
/// that is no command in any edition is not entered: `faults` gets what is wrong with it, and no
/// desk is asked.
pub fn enter_words_at<D: Dial, W: Write, F: Write>(
    rt: &HostRuntime,
    dial: &mut D,
    place: Place<'_>,
    patience: u32,
    id: Option<u64>,
    words: &[&str],
    waits: bool,
    explains: bool,
    writer: &mut W,
    faults: &mut F,
) -> u8
    ensures { EndsWords place.entry patience id words.now waits result
        (reach D.dialed F.contents dial.old dial.new faults.old)
        (W.contents writer.old) (W.contents writer.new) }
{
    let text = match text_of(rt.alloc(), words) {
        Ok(text) => text,
        Err(fault) => return tell(faults, fault),
    };
    match fit(rt.alloc(), id, waits, text.as_bytes(), faults) {
        Ok(()) => {}
        Err(fault) => return tell(faults, fault),
    }
    let text = text.as_str();
    enter_at(
        rt, dial, place, patience, id, text, waits, explains, writer, faults,
    )
}

/// Enters the commands of an input at a desk, as [`enter_all`] does, and returns the exit status.
pub fn enter_lines_at<D: Dial, R: Read, W: Write, F: Write>(
    rt: &HostRuntime,
    dial: &mut D,
    place: Place<'_>,
    patience: u32,
    lines: EnterOptions,
    explains: bool,
    reader: &mut R,
    writer: &mut W,
    faults: &mut F,
) -> u8
    ensures { EndsLines place.entry patience lines result
        (reach D.dialed F.contents dial.old dial.new faults.old)
        (sides R.remaining W.contents reader.old reader.new writer.old writer.new) }
{
    let found = match found_at(rt, dial, place, patience, explains, faults) {
        Ok(found) => found,
        Err(status) => return status,
    };
    let contact = contact_of(&found, patience);
    let alloc = rt.alloc();
    let receiver = Receiver {
        hall: found.hall,
        desk: found.desk,
        awaits: knows_await(dial, contact, found.hall, found.desk),
    };
    let mut reached = HallSearch::new(rt, place, found.key);
    let is_terminal = rt.stderr().is_terminal();
    let asked = enter_all(
        rt,
        alloc,
        dial,
        contact,
        receiver,
        lines,
        is_terminal,
        reader,
        writer,
        &mut reached,
        faults,
    );
    tell_asked(rt, faults, asked, &found, contact, explains)
}
