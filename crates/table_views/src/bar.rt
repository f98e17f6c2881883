//! The bar of every page: how the desks are doing.

ghost use Rattle.std.specs.Prelude.{◌≡◌, ◌++◌, OnOk, flat_map};
ghost use Rattle.table_views.specs.Bar.{and_machine, away_words, bar, bar_end, bar_of, bar_start};
ghost use Rattle.table_views.specs.Bar.{calm_of, class_of, doing_of, few_or, few_words, key_by};
ghost use Rattle.table_views.specs.Bar.{differs_or, differs_words, other_hall_or, other_hall_words};
ghost use Rattle.table_views.specs.Bar.{key_trouble, key_words, look_at, look_words, refused_key};
ghost use Rattle.table_views.specs.Bar.{silent_words, slow_or, too_long, undecided_words};
ghost use Rattle.table_views.specs.Bar.{well_words, words_of};

use crate::counts::{are_away, number_start, number_word};
use crate::desks::HallStatus;
use acceptor::NoMemory;
use markup::Piece::{Html, Number};
use markup::fill;
use sealed::ends::CallTrouble;
use wire::{ClientRefusal, Difference};

/// The milliseconds after which a bar says that something takes long.
const PATIENCE: u64 = 2_000;

/// What is to be done where machines differ.
const STOP: &[u8] = b". Enter nothing more, keep the cards, and fetch the person in charge.";

/// How the desks are doing, or what is worst of it.
#[derive(Clone, Copy)]
pub(crate) enum DesksHealth {
    /// Nothing can be entered here: something is wrong with the table's key.
    Locked(CallTrouble),
    /// Nothing can be entered here: this desk is of another hall.
    OtherHall(u8),
    /// A machine has other commands than another one, or fewer than it had.
    Differs(Difference),
    /// No majority of the machines answers.
    Few,
    /// The machine that is followed has not answered for this many milliseconds.
    Silent(u64),
    /// For this many milliseconds nothing was decided of what was entered.
    Undecided(u64),
    /// A minority of the machines does not answer.
    Away,
    /// Not every machine has said yet how it is.
    Asked,
    /// All machines answer.
    Well,
}

// ---- how they are doing

/// How long something has lasted, where that is too long.
fn too_long(milliseconds: Option<u64>) -> Option<u64>
    ensures { result ≡ too_long milliseconds }
{
    match milliseconds {
        Some(milliseconds) if milliseconds >= PATIENCE => Some(milliseconds),
        _ => None,
    }
}

/// What is wrong with the table's key where a desk took nothing, and said this.
fn refused_key(why: ClientRefusal) -> Option<CallTrouble>
    ensures { result ≡ refused_key why }
{
    match why {
        ClientRefusal::NotAllowed => Some(CallTrouble::HasKey),
        ClientRefusal::Busy
        | ClientRefusal::HallDiffers
        | ClientRefusal::LogFull
        | ClientRefusal::BallotsSpent
        | ClientRefusal::NoMemory
        | ClientRefusal::Down
        | ClientRefusal::NotThere
        | ClientRefusal::NoSuchRound
        | ClientRefusal::Foreign => None,
    }
}

/// What is wrong with the key of this table.
fn key_trouble(desks: &HallStatus) -> Option<CallTrouble>
    ensures { result ≡ key_trouble desks.now }
{
    match (desks.trouble, desks.refused) {
        (Some(trouble), _) => Some(trouble),
        (None, Some((_, why))) => refused_key(why),
        (None, None) => None,
    }
}

/// How the desks are doing that answer soon enough.
fn calm_of(desks: &HallStatus) -> DesksHealth
    ensures { result ≡ calm_of desks.now desks.now.away.items }
{
    if !desks.away.is_empty() {
        DesksHealth::Away
    } else if desks.is_everywhere(0) {
        DesksHealth::Well
    } else {
        DesksHealth::Asked
    }
}

/// How the desks are doing: that the table's key is wrong; else that one is of another hall; else
/// that one differs from others; else that no majority of them answers; else that the one that is
/// followed does not, or that nothing is decided; else which are away.
pub(crate) fn doing_of(desks: &HallStatus) -> DesksHealth
    ensures { result ≡ doing_of desks.now }
{
    if let Some(trouble) = key_trouble(desks) {
        DesksHealth::Locked(trouble)
    } else if let Some(desk) = desks.of_other_hall {
        DesksHealth::OtherHall(desk)
    } else if let Some(difference) = desks.differs {
        DesksHealth::Differs(difference)
    } else if desks.too_few() {
        DesksHealth::Few
    } else if let Some(milliseconds) = too_long(desks.silent) {
        DesksHealth::Silent(milliseconds)
    } else if let Some(milliseconds) = too_long(desks.undecided) {
        DesksHealth::Undecided(milliseconds)
    } else {
        calm_of(desks)
    }
}

// ---- in words

fn class_of(doing: DesksHealth) -> &'static [u8]
    ensures { result.now ≡ class_of doing }
{
    match doing {
        DesksHealth::Locked(_)
        | DesksHealth::OtherHall(_)
        | DesksHealth::Differs(_)
        | DesksHealth::Few
        | DesksHealth::Silent(_)
        | DesksHealth::Undecided(_) => b"lost",
        DesksHealth::Away | DesksHealth::Asked => b"away",
        DesksHealth::Well => b"well",
    }
}

/// What is said of the key, and what is to be done.
fn key_words(trouble: CallTrouble) -> &'static [u8]
    ensures { result.now ≡ key_words trouble }
{
    match trouble {
        CallTrouble::HasKey => {
            b"This table cannot enter: it has no key. Name its file in hall.toml, and start again."
        }
        CallTrouble::OtherKey => {
            b"This table cannot enter: the desks have another key. Copy it again, and start again."
        }
        CallTrouble::NoKey => {
            b"This table cannot enter: it has a key, and the desks have none. Start them with the \
            key."
        }
    }
}

const OTHER_HALL: &[u8] = b"\
This table cannot enter: machine $ is of another hall. Start this table with the file of that \
hall.";

/// Adds which machine is of another hall, and what is to be done.
fn push_other_hall(out: &mut Vec<u8>, desk: u8) -> Result<(), NoMemory>
    ensures { OnOk result (out.new.items ≡ out.old.items ++ other_hall_words desk) }
{
    fill(out, OTHER_HALL, &[Number(desk as u64)])
}

const AWAY: &[u8] = b"$$.";

/// Adds how many machines are away.
fn push_away(out: &mut Vec<u8>, away: &[u8]) -> Result<(), NoMemory>
    ensures { OnOk result (out.new.items ≡ out.old.items ++ away_words away.now) }
{
    fill(
        out,
        AWAY,
        &[Html(number_start(away.len())), Html(are_away(away.len()))],
    )
}

const AND_MACHINE: &[u8] = b" and machine $";

fn push_and(out: &mut Vec<u8>, desk: u8) -> Result<(), NoMemory>
    ensures { OnOk result (out.new.items ≡ out.old.items ++ and_machine desk) }
{
    fill(out, AND_MACHINE, &[Number(desk as u64)])
}

fn push_others(out: &mut Vec<u8>, desks: &[u8]) -> Result<(), NoMemory>
    ensures { OnOk result (out.new.items ≡ out.old.items ++ flat_map and_machine desks.now) }
{
    for desk in desks {
        push_and(out, *desk)?;
    }
    Ok(())
}

const LOOK_AT: &[u8] = b" Look after machine $";

/// Adds that somebody has to look after these machines.
#[tactic(auto, unfolding(crate::specs::Bar::look_at))]
fn push_look_at(out: &mut Vec<u8>, desk: u8, others: &[u8]) -> Result<(), NoMemory>
    ensures { OnOk result (out.new.items ≡ out.old.items ++ look_at desk others.now) }
{
    fill(out, LOOK_AT, &[Number(desk as u64)])?;
    push_others(out, others)?;
    out.extend_from_slice(b".")
}

/// Adds which machines somebody has to look after.
fn push_look(out: &mut Vec<u8>, away: &[u8]) -> Result<(), NoMemory>
    ensures { OnOk result (out.new.items ≡ out.old.items ++ look_words away.now) }
{
    match away.split_first() {
        Some((first, others)) => push_look_at(out, *first, others),
        None => Ok(()),
    }
}

fn push_few(out: &mut Vec<u8>, away: &[u8]) -> Result<(), NoMemory>
    ensures { OnOk result (out.new.items ≡ out.old.items ++ few_words away.now) }
{
    push_away(out, away)?;
    out.extend_from_slice(
        b" Continue: cards are kept here, and sent once more than half of the machines answer.",
    )?;
    push_look(out, away)
}

const SILENT: &[u8] = b"\
The machine that this table asks has not answered for $ s. Continue: cards are kept here, and \
sent once one answers. Look after machine $.";

fn push_silent(out: &mut Vec<u8>, desk: u8, milliseconds: u64) -> Result<(), NoMemory>
    ensures { OnOk result (out.new.items ≡ out.old.items ++ silent_words desk milliseconds) }
{
    fill(
        out,
        SILENT,
        &[Number(milliseconds / 1_000), Number(desk as u64)],
    )
}

const UNDECIDED: &[u8] = b"\
The machines have decided nothing for $ s. Continue: cards are kept here, and sent again.";

fn push_undecided(out: &mut Vec<u8>, milliseconds: u64) -> Result<(), NoMemory>
    ensures { OnOk result (out.new.items ≡ out.old.items ++ undecided_words milliseconds) }
{
    fill(out, UNDECIDED, &[Number(milliseconds / 1_000)])
}

const WELL: &[u8] = b"All $ machines answer.";

fn push_well(out: &mut Vec<u8>, machines: usize) -> Result<(), NoMemory>
    ensures { OnOk result (out.new.items ≡ out.old.items ++ well_words machines) }
{
    fill(out, WELL, &[Html(number_word(machines))])
}

const OTHER_ENTRY: &[u8] = b"Machine $ has another command at $$";

const SHORTER: &[u8] = b"Machine $ has $ commands and had more$";

/// Adds which machine differs, and what is to be done.
fn push_differs(out: &mut Vec<u8>, difference: Difference) -> Result<(), NoMemory>
    ensures { OnOk result (out.new.items ≡ out.old.items ++ differs_words difference) }
{
    match difference {
        Difference::OtherEntry { desk, position } => fill(
            out,
            OTHER_ENTRY,
            &[Number(desk as u64), Number(position as u64), Html(STOP)],
        ),
        Difference::Shorter { desk, length } => fill(
            out,
            SHORTER,
            &[Number(desk as u64), Number(length as u64), Html(STOP)],
        ),
    }
}

/// Adds how the desks are doing, and what is to be done.
fn push_words(out: &mut Vec<u8>, desks: &HallStatus, doing: DesksHealth) -> Result<(), NoMemory>
    ensures { OnOk result (out.new.items ≡ out.old.items ++ words_of desks.now doing) }
{
    match doing {
        DesksHealth::Locked(trouble) => out.extend_from_slice(key_words(trouble)),
        DesksHealth::OtherHall(desk) => push_other_hall(out, desk),
        DesksHealth::Differs(difference) => push_differs(out, difference),
        DesksHealth::Few => push_few(out, &desks.away),
        DesksHealth::Silent(milliseconds) => push_silent(out, desks.followed, milliseconds),
        DesksHealth::Undecided(milliseconds) => push_undecided(out, milliseconds),
        DesksHealth::Away => {
            push_away(out, &desks.away)?;
            push_look(out, &desks.away)
        }
        DesksHealth::Asked => out.extend_from_slice(b"The machines are asked."),
        DesksHealth::Well => push_well(out, desks.lengths.len()),
    }
}

// ---- the bar

const BAR_START: &[u8] = b"<p id=\"bar\" class=\"$\"><span role=\"status\">";

fn push_bar_start(out: &mut Vec<u8>, doing: DesksHealth) -> Result<(), NoMemory>
    ensures { OnOk result (out.new.items ≡ out.old.items ++ bar_start doing) }
{
    fill(out, BAR_START, &[Html(class_of(doing))])
}

const BAR_END: &[u8] = b"</span> <small>result $</small></p>\n";

fn push_bar_end(out: &mut Vec<u8>, position: u32) -> Result<(), NoMemory>
    ensures { OnOk result (out.new.items ≡ out.old.items ++ bar_end position) }
{
    fill(out, BAR_END, &[Number(position as u64)])
}

/// Adds the bar of desks that are doing so.
#[tactic(auto, unfolding(crate::specs::Bar::bar_of))]
fn push_bar_of(
    out: &mut Vec<u8>,
    desks: &HallStatus,
    doing: DesksHealth,
    position: u32,
) -> Result<(), NoMemory>
    ensures { OnOk result (out.new.items ≡ out.old.items ++ bar_of desks.now doing position) }
{
    push_bar_start(out, doing)?;
    push_words(out, desks, doing)?;
    push_bar_end(out, position)
}

/// Adds the bar: how the desks are doing, which a screen reader says when it changes, and how long
/// the log is.
pub(crate) fn push_bar(out: &mut Vec<u8>, desks: &HallStatus, position: u32) -> Result<(), NoMemory>
    ensures { OnOk result (out.new.items ≡ out.old.items ++ bar desks.now position) }
{
    push_bar_of(out, desks, doing_of(desks), position)
}
