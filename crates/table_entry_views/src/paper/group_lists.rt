//! Who scrambles, runs and judges in each group of a round.

ghost use Rattle.std.specs.Prelude.{◌≡◌, ◌++◌, OnOk, flat_map, map};
ghost use Rattle.std.specs.Option.{option_copied};
ghost use Rattle.competition_file.specs.Files.{data_of, persons};
ghost use Rattle.table_entry_views.specs.paper.Lists.{duty_list, duty_words, group_list};
ghost use Rattle.table_entry_views.specs.paper.Lists.{helper, list_start, lists};

use attempts::NoMemory;
use competition_file::{CompetitionFile, Duty, RoundGroup, round_groups};
use formats::Advance;
use markup::Piece::{Number, Text};
use markup::fill;
use round_words::push_round_words;
use texts::RoundId;

const LIST_START: &[u8] = b", group $</h2>\n";

/// Adds the number of a group, after the words of its round.
fn push_list_start(out: &mut Vec<u8>, group: u16) -> Result<(), NoMemory>
    ensures { OnOk result (out.new.items ≡ out.old.items ++ list_start group) }
{
    fill(out, LIST_START, &[Number(group as u64)])
}

fn duty_words(duty: Duty) -> &'static [u8]
    ensures { result.now ≡ duty_words duty }
{
    match duty {
        Duty::Scrambler => b"<div><h3>Scramblers</h3>\n<ul>",
        Duty::Runner => b"<div><h3>Runners</h3>\n<ul>",
        Duty::Judge => b"<div><h3>Judges</h3>\n<ul>",
    }
}

const ONE: &[u8] = b"<li>$</li>\n";

fn push_helper(out: &mut Vec<u8>, name: &[u8]) -> Result<(), NoMemory>
    ensures { OnOk result (out.new.items ≡ out.old.items ++ helper name.now) }
{
    fill(out, ONE, &[Text(name)])
}

fn push_all(out: &mut Vec<u8>, names: &[Vec<u8>]) -> Result<(), NoMemory>
    ensures { OnOk result (out.new.items
        ≡ out.old.items ++ flat_map helper (map (λ name. name.items) names.now)) }
{
    for name in names {
        push_helper(out, name)?;
    }
    Ok(())
}

/// Adds the names of those who have a duty in the group of an activity.
fn push_duty(
    out: &mut Vec<u8>,
    file: &CompetitionFile,
    duty: Duty,
    activity: u64,
) -> Result<(), NoMemory>
    ensures { OnOk result (out.new.items
        ≡ out.old.items ++ duty_list (persons (data_of file.now)) activity duty) }
{
    out.extend_from_slice(duty_words(duty))?;
    push_all(out, file.helpers(duty, activity))?;
    out.extend_from_slice(b"</ul></div>\n")
}

/// Adds the lists of a group.
fn push_group(
    out: &mut Vec<u8>,
    file: &CompetitionFile,
    id: RoundId,
    advance: Advance,
    group: RoundGroup,
) -> Result<(), NoMemory>
    ensures { OnOk result (out.new.items
        ≡ out.old.items ++ group_list (persons (data_of file.now)) id advance group) }
{
    out.extend_from_slice(b"<section class=\"duties\"><h2>")?;
    push_round_words(out, id, advance)?;
    push_list_start(out, group.number)?;
    push_duty(out, file, Duty::Scrambler, group.activity)?;
    push_duty(out, file, Duty::Runner, group.activity)?;
    push_duty(out, file, Duty::Judge, group.activity)?;
    out.extend_from_slice(b"</section>\n")?;
    Ok(())
}

fn push_all_groups(
    out: &mut Vec<u8>,
    file: &CompetitionFile,
    id: RoundId,
    advance: Advance,
    groups: &[RoundGroup],
) -> Result<(), NoMemory>
    ensures { OnOk result (out.new.items ≡ out.old.items
        ++ flat_map (group_list (persons (data_of file.now)) id advance) groups.now) }
{
    for group in groups {
        push_group(out, file, id, advance, *group)?;
    }
    Ok(())
}

/// Adds the lists of the groups of a round, in the order of the file, where there is one: who
/// scrambles, runs and judges.
pub(crate) fn push_lists(
    out: &mut Vec<u8>,
    file: Option<&CompetitionFile>,
    id: RoundId,
    advance: Advance,
) -> Result<(), NoMemory>
    ensures { OnOk result (out.new.items
        ≡ out.old.items ++ lists (option_copied file.entry) id advance) }
{
    let Some(file) = file else {
        return Ok(());
    };
    let groups = round_groups(*out.allocator(), file, id)?;
    push_all_groups(out, file, id, advance, &groups)
}
