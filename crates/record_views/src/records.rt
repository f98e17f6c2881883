//! What of a round's results is a personal record by a competition's file.

ghost use Rattle.std.specs.Prelude.{◌≡◌, ◌++◌, OnOk, flat_map};
ghost use Rattle.competition_file.specs.Files.{data_of};
ghost use Rattle.record_views.specs.Records.{line_of, records, records_of, title};

use crate::lines::push_line;
use crate::together::push_together;
use attempts::NoMemory;
use board_rounds::name_text;
use commands::Meet;
use competition_file::CompetitionFile;
use formats::Advance;
use round_counts::{OpenedRound, round_opened};
use round_words::push_round_words;
use rounds::RoundTable;
use texts::RoundId;

/// Before the words of the round.
const START: &[u8] = b"<section class=\"records\"><h2>";

/// Before the lines.
const HEAD: &[u8] = b"\
<table><caption>by the competition's file</caption>
<thead><tr><th scope=\"col\">number</th><th scope=\"col\">country</th><th scope=\"col\">name</th>\
<th scope=\"col\">single</th><th scope=\"col\">average</th></tr></thead><tbody>
";

const END: &[u8] = b"</tbody></table></section>\n";

const NOT_OPENED: &[u8] = b"\
<section class=\"records\"><p>This round has not been opened.</p></section>
";

/// Adds the line of the entrant with a number.
fn push_entrant(
    out: &mut Vec<u8>,
    file: &CompetitionFile,
    meet: &Meet,
    id: RoundId,
    table: &RoundTable,
    number: u16,
) -> Result<(), NoMemory>
    ensures { OnOk result (out.new.items ≡ out.old.items
        ++ line_of (data_of file.now) meet.now.accepted id table.now number) }
{
    let Some(row) = table.row(number) else {
        return Ok(());
    };
    let name = name_text(meet, number);
    let person = file.person(number);
    push_line(out, id.event, number, name, person, row)?;
    Ok(())
}

/// Adds the lines of the entrants with these numbers.
fn push_entrants(
    out: &mut Vec<u8>,
    file: &CompetitionFile,
    meet: &Meet,
    id: RoundId,
    table: &RoundTable,
    numbers: &[u16],
) -> Result<(), NoMemory>
    ensures { OnOk result (out.new.items ≡ out.old.items
        ++ flat_map (line_of (data_of file.now) meet.now.accepted id table.now) numbers.now) }
{
    for number in numbers {
        push_entrant(out, file, meet, id, table, *number)?;
    }
    Ok(())
}

/// Adds the words of a round, and below them the file's limit for several attempts together.
#[tactic(auto, unfolding(crate::specs::Records::title))]
fn push_title(
    out: &mut Vec<u8>,
    file: &CompetitionFile,
    id: RoundId,
    advance: Advance,
) -> Result<(), NoMemory>
    ensures { OnOk result (out.new.items ≡ out.old.items ++ title (data_of file.now) id advance) }
{
    push_round_words(out, id, advance)?;
    out.extend_from_slice(b"</h2>\n")?;
    push_together(out, file, id)
}

/// Adds a round that was opened.
fn push_round(
    out: &mut Vec<u8>,
    file: &CompetitionFile,
    meet: &Meet,
    id: RoundId,
    round: OpenedRound<'_>,
) -> Result<(), NoMemory>
    ensures { OnOk result (out.new.items ≡ out.old.items
        ++ records_of (data_of file.now) meet.now.accepted id
        (round.entry.settings, round.entry.table.now)) }
{
    let numbers = round.table.standings()?;
    out.extend_from_slice(START)?;
    push_title(out, file, id, round.settings.advance)?;
    out.extend_from_slice(HEAD)?;
    push_entrants(out, file, meet, id, round.table, &numbers)?;
    out.extend_from_slice(END)?;
    Ok(())
}

/// Adds a section of a page: the words of a round, below them the line of [`push_together`], and a
/// line for each entrant, in the order of the sheet: the number, the country of the accepted person
/// of this number in the file, the name in the list, and the best single and the average so far, as
/// a sheet has them. A result is marked, by the class `pr` of its cell, where it is a number, the
/// file has such a person, and the person's best single or average in the event, before the
/// competition, is not better or is not there. Where the round was not opened, the section says so.
///
/// # Errors
///
/// Where memory runs out. A front part may have been added then.
pub fn push_records(
    out: &mut Vec<u8>,
    file: &CompetitionFile,
    meet: &Meet,
    id: RoundId,
) -> Result<(), NoMemory>
    ensures { OnOk result (out.new.items
        ≡ out.old.items ++ records (data_of file.now) meet.now.accepted id) }
{
    let Some(round) = round_opened(meet, id) else {
        return out.extend_from_slice(NOT_OPENED);
    };
    push_round(out, file, meet, id, round)
}
