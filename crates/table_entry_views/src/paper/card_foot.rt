//! What is below the rules of a scorecard.

ghost use Rattle.std.specs.Prelude.{◌≡◌, ◌++◌, IfOk, OnOk};
ghost use Rattle.std.specs.Option.{option_copied};
ghost use Rattle.table_entry_views.specs.paper.Foot.{file_words, foot, next_words};

use attempts::NoMemory;
use competition_file::CompetitionFile;
use formats::Advance;
use record_views::push_together;
use std::alloc::Global;
use texts::RoundId;

/// Adds what the file says of the limit of a round.
fn push_file_words(
    out: &mut Vec<u8>,
    file: Option<&CompetitionFile>,
    id: RoundId,
) -> Result<(), NoMemory>
    ensures { OnOk result (out.new.items
        ≡ out.old.items ++ file_words (option_copied file.entry) id) }
{
    match file {
        Some(file) => push_together(out, file, id),
        None => Ok(()),
    }
}

const NEXT: &[u8] = b"\
<p class=\"next\">next round: group <span></span> station <span></span></p>
";

/// Adds the place for where the competitor sits in the next round, where there is one.
fn push_next(out: &mut Vec<u8>, advance: Advance) -> Result<(), NoMemory>
    ensures { OnOk result (out.new.items ≡ out.old.items ++ next_words advance) }
{
    match advance {
        Advance::Final => Ok(()),
        Advance::Top(_) | Advance::Percent(_) => out.extend_from_slice(NEXT),
    }
}

/// What is below the rules of each scorecard of a round: the limit that the file has for the
/// attempts of several rounds together, and a place for the seat in the next round.
#[tactic(auto, unfolding(crate::specs::paper::Foot::foot))]
pub(crate) fn foot(
    alloc: Global,
    file: Option<&CompetitionFile>,
    id: RoundId,
    advance: Advance,
) -> Result<Vec<u8>, NoMemory>
    ensures { IfOk result
        (λ text. text.items ≡ foot (option_copied file.entry) id advance) }
{
    let mut text = Vec::from_slice(alloc, b"</p>\n")?;
    push_file_words(&mut text, file, id)?;
    push_next(&mut text, advance)?;
    text.extend_from_slice(b"</section>\n")?;
    Ok(text)
}
