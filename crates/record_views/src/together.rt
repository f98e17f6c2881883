//! A limit that the file has for the attempts of several rounds together.

ghost use Rattle.std.specs.Prelude.{◌≡◌, ◌++◌, OnOk, flat_map, map};
ghost use Rattle.competition_file.specs.Files.{data_of};
ghost use Rattle.serde_json.specs.View.{view};
ghost use Rattle.record_views.specs.Together.{limit_words, round_id_words, round_limit, together};

use attempts::{NoMemory, Unit, Value as Attempt, print_value};
use competition_file::{CompetitionFile, cumulative_limit, limit_rounds, round_of};
use markup::Piece::{Html, Text};
use markup::fill;
use serde_json::Value;
use texts::RoundId;

const ROUND_ID: &[u8] = b" $";

fn push_round_id(out: &mut Vec<u8>, id: &Value) -> Result<(), NoMemory>
    ensures { OnOk result (out.new.items ≡ out.old.items ++ round_id_words (view id.now)) }
{
    fill(out, ROUND_ID, &[Text(id.as_str().unwrap_or("").as_bytes())])
}

/// Adds the ids of rounds.
fn push_round_ids(out: &mut Vec<u8>, ids: &[Value]) -> Result<(), NoMemory>
    ensures { OnOk result (out.new.items
        ≡ out.old.items ++ flat_map round_id_words (map view ids.now)) }
{
    for id in ids {
        push_round_id(out, id)?;
    }
    Ok(())
}

const TOGETHER: &[u8] = b"\
<p class=\"together\">by the competition's file: $ for the attempts of$ together</p>
";

/// Adds a limit that is for the attempts of several rounds together.
fn push_limit(out: &mut Vec<u8>, round: &Value, limit: u32) -> Result<(), NoMemory>
    ensures { OnOk result (out.new.items
        ≡ out.old.items ++ limit_words (view round.now) limit) }
{
    let alloc = *out.allocator();
    let limit = print_value(alloc, Attempt::Number(limit), Unit::Time)?;
    let mut ids = Vec::new(alloc);
    push_round_ids(&mut ids, limit_rounds(round))?;
    fill(out, TOGETHER, &[Html(&limit), Html(&ids)])
}

/// Adds the limit of a round of the file, where it is one for several attempts together.
fn push_round_limit(out: &mut Vec<u8>, round: &Value) -> Result<(), NoMemory>
    ensures { OnOk result (out.new.items ≡ out.old.items ++ round_limit (view round.now)) }
{
    match cumulative_limit(round) {
        Some(limit) => push_limit(out, round, limit),
        None => Ok(()),
    }
}

/// Adds a line with the limit that the file has for the attempts of a round, where that is one for
/// several attempts together: the limit, and the ids of the rounds whose attempts they are, as the
/// file has them. Nothing is added where the file has no such round, or another limit for it.
///
/// # Errors
///
/// Where memory runs out. A front part may have been added then.
#[tactic(auto, unfolding(crate::specs::Together::together))]
pub fn push_together(out: &mut Vec<u8>, file: &CompetitionFile, id: RoundId) -> Result<(), NoMemory>
    ensures { OnOk result (out.new.items ≡ out.old.items ++ together (data_of file.now) id) }
{
    match round_of(*out.allocator(), file, id)? {
        Some(round) => push_round_limit(out, round),
        None => Ok(()),
    }
}
