//! What is seen at the paths of the board.

ghost use Rattle.std.specs.Prelude.{◌≡◌, ◌≢◌, ◌++◌, ℕ, List, None, IfSome, codes};
ghost use Rattle.texts.specs.declared.command.RoundId.{RoundId};
ghost use Rattle.board_views.specs.declared.paths.View.{View};
ghost use Rattle.board_views.specs.Paths.{StandsAt, IsNameOf, IsTableNameOf, IsPastOf, IsFixed};

use formats::{Event, LAST_ROUND};
use texts::{RoundId, cut, number_between};

/// The most entries of a log.
const MOST_ENTRIES: u64 = 65_536;

/// The greatest number of a competitor.
const LAST_NUMBER: u64 = 9999;

/// What is seen at a path of the board.
#[derive(Clone, Copy, Debug, PartialEq, Eq)]
pub enum View {
    /// `/`: all rounds with their sheets.
    Overview,
    /// `/hall`: one round after another, for a projector.
    Hall,
    /// `/hall/333-1`: a round, for a projector.
    HallRound(RoundId),
    /// `/333-1`: a round, for a phone.
    Round(RoundId),
    /// `/333-1.csv`: a round's sheet as a table.
    Table(RoundId),
    /// `/at/17/333-1`: a round as it was after this many entries of the log.
    RoundAt { position: u32, id: RoundId },
    /// `/at/17/333-1.csv`: its sheet as a table.
    TableAt { position: u32, id: RoundId },
    /// `/person/17`: the rounds that a competitor is in.
    Person { number: u16 },
    /// `/podiums`: the first three of each final.
    Podiums,
    /// `/people`: all competitors.
    People,
    /// `/log.txt`: the archive of the log.
    Log,
    /// `/style.css`: how the pages look.
    Style,
    /// `/update.js`: how the pages keep up.
    Script,
}

/// The round that a name is of, as `333-1`.
fn round_of(name: &[u8]) -> Option<RoundId>
    ensures some { IfSome result (λ id. IsNameOf id name.now) }
    ensures none { result ≡ None → (id : RoundId) → ¬ (IsNameOf id name.now) }
{
    let (event, round) = cut(name, b'-');
    let event = Event::from_name(event)?;
    let round = number_between(1, u64::from(LAST_ROUND), round?)?;
    Some(RoundId {
        event,
        round: round as u8,
    })
}

/// The round that the name of a table is of, as `333-1.csv`.
fn table_of(name: &[u8]) -> Option<RoundId>
    ensures some { IfSome result (λ id. IsTableNameOf id name.now) }
    ensures none { result ≡ None → (id : RoundId) → ¬ (IsTableNameOf id name.now) }
{
    let name = name.strip_suffix(b".csv".as_slice())?;
    round_of(name)
}

/// What is at a path that has no number.
fn fixed(path: &[u8]) -> Option<View>
    ensures some { IfSome result (λ view. StandsAt view path.now) }
    ensures none { result ≡ None → (view : View) → IsFixed view → ¬ (StandsAt view path.now) }
{
    if path == b"/".as_slice() {
        Some(View::Overview)
    } else if path == b"/hall".as_slice() {
        Some(View::Hall)
    } else if path == b"/podiums".as_slice() {
        Some(View::Podiums)
    } else if path == b"/people".as_slice() {
        Some(View::People)
    } else if path == b"/log.txt".as_slice() {
        Some(View::Log)
    } else if path == b"/style.css".as_slice() {
        Some(View::Style)
    } else if path == b"/update.js".as_slice() {
        Some(View::Script)
    } else {
        None
    }
}

/// The round that a projector shows at a path.
fn hall_round(path: &[u8]) -> Option<RoundId>
    ensures some { IfSome result (λ id. StandsAt (View.HallRound id) path.now) }
    ensures none { result ≡ None → (id : RoundId) → ¬ (StandsAt (View.HallRound id) path.now) }
{
    round_of(path.strip_prefix(b"/hall/".as_slice())?)
}

/// The round that a phone shows at a path.
fn phone_round(path: &[u8]) -> Option<RoundId>
    ensures some { IfSome result (λ id. StandsAt (View.Round id) path.now) }
    ensures none { result ≡ None → (id : RoundId) → ¬ (StandsAt (View.Round id) path.now) }
{
    round_of(path.strip_prefix(b"/".as_slice())?)
}

/// The round whose table is at a path.
fn table_round(path: &[u8]) -> Option<RoundId>
    ensures some { IfSome result (λ id. StandsAt (View.Table id) path.now) }
    ensures none { result ≡ None → (id : RoundId) → ¬ (StandsAt (View.Table id) path.now) }
{
    table_of(path.strip_prefix(b"/".as_slice())?)
}

/// The competitor whose rounds are at a path.
fn person(path: &[u8]) -> Option<u16>
    ensures some { IfSome result (λ number. StandsAt (View.Person number) path.now) }
    ensures none { result ≡ None → (number : ℕ) → ¬ (StandsAt (View.Person number) path.now) }
{
    let number = path.strip_prefix(b"/person/".as_slice())?;
    let number = number_between(1, LAST_NUMBER, number)?;
    Some(number as u16)
}

/// What is after `/at/` in a path.
fn after_at(path: &[u8]) -> Option<&[u8]>
    ensures some { IfSome result (λ rest. path.now ≡ codes "/at/" ++ rest.now) }
    ensures none { result ≡ None → (rest : List ℕ) → path.now ≢ codes "/at/" ++ rest }
{
    path.strip_prefix(b"/at/".as_slice())
}

/// The position that a path names, and what is after it.
fn past(path: &[u8]) -> Option<(u32, &[u8])>
    ensures some { IfSome result (λ at. IsPastOf at.0 at.1.now path.now) }
    ensures other { (position : ℕ) (name : List ℕ) → IsPastOf position name path.now
        → IfSome result (λ at. (at.0 ≡ position) × (at.1.now ≡ name)) }
    ensures none { result ≡ None
        → (position : ℕ) (name : List ℕ) → ¬ (IsPastOf position name path.now) }
{
    let rest = after_at(path)?;
    let (position, name) = cut(rest, b'/');
    let position = number_between(0, MOST_ENTRIES, position)?;
    Some((position as u32, name?))
}

/// The round that is at a path, as it was at a position.
fn past_round(path: &[u8]) -> Option<View>
    ensures some { IfSome result (λ view. StandsAt view path.now) }
    ensures round { result ≡ None → (position : ℕ) (id : RoundId)
        → ¬ (StandsAt (View.RoundAt position id) path.now) }
    ensures table { result ≡ None → (position : ℕ) (id : RoundId)
        → ¬ (StandsAt (View.TableAt position id) path.now) }
{
    let (position, name) = past(path)?;
    if let Some(id) = round_of(name) {
        return Some(View::RoundAt { position, id });
    }
    let id = table_of(name)?;
    Some(View::TableAt { position, id })
}

/// What is at a path that names a round or a competitor.
fn numbered(path: &[u8]) -> Option<View>
    ensures some { IfSome result (λ view. StandsAt view path.now) }
    ensures none { result ≡ None → (view : View) → ¬ (IsFixed view) → ¬ (StandsAt view path.now) }
{
    if let Some(id) = phone_round(path) {
        return Some(View::Round(id));
    }
    if let Some(id) = table_round(path) {
        return Some(View::Table(id));
    }
    if let Some(id) = hall_round(path) {
        return Some(View::HallRound(id));
    }
    if let Some(number) = person(path) {
        return Some(View::Person { number });
    }
    past_round(path)
}

impl View {
    /// What is seen at a path of the board, as `/333-1` or `/at/17/333-1.csv`: a round is 1 to 4, a
    /// position 0 to 65,536 and a competitor's number 1 to 9999, all in decimal without a sign or
    /// a zero in front. None at any other path.
    pub fn from_path(path: &[u8]) -> Option<View>
        ensures some { IfSome result (λ view. StandsAt view path.now) }
        ensures none { result ≡ None → (view : View) → ¬ (StandsAt view path.now) }
    {
        if let Some(view) = fixed(path) {
            return Some(view);
        }
        numbered(path)
    }
}
