//! What a judge enters, as an outcome of the attempt.

ghost use Rattle.std.specs.Prelude.{◌≡◌, false, option_map};
ghost use Rattle.attempts.specs.Attempts.{IsOutcome, IsOutcomeOf};
ghost use Rattle.attempts.specs.declared.Unit.{Unit as Measure};
ghost use Rattle.commands.specs.Accepted.{outcome_of, is_time, is_wrong, is_moves, is_multi};
ghost use Rattle.commands.specs.Accepted.{lacks_scramble, unfit_refusal, settled, is_solution};
ghost use Rattle.texts.specs.Spelling.{IsEntered};

use attempts::{Outcome, Unit, Value, settle};
use cube::Move;
use fmc_check::check;
use formats::{Event, unit_of};
use texts::{Code, Entered, Settings};

/// Whether times are entered.
fn is_time(unit: Unit) -> bool
    ensures { result ≡ is_time unit }
{
    match unit {
        Unit::Time => true,
        Unit::Moves | Unit::Multi => false,
    }
}

/// Whether solutions are entered.
pub(crate) fn is_moves(unit: Unit) -> bool
    ensures { result ≡ is_moves unit }
{
    match unit {
        Unit::Moves => true,
        Unit::Time | Unit::Multi => false,
    }
}

/// Whether cubes of multi-blind are entered.
pub(crate) fn is_multi(unit: Unit) -> bool
    ensures { result ≡ is_multi unit }
{
    match unit {
        Unit::Multi => true,
        Unit::Time | Unit::Moves => false,
    }
}

/// Whether what was entered is a time, a solution or cubes where another of these is entered.
pub fn is_wrong(unit: Unit, entered: &Entered) -> bool
    ensures { result ≡ is_wrong unit entered.now }
{
    match entered {
        Entered::Time { .. } => !is_time(unit),
        Entered::Solution { .. } => !is_moves(unit),
        Entered::Multi { .. } => !is_multi(unit),
        Entered::Dnf | Entered::Dns => false,
    }
}

/// Whether it is a solution for which there is no scramble.
pub fn lacks_scramble(scramble: Option<&[Move]>, entered: &Entered) -> bool
    ensures { result ≡ lacks_scramble (option_map (λ moves. moves.now) scramble.entry) entered.now }
{
    match entered {
        Entered::Solution { .. } => scramble.is_none(),
        Entered::Time { .. } | Entered::Multi { .. } | Entered::Dnf | Entered::Dns => false,
    }
}

/// Why an event does not accept what was entered, under the scramble that the attempt has.
pub(crate) fn refusal(event: Event, entered: &Entered, scramble: Option<&[Move]>) -> Option<Code>
    ensures { result
        ≡ unfit_refusal event (option_map (λ moves. moves.now) scramble.entry) entered.now }
{
    if is_wrong(unit_of(event), entered) {
        return Some(Code::WrongOutcome);
    }
    if lacks_scramble(scramble, entered) {
        return Some(Code::NoScramble);
    }
    None
}

/// Whether a solution was entered.
pub(crate) fn is_solution(entered: &Entered) -> bool
    ensures { result ≡ is_solution entered.now }
{
    matches!(entered, Entered::Solution { .. })
}

/// What was entered, a solution by its result under the scramble.
#[tactic(auto, using(crate::proofs::Units::units))]
pub(crate) fn outcome_of(scramble: Option<&[Move]>, entered: &Entered) -> Outcome
    requires { IsEntered entered.now }
    ensures value { result
        ≡ outcome_of (option_map (λ moves. moves.now) scramble.entry) entered.now }
    ensures outcome { IsOutcome result }
    ensures of_unit { (unit : Measure) → is_wrong unit entered.now ≡ false
        → IsOutcomeOf unit result }
{
    match entered {
        Entered::Time {
            hundredths,
            penalties,
        } => Outcome::Time {
            hundredths: *hundredths,
            penalties: *penalties,
        },
        Entered::Solution { moves } => match scramble {
            Some(scramble) => Outcome::Solution {
                result: check(scramble, moves.as_slice()),
            },
            None => Outcome::Dnf,
        },
        Entered::Multi {
            solved,
            attempted,
            seconds,
        } => Outcome::Multi {
            solved: *solved,
            attempted: *attempted,
            seconds: *seconds,
        },
        Entered::Dnf => Outcome::Dnf,
        Entered::Dns => Outcome::Dns,
    }
}

/// The value of what was entered, under the limit of its round and the scramble of its attempt. A
/// solution without a scramble counts as DNF.
pub fn settled(settings: Settings, scramble: Option<&[Move]>, entered: &Entered) -> Value
    requires { IsEntered entered.now }
    ensures { result ≡ settled settings (option_map (λ moves. moves.now) scramble.entry)
        entered.now }
{
    settle(outcome_of(scramble, entered), settings.limit)
}
