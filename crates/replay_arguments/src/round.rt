//! The values EVENT and ROUND.

ghost use Rattle.std.specs.Prelude.{◌≡◌, false, codes, decimal, map, option_and_then};
ghost use Rattle.std.specs.Prelude.{IfSome, Option, Some};
ghost use Rattle.clap.specs.Words.{first_of, found_of, rows_of, rule_of};
ghost use Rattle.clap.specs.declared.builder.value_parser.ValueParser.{ValueParser};
ghost use Rattle.formats.specs.Events.{all_events, event_name, event_of_name};
ghost use Rattle.replay_arguments.specs.Arguments.{IsOneOf, round_numbers, value_rule};

use crate::values::{text_at, value};
use clap::builder::ValueParser;
use clap::{Arg, ArgMatches};
use formats::{Event, LAST_ROUND};
use std::alloc::Global;

/// The texts that are accepted as an event: the names of [`Event::ALL`], as the contract of
/// [`event_value`] says.
static NAMES: [&str; 17] = [
    "333", "222", "444", "555", "666", "777", "333bf", "333fm", "333oh", "clock", "minx", "pyram",
    "skewb", "sq1", "444bf", "555bf", "333mbf",
];

/// The texts that are accepted as a round: 1 to [`LAST_ROUND`] in decimal, as the contract of
/// [`round_value`] says.
static ROUNDS: [&str; LAST_ROUND as usize] = ["1", "2", "3", "4"];

/// The value EVENT.
pub fn event_value<'a>(alloc: Global) -> Arg<'a>
    ensures rule { (parser : Option ValueParser) × IsOneOf parser (map event_name all_events)
        × (rule_of result ≡ value_rule (codes "event") parser) }
    ensures local { result.global ≡ false }
{
    value(
        alloc,
        "event",
        "EVENT",
        "The event",
        ValueParser::from(NAMES.as_slice()),
    )
}

/// The value ROUND.
pub fn round_value<'a>(alloc: Global) -> Arg<'a>
    ensures rule { (parser : Option ValueParser) × IsOneOf parser round_numbers
        × (rule_of result ≡ value_rule (codes "round") parser) }
    ensures local { result.global ≡ false }
{
    value(
        alloc,
        "round",
        "ROUND",
        "The round",
        ValueParser::from(ROUNDS.as_slice()),
    )
}

/// The round of a number as it is typed.
fn round_of(number: &str) -> Option<u8>
    ensures { IfSome result (λ round. number.now ≡ decimal round) }
{
    match number {
        "1" => Some(1),
        "2" => Some(2),
        "3" => Some(3),
        "4" => Some(4),
        _ => None,
    }
}

/// The value of EVENT.
pub fn event_at(found: &ArgMatches<'_>) -> Option<Event>
    ensures { IfSome result (λ event. option_and_then event_of_name
        (first_of (codes "event") (rows_of (found_of found.now))) ≡ Some event) }
{
    Event::from_name(text_at(found, "event")?.as_bytes())
}

/// The value of ROUND.
pub fn round_at(found: &ArgMatches<'_>) -> Option<u8>
    ensures { IfSome result (λ round.
        first_of (codes "round") (rows_of (found_of found.now)) ≡ Some (decimal round)) }
{
    round_of(text_at(found, "round")?)
}
