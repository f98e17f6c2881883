//! The subcommand `replay`: its arguments and its help.

ghost use Rattle.std.specs.Prelude.{IfOk, IfSome};
ghost use Rattle.clap.specs.Words.{found_of, rows_of};
ghost use Rattle.replay_arguments.specs.{Arguments.IsCommand, Asking.replay_arguments};
ghost use Rattle.replay_arguments.specs.Asking.{IsPrinted, IsReplay, RoundParsers};

use crate::round::{event_at, event_value, round_at, round_value};
use crate::values::{csv_flag, flag, flag_at, plain_command, with_argument};
use clap::{ArgMatches, Command};
use formats::Event;
use sheets::SheetStyle;
use std::alloc::{AllocError, Global};

const ABOUT: &str = "Reads the commands of a competition and prints the result sheet of a round.";

const INPUT: &str = "\
Standard input has one command a line:

  REG 1 Ann Li                  registers competitor 1 under a name
  OPEN 333 1 ao5 - 60000 final  opens a round: event, round, format, cutoff (- or 2:1500, attempts
                                and the result to be better than), time limit in 1/100 second
                                (- in 333fm and 333mbf), who advances (final, top:8 or pct:75)
  ENT 333 1                     enters competitor 1 in round 1 of the event
  SCR 333fm 1 2 R' U' F         the scramble of attempt 2 of a fewest-moves round
  ATT 333 1 2 1 T:1200:0        attempt 2 of competitor 1 in round 1: 12.00 seconds, no penalty;
                                or DNF, or DNS, or in 333fm S: and a solution, or in 333mbf
                                M:11:13:3500, 11 cubes solved of 13 in 3,500 seconds
  COR 333 1 2 1 T:1300:0        corrects that attempt
  STR 333 1 1                   removes the last attempt of competitor 1
  ADV 333 1 top:8               changes who advances from round 1
  CLOSE 333 1                   closes round 1; the next round is then opened by OPEN
  EDITION 2                     from this line on 333mbf is an event
  EDITION 3                     from this line on mistakes can be mended by the lines below
  REN 1 Ann Lee                 gives competitor 1 another name
  SET 333 1 bo3 - 60000         another format, cutoff and limit, while nobody has an attempt
  RSC 333fm 1 2 R U' F          another scramble of an attempt, while it has no solution
  WDR 333 1 1                   competitor 1, who has no attempt, leaves round 1; in a later round
                                the next of the round before takes the place
  REOPEN 333 1                  opens round 1 again, while round 2 is not open
  EDITION 4                     from this line on the lines below are commands, and CARD, FIX, ATT,
                                COR, STR and WDR may end with ` # ` and a remark
  CARD 333 1 1 - T:1200:0/DNF   all attempts of competitor 1 at once, where it has none yet (-)
  CARD 333 1 1 1200,DNF =/T:998:0
                                the same over 12.00 and DNF; = keeps one as it is
  FIX 333 1 1 1200,998 =/DNF    the same in a closed round
  CANCEL 333 2                  takes back the opening of round 2, while nobody has an attempt

At most 65,536 lines, 10,000 bytes a line and 39,387,136 bytes in all are read.

Standard output gets a line `refused N CODE` for each line N that is refused, and after these lines
the sheet. With --only-sheet it gets the sheet alone, and standard error gets these lines.
docs/FORMATS.md explains each CODE, the fields of the commands and the columns of the sheet.

Exit status: 0 the sheet was printed; 2 invalid arguments, or help; 3 no such round (no accepted
command opened it, or one cancelled it), or input too long; 4 cannot read, or cannot write;
5 no memory.";

/// What `replay` asks for: the sheet of a round, from commands.
#[derive(Clone, Copy)]
pub struct ReplayTask {
    pub event: Event,
    pub round: u8,
    pub style: SheetStyle,
    /// Whether the lines of refused commands go to standard error.
    pub only_sheet: bool,
}

/// The subcommand `replay`, as the parser knows it.
pub fn replay_command<'a>(alloc: Global) -> Result<Command<'a>, AllocError>
    ensures { IfOk result (λ command. (p : RoundParsers) × IsCommand command (replay_arguments p)) }
{
    let command = plain_command(alloc, "replay", ABOUT, INPUT);
    let command = with_argument(command, event_value(alloc))?;
    let command = with_argument(command, round_value(alloc))?;
    let command = with_argument(command, csv_flag(alloc))?;
    let only_sheet = flag(
        alloc,
        "only-sheet",
        "Print the sheet alone, and refused lines on standard error",
    );
    with_argument(command, only_sheet)
}

/// How the sheet is asked for.
pub fn style_at(found: &ArgMatches<'_>) -> SheetStyle
    ensures { IsPrinted (rows_of (found_of found.now)) result }
{
    if flag_at(found, "csv") {
        SheetStyle::Table
    } else {
        SheetStyle::Text
    }
}

/// What the arguments of `replay` ask for.
pub fn replay_of(found: &ArgMatches<'_>) -> Option<ReplayTask>
    ensures { IfSome result (λ task. IsReplay task (rows_of (found_of found.now))) }
{
    let event = event_at(found)?;
    let round = round_at(found)?;
    let style = style_at(found);
    let only_sheet = flag_at(found, "only-sheet");
    Some(ReplayTask {
        event,
        round,
        style,
        only_sheet,
    })
}
