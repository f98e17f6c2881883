//! How a message names the fields of a command.

ghost use Rattle.std.specs.Prelude.{◌≡◌};
ghost use Rattle.lines.specs.command_file.FieldWords.{field_form, field_name, is_now, verb};

use texts::FieldKind;

/// What a field is called.
pub(crate) fn name(kind: FieldKind) -> &'static str
    ensures { result.now ≡ field_name kind }
{
    match kind {
        FieldKind::Number => "number",
        FieldKind::Name | FieldKind::NewName => "name",
        FieldKind::Event => "event",
        FieldKind::Round => "round",
        FieldKind::Format => "format",
        FieldKind::Cutoff => "cutoff",
        FieldKind::Limit => "time limit",
        FieldKind::Advance => "advance",
        FieldKind::Attempt => "attempt",
        FieldKind::Moves => "scramble",
        FieldKind::Outcome => "outcome",
        FieldKind::Edition => "edition",
        FieldKind::Was => "values before",
        FieldKind::Now => "attempts",
    }
}

/// The verb after it, between spaces: what is listed has several items.
pub(crate) fn verb(kind: FieldKind) -> &'static str
    ensures { result.now ≡ verb kind }
{
    match kind {
        FieldKind::Was | FieldKind::Now => " are ",
        _ => " is ",
    }
}

/// What it has to be, and an example.
pub(crate) fn form(kind: FieldKind) -> &'static str
    ensures { result.now ≡ field_form kind }
{
    match kind {
        FieldKind::Number => "competitor's number from 1 to 9999, as 17",
        FieldKind::Name | FieldKind::NewName => {
            "name of at most 160 bytes with single spaces and no double quote, as Ann Example"
        }
        FieldKind::Event => "event, as 333",
        FieldKind::Round => "round from 1 to 4, as 1",
        FieldKind::Format => "format, as ao5",
        FieldKind::Cutoff => "cutoff, as - or 2:3000",
        FieldKind::Limit => "time limit in hundredths of a second, as - or 60000",
        FieldKind::Advance => "way to advance, as final or top:8 or pct:75",
        FieldKind::Attempt => "attempt from 1 to 5, as 2",
        FieldKind::Moves => "sequence of moves with single spaces, as R U' F2",
        FieldKind::Outcome => "T:h:p, as T:1626:0",
        FieldKind::Edition => "edition, as 4",
        FieldKind::Was => "list of what stands, as - or 1043,1198,DNF",
        FieldKind::Now => "list of attempts of which = stays, as T:1043:0/=/DNF",
    }
}

/// Whether it is the attempts that are to count.
pub(crate) fn is_now(kind: FieldKind) -> bool
    ensures { result ≡ is_now kind }
{
    matches!(kind, FieldKind::Now)
}
