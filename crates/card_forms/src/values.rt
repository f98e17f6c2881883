//! The values of a command's fields, from its form.

ghost use Rattle.std.specs.Prelude.{◌≡◌, ◌≤◌, IfErr, IfOk, length};
ghost use Rattle.card_forms.specs.Asking.{HasAll, HasValue, has_round, is_round};
ghost use Rattle.card_forms.specs.Faults.{IsFirstLacking, IsLacking, IsSaid};

use crate::command_faults::FieldFault;
use crate::command_fields::{
    advance, attempt, competitor, cutoff, event, format, limit, moves, name, round,
};
use crate::pairs::Pairs;
use arrayvec::ArrayVec;
use std::alloc::Global;
use texts::{FieldKind, FieldValue, Values};

/// The edition that a form asks for.
const ASKED_EDITION: u8 = 4;

/// The value of a field, from the pairs that its kind is read from.
fn value(
    alloc: Global,
    pairs: &Pairs,
    by_round: bool,
    kind: FieldKind,
) -> Result<FieldValue, FieldFault>
    ensures value { IfOk result (HasValue by_round pairs.now kind) }
    ensures lacks { IfErr result (IsSaid (IsLacking by_round pairs.now kind)) }
{
    match kind {
        FieldKind::Number => Ok(FieldValue::Number(competitor(pairs)?)),
        FieldKind::Name | FieldKind::NewName => Ok(FieldValue::Name(name(alloc, pairs)?)),
        FieldKind::Event => Ok(FieldValue::Event(event(pairs, by_round)?)),
        FieldKind::Round => Ok(FieldValue::Round(round(pairs)?.round)),
        FieldKind::Format => Ok(FieldValue::Format(format(pairs)?)),
        FieldKind::Cutoff => {
            let event = event(pairs, by_round)?;
            Ok(FieldValue::Cutoff(cutoff(alloc, pairs, event)?))
        }
        FieldKind::Limit => Ok(FieldValue::Limit(limit(alloc, pairs)?)),
        FieldKind::Advance => Ok(FieldValue::Advance(advance(pairs)?)),
        FieldKind::Attempt => Ok(FieldValue::Attempt(attempt(pairs)?)),
        FieldKind::Moves => Ok(FieldValue::Moves(moves(alloc, pairs)?)),
        FieldKind::Edition => Ok(FieldValue::Edition(ASKED_EDITION)),
        FieldKind::Outcome | FieldKind::Was | FieldKind::Now => Err(FieldFault::NO_FORM),
    }
}

fn is_round(kind: FieldKind) -> bool
    ensures { result ≡ is_round kind }
{
    matches!(kind, FieldKind::Round)
}

/// Whether a command of these fields has a round.
fn has_round(kinds: &[FieldKind]) -> bool
    ensures { result ≡ has_round kinds.now }
{
    kinds.iter().any(|kind| is_round(*kind))
}

/// The values of fields of these kinds; or the fault of the first that is wrong.
pub(crate) fn values(
    alloc: Global,
    pairs: &Pairs,
    kinds: &[FieldKind],
) -> Result<Values, FieldFault>
    requires { length kinds.now ≤ 6 }
    ensures values { IfOk result (λ vs. HasAll pairs.now kinds.now vs.items) }
    ensures lacks { IfErr result
        (IsSaid (IsFirstLacking (has_round kinds.now) pairs.now kinds.now)) }
{
    let by_round = has_round(kinds);
    let mut values = ArrayVec::new();
    for kind in kinds {
        values.push(value(alloc, pairs, by_round, *kind)?);
    }
    Ok(values)
}
