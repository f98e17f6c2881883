//! The code for each refusal of a round's table.

ghost use Rattle.std.specs.Prelude.{◌≡◌};
ghost use Rattle.commands.specs.Accepted.{put_code, correct_code, strike_code, close_code};
ghost use Rattle.commands.specs.Accepted.{rules_code, reopen_code, set_code, fix_code};

use rounds::{
    CloseFault, CorrectFault, FixFault, PutFault, ReopenFault, RulesFault, SetFault, StrikeFault,
};
use texts::Code;

/// The code for a table's refusal of an attempt.
pub(crate) fn put_code(fault: PutFault) -> Code
    ensures { result ≡ put_code fault }
{
    match fault {
        PutFault::Closed => Code::Closed,
        PutFault::NotEntered => Code::NotEntered,
        PutFault::OutOfOrder => Code::OutOfOrder,
        PutFault::NoMoreAttempts => Code::NoMoreAttempts,
    }
}

/// The code for a table's refusal of a correction.
pub(crate) fn correct_code(fault: CorrectFault) -> Code
    ensures { result ≡ correct_code fault }
{
    match fault {
        CorrectFault::Closed => Code::Closed,
        CorrectFault::NotEntered => Code::NotEntered,
        CorrectFault::NoSuchAttempt => Code::NoSuchAttempt,
        CorrectFault::CutoffLost => Code::CutoffLost,
    }
}

/// The code for a table's refusal to strike an attempt.
pub(crate) fn strike_code(fault: StrikeFault) -> Code
    ensures { result ≡ strike_code fault }
{
    match fault {
        StrikeFault::Closed => Code::Closed,
        StrikeFault::NotEntered => Code::NotEntered,
        StrikeFault::NoSuchAttempt => Code::NoSuchAttempt,
    }
}

/// The code for a table's refusal to be closed.
pub(crate) fn close_code(fault: CloseFault) -> Code
    ensures { result ≡ close_code fault }
{
    match fault {
        CloseFault::Closed => Code::Closed,
        CloseFault::Unfinished => Code::Unfinished,
    }
}

/// The code for a table's refusal of other rules.
pub(crate) fn rules_code(fault: RulesFault) -> Code
    ensures { result ≡ rules_code fault }
{
    match fault {
        RulesFault::Closed => Code::Closed,
        RulesFault::HasAttempts => Code::HasAttempts,
    }
}

/// The code for a table's refusal to be opened again.
pub(crate) fn reopen_code(fault: ReopenFault) -> Code
    ensures { result ≡ reopen_code fault }
{
    match fault {
        ReopenFault::NotClosed => Code::NotClosed,
    }
}

/// The code for a table's refusal of other values.
pub(crate) fn set_code(fault: SetFault) -> Code
    ensures { result ≡ set_code fault }
{
    match fault {
        SetFault::Closed => Code::Closed,
        SetFault::NotEntered => Code::NotEntered,
        SetFault::NoMoreAttempts => Code::NoMoreAttempts,
    }
}

/// The code for the refusal of a closed table.
pub(crate) fn fix_code(fault: FixFault) -> Code
    ensures { result ≡ fix_code fault }
{
    match fault {
        FixFault::NotClosed => Code::NotClosed,
        FixFault::NotEntered => Code::NotEntered,
        FixFault::NoMoreAttempts => Code::NoMoreAttempts,
        FixFault::Unfinished => Code::Unfinished,
    }
}
