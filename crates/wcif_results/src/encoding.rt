//! Results as numbers of the WCA Competition Interchange Format.

ghost use Rattle.std.specs.Prelude.{◌≡◌};
ghost use Rattle.formats.specs.Results.{best_of};
ghost use Rattle.wcif_results.specs.Encoding.{attempt_result, best_result, average_result};

use attempts::Value;
use formats::Averaged;

/// DNF.
const DNF: i64 = -1;

/// DNS.
const DNS: i64 = -2;

/// An attempt as an `AttemptResult`: its number, in hundredths of a second, in moves or as the
/// WCA's number of multi-blind; -1 is DNF and -2 is DNS.
pub fn attempt_result(value: Value) -> i64
    ensures { result ≡ attempt_result value }
{
    match value {
        Value::Number(number) => i64::from(number),
        Value::Dnf => DNF,
        Value::Dns => DNS,
    }
}

/// The best of these attempts as an `AttemptResult`, given the best value; 0 where there is no
/// attempt.
pub fn best_result(values: &[Value], best: Value) -> i64
    requires { best ≡ best_of values.now }
    ensures { result ≡ best_result values.now }
{
    if values.is_empty() {
        0
    } else {
        attempt_result(best)
    }
}

/// An average as an `AttemptResult`: in hundredths of a second or of a move; -1 is DNF, and 0 says
/// that there is none.
pub fn average_result(average: Averaged) -> i64
    ensures { result ≡ average_result average }
{
    match average {
        Averaged::Number(number) => i64::from(number),
        Averaged::Dnf => DNF,
        Averaged::Missing => 0,
    }
}
