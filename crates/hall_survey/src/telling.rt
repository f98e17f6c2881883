//! The line that says that a desk differs.

use std::io::Write;
use wire::Difference;

/// Says on a line, in the name of a program, that a desk of the hall differs. A line that can't be
/// written is left out.
pub fn tell_difference<F: Write>(faults: &mut F, program: &str, difference: Difference) {
    let _ = match difference {
        Difference::OtherEntry { desk, position } => writeln!(
            faults,
            "{program}: desk {desk} has another command at {position}: see HALL, 'Two desks differ'"
        ),
        Difference::Shorter { desk, length } => writeln!(
            faults,
            "{program}: desk {desk} has {length} commands and had more: see HALL, 'Two desks differ'"
        ),
    };
}
