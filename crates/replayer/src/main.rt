//! The subcommand `replay` of the results desk as a program of its own: it depends on the results
//! half alone, so it is proved and built sooner than the whole program.
#![tactic(auto)]

mod running;

use command_line::given;
use fault_lines::tell_no_arguments;
use running::run_given;
use std::process::ExitCode;

fn main(rt: HostRuntime) -> ExitCode {
    let mut input = rt.stdin();
    let mut output = rt.stdout();
    let mut faults = rt.stderr();
    let status = match given(&rt) {
        Ok(texts) => run_given(rt.alloc(), &texts, &mut input, &mut output, &mut faults),
        Err(error) => tell_no_arguments(&error, &mut faults),
    };
    ExitCode::from(status)
}
