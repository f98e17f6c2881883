//! A screen for the hall: keeps the hall's log up itself, and serves its sheets as pages, for a
//! projector and for phones.
#![tactic(auto)]

mod options;

use board_service::PROGRAM;
use command_line::given;
use hall_file::hall_options::tell_no_arguments;
use options::run_given;
use prompt_lines::PromptLines;
use std::process::ExitCode;

fn main(rt: HostRuntime) -> ExitCode {
    let mut output = rt.stdout();
    let mut faults = PromptLines::new(rt.stderr(), rt.alloc());
    let status = match given(&rt) {
        Ok(texts) => run_given(&rt, &texts, &mut output, &mut faults),
        Err(error) => tell_no_arguments(&mut faults, PROGRAM, &error),
    };
    ExitCode::from(status)
}
