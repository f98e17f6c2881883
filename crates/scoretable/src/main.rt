//! The score table: a program beside a scoretaker, whose pages take scorecards. It follows the
//! hall's log, and submits what is entered at a desk.
#![tactic(auto)]

mod options;

use command_line::given;
use hall_file::hall_options::tell_no_arguments;
use options::run_given;
use prompt_lines::PromptLines;
use std::process::ExitCode;
use table_service::PROGRAM;

fn main(rt: HostRuntime) -> ExitCode {
    let mut output = rt.stdout();
    let mut faults = PromptLines::new(rt.stderr(), rt.alloc());
    let status = match given(&rt) {
        Ok(texts) => run_given(&rt, &texts, &mut output, &mut faults),
        Err(error) => tell_no_arguments(&mut faults, PROGRAM, &error),
    };
    ExitCode::from(status)
}
