//! The results desk of a speedcubing competition.
#![tactic(auto)]

mod exported;
mod made_key;
mod running;
mod served;

use command_line::given;
use desk_requests::TcpDialer;
use fault_lines::tell_no_arguments;
use running::run_given;
use std::process::ExitCode;

fn main(rt: HostRuntime) -> ExitCode {
    let mut input = rt.stdin();
    let mut output = rt.stdout();
    let mut faults = rt.stderr();
    let mut dial = TcpDialer::new(&rt);
    let status = match given(&rt) {
        Ok(texts) => run_given(&rt, &mut dial, &texts, &mut input, &mut output, &mut faults),
        Err(error) => tell_no_arguments(&error, &mut faults),
    };
    ExitCode::from(status)
}
