//! The program `pppd`: the process's words and streams, and nothing else.
#![tactic(auto)]

use ppp_cli::run_process;
use std::process::ExitCode;

/// Runs the program.
fn main(rt: HostRuntime) -> ExitCode {
    run_process(&rt)
}
