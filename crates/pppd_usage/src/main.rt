//! The program `pppd` again, whose stored run has two words that are no command's: it writes the usage line and exits with 2.
#![tactic(auto)]

use ppp_cli::run_process;
use std::process::ExitCode;

/// Runs the program.
fn main(rt: HostRuntime) -> ExitCode {
    run_process(&rt)
}
