//! The program `pppd`, over any source and sink. `ppp_run` takes the words behind the program's name, reads the input that
//! they call for and writes what is replied; `run_process` does so for a process, with its words and its streams. The rules
//! of words, input, output and exit statuses are this project's own.
#![tactic(auto)]

mod command;
mod input;
mod output;
mod process;
mod reply;
mod run;
mod status;
mod sure_run;

pub use process::{run_args, run_process};
pub use run::ppp_run;
pub use status::Status;
pub use sure_run::run_surely;
