//! A run of the program over devices that never fail.

ghost use Rattle.std.specs.Prelude.{◌≢◌};
ghost use Rattle.ppp_io.specs.SureSink.{held_if_told};
ghost use Rattle.ppp_cli.specs.Answer.{RepliesWhole};
ghost use Rattle.ppp_cli.specs.Command.{command_in};

use crate::run::ppp_run;
use crate::status::Status;
use ppp_io::{SureSink, SureSource};
use std::alloc::Global;

/// Runs the program over a source and a sink in memory that never fail. Neither a read nor a write fault comes, and but
/// for want of memory the reply is answered and written whole.
pub fn run_surely(
    alloc: Global,
    args: &[String],
    input: &mut SureSource,
    output: &mut SureSink,
) -> Status
    ensures read { result ≢ Status.ReadFault }
    ensures write { result ≢ Status.WriteFault }
    ensures whole { RepliesWhole (command_in args.now) input.old.left result
        (held_if_told output.old) (held_if_told output.new) }
{
    ppp_run(alloc, args, input, output)
}
