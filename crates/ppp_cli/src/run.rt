//! The whole program.

ghost use Rattle.std.specs.Prelude.{◌≡◌, ◌≢◌, ◌+◌, IsSome, Some, None};
ghost use Rattle.ppp_io.specs.Account.{IsDrained};
ghost use Rattle.ppp_io.specs.Fault.{Rose};
ghost use Rattle.ppp_cli.specs.Agreement.{AgreesIfReplayed};
ghost use Rattle.ppp_cli.specs.Answer.{Answers, SaysIfReadFault};
ghost use Rattle.ppp_cli.specs.Command.{command_in};
ghost use Rattle.ppp_cli.specs.Input.{TakesAtMost, TakesTooMany};
ghost use Rattle.ppp_cli.specs.Status.{IsOfRun, IsOfText};
ghost use Rattle.ppp_cli.specs.declared.input.TheConstants.{MOST_OCTETS};

use crate::command::Command;
use crate::input::{Input, read_input};
use crate::output::finish;
use crate::reply::reply_to_text;
use crate::status::Status;
use ppp_io::{Memory, Sink, Source};
use std::alloc::Global;

/// The line for words that are no command's.
const USAGE: &[u8] =
    b"usage: pppd replay, feed, show, vectors, soak SEED COUNT, serve TURNS, pair TURNS\n";

/// Runs the program: with the words behind its name, over an input and an output. It replies to the words, and to the
/// whole input where the words are a command's.
pub fn ppp_run<S: Source, K: Sink>(
    alloc: Global,
    args: &[String],
    input: &mut S,
    output: &mut K,
) -> Status
    // The status and the octets are those of the reply to exactly what was read, but for faults and want of memory.
    ensures reply { Answers (Rose (S.faults input.old) (S.faults input.new))
        (command_in args.now) (S.left input.old) (K.held output.old) (K.held output.new) result }

    // Where a run is replayed, in every state of it two Opened ends agree.
    ensures agreement { IsOfRun result → AgreesIfReplayed (command_in args.now) (S.left input.old) }
    ensures words { result ≡ Status.BadWords → command_in args.now ≡ None }
    ensures unread { command_in args.now ≡ None → S.left input.new ≡ S.left input.old }
    ensures read { result ≡ Status.ReadFault → Rose (S.faults input.old) (S.faults input.new) }
    ensures read_words { result ≡ Status.ReadFault → IsSome (command_in args.now) }
    ensures read_line { SaysIfReadFault result (K.held output.old) (K.held output.new) }
    ensures read_end { IsOfText result → IsDrained (S.left input.new) }
    ensures taken { TakesAtMost (MOST_OCTETS + 1) (S.left input.old) (S.left input.new) }
    ensures long { result ≡ Status.TooLong → TakesTooMany (S.left input.old) (S.left input.new) }
    ensures write { result ≡ Status.WriteFault → Rose (K.faults output.old) (K.faults output.new) }
{
    match Command::of(args) {
        None => finish(output, Status::BadWords, USAGE),
        Some(command) => run_command(alloc, command, input, output),
    }
}

/// Reads the command's input to its end, and writes the reply.
fn run_command<S: Source, K: Sink>(
    alloc: Global,
    command: Command,
    input: &mut S,
    output: &mut K,
) -> Status
    ensures reply { Answers (Rose (S.faults input.old) (S.faults input.new))
        (Some command) (S.left input.old) (K.held output.old) (K.held output.new) result }
    ensures words { result ≢ Status.BadWords }
    ensures read { result ≡ Status.ReadFault → Rose (S.faults input.old) (S.faults input.new) }
    ensures read_line { SaysIfReadFault result (K.held output.old) (K.held output.new) }
    ensures read_end { IsOfText result → IsDrained (S.left input.new) }
    ensures taken { TakesAtMost (MOST_OCTETS + 1) (S.left input.old) (S.left input.new) }
    ensures long { result ≡ Status.TooLong → TakesTooMany (S.left input.old) (S.left input.new) }
    ensures write { result ≡ Status.WriteFault → Rose (K.faults output.old) (K.faults output.new) }
{
    match read_input(alloc, input) {
        Input::Text(text) => match reply_to_text(alloc, command, &text) {
            Ok(reply) => finish(output, reply.status, &reply.octets),
            Err(Memory) => Status::Memory,
        },
        Input::TooLong => finish(output, Status::TooLong, b"too long\n"),
        Input::Failed => finish(output, Status::ReadFault, b"read fault\n"),
        Input::Memory => Status::Memory,
    }
}
