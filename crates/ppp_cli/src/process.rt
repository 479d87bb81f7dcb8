//! A run of the program as a process.

ghost use Rattle.std.specs.Prelude.{◌≡◌, IfOk};
ghost use Rattle.std.specs.Process.{exit_status};
ghost use Rattle.std.specs.Vec.Iter.{into_iter_items};
ghost use Rattle.ppp_cli.specs.Command.{command_in};
ghost use Rattle.ppp_cli.specs.Process.{ExitsBy, MayEnd, behind_first, words_in};
ghost use Rattle.ppp_cli.specs.Status.{code_of};

use crate::run::ppp_run;
use crate::status::Status;
use ppp_io::{Memory, Sink, Source, StdSink, StdSource};
use std::alloc::Global;
use std::env::{Args, Env};
use std::io::ErrorKind;
use std::process::ExitCode;
use std::{env, io};

/// Runs the program over a process's standard input and standard output, with the words behind its name.
pub fn run_process<R: Env + Input + Print + AllocGlobal>(rt: &R) -> ExitCode {
    let mut input = StdSource::new(rt.reader());
    let mut output = StdSink::new(io::writer(rt));
    run_args(rt.alloc(), env::args(rt), &mut input, &mut output)
}

/// Runs the program with a process's arguments, the first of which is its name, and gives what the process exits with.
/// Where an argument isn't text, there are no words.
pub fn run_args<S: Source, K: Sink>(
    alloc: Global,
    args: io::Result<Args>,
    input: &mut S,
    output: &mut K,
) -> ExitCode
    ensures { ExitsBy result (MayEnd (command_in (words_in args))
        (S.left input.old) (S.left input.new) (K.held output.old) (K.held output.new)
        (S.faults input.old) (S.faults input.new) (K.faults output.old) (K.faults output.new)) }
{
    match words_behind_name(alloc, args) {
        Ok(words) => exit_code(ppp_run(alloc, &words, input, output)),
        Err(Memory) => exit_code(Status::Memory),
    }
}

/// The words behind the program's name, all of them in order. None where one isn't text.
fn words_behind_name(alloc: Global, args: io::Result<Args>) -> Result<Vec<String>, Memory>
    ensures { IfOk result (λ words. words.items ≡ words_in args) }
{
    match args {
        Ok(args) => skip_name(alloc, args),
        Err(error) if error.kind() == ErrorKind::OutOfMemory => Err(Memory),
        Err(_) => Ok(Vec::new(alloc)),
    }
}

/// All arguments behind the first, in order.
fn skip_name(alloc: Global, mut args: Args) -> Result<Vec<String>, Memory>
    ensures { IfOk result (λ words. words.items ≡ behind_first (into_iter_items args)) }
{
    let mut words = Vec::new(alloc);
    let Some(_name) = args.next() else {
        return Ok(words);
    };
    'words: while let Some(word) = args.next() {
        words.push(word)?;
    }
    Ok(words)
}

/// What the process exits with: the status's number.
fn exit_code(status: Status) -> ExitCode
    ensures { exit_status result ≡ code_of status }
{
    ExitCode::from(status.code())
}
