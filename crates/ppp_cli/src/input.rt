//! The input, read to its end.

ghost use Rattle.std.specs.Prelude.{◌+◌, ◌≤◌};
ghost use Rattle.ppp_cli.specs.Input.{IsInput, TakesAtMost};

use ppp_io::{ReadGot, Source};
use std::alloc::Global;

/// The most octets that an input has. One more, and it is too long.
pub(crate) const MOST_OCTETS: usize = 1_048_576;

/// How many octets one read asks for at most.
const CHUNK: usize = 8_192;

/// What came of reading an input.
#[derive(Drop)]
pub(crate) enum Input {
    /// The whole input.
    Text(Vec<u8>),
    /// More octets came than an input has.
    TooLong,
    /// A read failed.
    Failed,
    /// Memory wanted.
    Memory,
}

/// Reads the input to its end, or until too many octets came.
pub(crate) fn read_input<S: Source>(alloc: Global, input: &mut S) -> Input
    ensures read { IsInput (S.left input.old) (S.left input.new)
        (S.faults input.old) (S.faults input.new) result }
    ensures taken { TakesAtMost (MOST_OCTETS + 1) (S.left input.old) (S.left input.new) }
    ensures later { S.faults input.old ≤ S.faults input.new }
{
    let mut text = Vec::new(alloc);
    let mut chunk = [0u8; CHUNK];
    'reads: while text.len() <= MOST_OCTETS {
        let most = CHUNK.min(MOST_OCTETS + 1 - text.len());
        match input.read(&mut chunk[..most]) {
            ReadGot::Got(count) => {
                let Ok(()) = text.extend_from_slice(&chunk[..count]) else {
                    return Input::Memory;
                };
            }
            ReadGot::End => return Input::Text(text),
            ReadGot::Failed => return Input::Failed,
        }
    }
    Input::TooLong
}
