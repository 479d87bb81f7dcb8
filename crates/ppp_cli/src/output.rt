//! The output, written whole.

ghost use Rattle.ppp_cli.specs.Output.{Finishes};

use crate::status::Status;
use ppp_io::{Sink, Wrote};

/// Writes these octets and answers the status, or WriteFault where a write fails.
pub(crate) fn finish<K: Sink>(output: &mut K, status: Status, octets: &[u8]) -> Status
    ensures { Finishes (K.held output.old) (K.held output.new)
        (K.faults output.old) (K.faults output.new) status octets.now result }
{
    let mut at = 0;
    'writes: while at < octets.len() {
        let (_written, rest) = octets.split_at(at);
        match output.write(rest) {
            Wrote::Took(count) => at += count,
            Wrote::Failed => return Status::WriteFault,
        }
    }
    status
}
