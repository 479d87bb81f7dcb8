//! How a Configure-Request is answered (RFC 1661 sections 5.2 to 5.4).

ghost use Rattle.std.specs.Prelude.{◌≡◌};
ghost use Rattle.ppp_packet.specs.Options.{written};
ghost use Rattle.ppp_auto.specs.Auto.{auto_seen};
ghost use Rattle.ppp_auto.specs.Judged.{AreSettled};
ghost use Rattle.ppp_auto.specs.Reply.{is_spent, reply_seen, reply_to};
ghost use Rattle.ppp_auto.specs.Taken.{IsRequestSettled, RepliesTo};

use crate::answer::Answer;
use crate::auto::Auto;
use crate::input::Input;
use crate::judged::Judged;
use crate::option_table::OptionTable;
use ppp_packet::Options;

/// Max-Failure: how many Configure-Naks are sent in turn (RFC 1661 section 4.6).
pub(crate) const MAX_FAILURE: u8 = 5;

/// What answers a Configure-Request, and the event that it is.
#[derive(Drop)]
pub(crate) struct Reply<'j> {
    pub(crate) input: Input,
    pub(crate) answer: Answer<'j>,
}

/// The reply to a request of these options, which lie in these octets, once they were judged.
pub(crate) fn reply_to<'j, T: OptionTable>(
    table: &T,
    auto: &Auto,
    judged: &'j Judged,
    id: u8,
    theirs: &Options<'_>,
    octets: &'j [u8],
    word: u64,
) -> Reply<'j>
    requires sendable { T.sendable table.now auto.now.own }
    requires octets { octets.now ≡ written theirs.now }
    requires settled { IsRequestSettled (T.table table.now) auto.now theirs.now word judged.now }
    ensures { RepliesTo (T.table table.now) auto.now id theirs.now word result }
{
    if judged.rejects() {
        return Reply {
            input: Input::ReceiveConfigureRequestBad,
            answer: Answer::reject(id, judged.front.octets()),
        };
    }
    if judged.front.is_empty() {
        return Reply {
            input: Input::ReceiveConfigureRequestGood,
            answer: Answer::ack(id, octets),
        };
    }
    Reply {
        input: Input::ReceiveConfigureRequestBad,
        answer: Answer::nak(id, judged.front.octets()),
    }
}

/// Whether Configure-Naks are spent.
pub(crate) fn is_spent(naks: u8) -> bool
    ensures { result ≡ is_spent naks }
{
    MAX_FAILURE <= naks
}
