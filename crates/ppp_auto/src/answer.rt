//! The packet that answers another.

ghost use Rattle.std.specs.Prelude.{◌≡◌, ◌+◌, ◌<◌, ◌≤◌, length, ◌++◌, ◌∷◌, [], Some};
ghost use Rattle.ppp_packet.specs.declared.code.Code.TheVariants.{EchoReply};
ghost use Rattle.ppp_packet.specs.Code.{code_number};
ghost use Rattle.ppp_packet.specs.Options.{HoldsOptions, list_of};
ghost use Rattle.ppp_auto.specs.Packet.{Ack, Nak, Reject, Other, octets_of};
ghost use Rattle.ppp_auto.specs.Automaton.{is_nak};
ghost use Rattle.ppp_auto.specs.Outbox.{Send};
ghost use Rattle.ppp_auto.specs.Taken.{four_octets};
ghost use Rattle.ppp_auto.specs.declared.outbox.TheConstants.{MOST_REST, SLOTS};
ghost use Rattle.ppp_auto.specs.declared.taken.TheConstants.{MAGIC};

use crate::outbox::{MOST_REST, Outbox};
use crate::taken::MAGIC;
use arrayvec::ArrayVec;
use byteorder::{BigEndian, ByteOrder};
use ppp_packet::Code;
use std::marker::Model;

/// A packet of at most 1,500 octets that answers another. It is seen as that packet.
#[derive(Drop)]
pub(crate) struct Answer<'a> {
    code: Code,
    id: u8,
    /// The Magic-Number before the data of an Echo-Reply.
    magic: Option<u32>,
    rest: &'a [u8],
}

impl<'a> Model for Answer<'a> {
    ghost use Rattle.ppp_auto.specs.Packet.{Packet};

    ghost Value = { Packet };

    ghost use Rattle.ppp_auto.specs.Answer.{answer_seen, IsAnswer};

    ghost view = { answer_seen };

    ghost invariant = { IsAnswer };
}

impl<'a> Answer<'a> {
    /// A Configure-Ack with the options of these octets.
    pub(crate) fn ack(id: u8, octets: &'a [u8]) -> Answer<'a>
        requires options { HoldsOptions octets.now }
        requires short { length octets.now ≤ MOST_REST }
        ensures { result ≡ Ack id (list_of octets.now) }
    {
        Answer {
            code: Code::ConfigureAck,
            id,
            magic: None,
            rest: octets,
        }
    }

    /// A Configure-Nak with the options of these octets.
    pub(crate) fn nak(id: u8, octets: &'a [u8]) -> Answer<'a>
        requires options { HoldsOptions octets.now }
        requires short { length octets.now ≤ MOST_REST }
        ensures { result ≡ Nak id (list_of octets.now) }
    {
        Answer {
            code: Code::ConfigureNak,
            id,
            magic: None,
            rest: octets,
        }
    }

    /// A Configure-Reject with the options of these octets.
    pub(crate) fn reject(id: u8, octets: &'a [u8]) -> Answer<'a>
        requires options { HoldsOptions octets.now }
        requires short { length octets.now ≤ MOST_REST }
        ensures { result ≡ Reject id (list_of octets.now) }
    {
        Answer {
            code: Code::ConfigureReject,
            id,
            magic: None,
            rest: octets,
        }
    }

    /// An Echo-Reply with this Magic-Number and these data.
    pub(crate) fn echo(id: u8, magic: u32, rest: &'a [u8]) -> Answer<'a>
        requires { MAGIC + length rest.now ≤ MOST_REST }
        ensures { result ≡ Other (code_number EchoReply) id (four_octets magic ++ rest.now) }
    {
        Answer {
            code: Code::EchoReply,
            id,
            magic: Some(magic),
            rest,
        }
    }

    /// Whether it is a Configure-Nak.
    pub(crate) fn is_nak(&self) -> bool
        ensures { result ≡ is_nak (Some self.now) }
    {
        self.code == Code::ConfigureNak
    }

    /// Puts the packet at the end of an outbox.
    pub(crate) fn send(&self, out: &mut Outbox)
        requires { length out.old < SLOTS }
        ensures { out.new ≡ out.old ++ Send (octets_of self.now) ∷ [] }
    {
        match self.magic {
            None => out.send(self.code, self.id, self.rest),
            Some(magic) => {
                let octets = behind_magic(magic, self.rest);
                out.send(self.code, self.id, octets.as_slice());
            }
        }
    }
}

/// A Magic-Number and data behind it.
fn behind_magic(magic: u32, rest: &[u8]) -> ArrayVec<u8, MOST_REST>
    requires { MAGIC + length rest.now ≤ MOST_REST }
    ensures { result.items ≡ four_octets magic ++ rest.now }
{
    let mut number = [0; MAGIC];
    BigEndian::write_u32(&mut number, magic);
    let mut octets = ArrayVec::new();
    octets.try_extend_from_slice(&number).unwrap();
    octets.try_extend_from_slice(rest).unwrap();
    octets
}
