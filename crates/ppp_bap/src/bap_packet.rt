//! What BAP packets say.

ghost use Rattle.std.specs.Prelude.{◌≡◌, ◌≤◌, [], ◌∷◌, ◌++◌, length};
ghost use Rattle.ppp_packet.specs.Options.{written};
ghost use Rattle.ppp_bap.specs.BapPacket.{answering, asking, code_of, delta_option, link_in, message_of, number_in, number_option, offer_in, offer_of, offer_option, options_in, packet_of, status_in, type_of};
ghost use Rattle.ppp_bap.specs.declared.bap_packet.TheConstants.{MOST_BEFORE};

use crate::bap_option::{BapOption, put_option, read_fit_options};
use crate::link_type::LinkType;
use crate::packet_type::PacketType;
use crate::phone_delta::{link_named, phone_delta};
use crate::response_code::ResponseCode;
use bitflags::Flags;
use byteorder::{BigEndian, ByteOrder};
use ppp_options::{first_of, octets_u16};
use ppp_packet::{OptList, Options, read_packet};

/// The most octets of options before a Phone-Delta: those of a Link-Type.
const MOST_BEFORE: usize = 5;

/// What link an end offers (RFC 2125, the Link-Type option).
#[derive(Clone, Copy, Debug, PartialEq, Eq)]
pub(crate) struct Offer {
    /// Its speed in kbit/s.
    pub(crate) speed: u16,
    /// The kinds of link it may be.
    pub(crate) kind: LinkType,
}

/// What a request asks, in the words of the line.
#[derive(Clone, Copy, Debug, PartialEq, Eq)]
pub(crate) enum Request {
    /// A Call-Request: to call.
    Call(Offer),
    /// A Callback-Request: to be called, on the link that its number names.
    Callback(Offer, Option<u8>),
    /// A Link-Drop-Query-Request: to drop the link that has this number at the receiver.
    Drop(u16),
}

/// What a response says, and to what.
#[derive(Clone, Copy, Debug, PartialEq, Eq)]
pub(crate) enum Response {
    /// A Call-Response; in an Ack with a number that names the link to call.
    Call(ResponseCode, Option<u8>),
    /// A Callback-Response.
    Callback(ResponseCode),
    /// A Link-Drop-Query-Response.
    Drop(ResponseCode),
}

/// What a packet says.
#[derive(Clone, Copy, Debug, PartialEq, Eq)]
pub(crate) enum Message {
    /// A request.
    Request(Request),
    /// A response to one.
    Response(Response),
    /// A Call-Status-Indication: how a call went, and what is done next.
    StatusIndication(u8, u8),
    /// A Call-Status-Response, with its response code.
    StatusResponse(ResponseCode),
}

/// A BAP packet (RFC 2125).
#[derive(Clone, Copy, Debug, PartialEq, Eq)]
pub(crate) struct BapPacket {
    /// The Identifier.
    pub(crate) id: u8,
    /// What it says.
    pub(crate) message: Message,
}

impl Message {
    /// The packet's Type.
    pub(crate) fn packet_type(&self) -> PacketType
        ensures { result ≡ type_of self.now }
    {
        match self {
            Message::Request(Request::Call(_)) => PacketType::CallRequest,
            Message::Request(Request::Callback(_, _)) => PacketType::CallbackRequest,
            Message::Request(Request::Drop(_)) => PacketType::DropRequest,
            Message::Response(Response::Call(_, _)) => PacketType::CallResponse,
            Message::Response(Response::Callback(_)) => PacketType::CallbackResponse,
            Message::Response(Response::Drop(_)) => PacketType::DropResponse,
            Message::StatusIndication(_, _) => PacketType::StatusIndication,
            Message::StatusResponse(_) => PacketType::StatusResponse,
        }
    }

    /// The response code, where it has one.
    pub(crate) fn code(&self) -> Option<ResponseCode>
        ensures { result ≡ code_of self.now }
    {
        match self {
            Message::Response(Response::Call(code, _))
            | Message::Response(Response::Callback(code))
            | Message::Response(Response::Drop(code))
            | Message::StatusResponse(code) => Some(*code),
            Message::Request(_) | Message::StatusIndication(_, _) => None,
        }
    }

    /// The options.
    pub(crate) fn options(&self) -> OptList
        ensures { result ≡ options_in self.now }
    {
        let mut options = OptList::new();
        match self {
            Message::Request(Request::Call(offer)) => put_offer(&mut options, *offer),
            Message::Request(Request::Callback(offer, link)) => {
                put_offer(&mut options, *offer);
                put_phone_delta(&mut options, *link);
            }
            Message::Request(Request::Drop(number)) => put_number(&mut options, *number),
            Message::Response(Response::Call(_, Some(link))) => {
                put_phone_delta(&mut options, Some(*link));
            }
            Message::StatusIndication(status, action) => {
                put_option(
                    &mut options,
                    BapOption::CallStatus.number(),
                    &[*status, *action],
                );
            }
            Message::Response(_) | Message::StatusResponse(_) => {}
        }
        options
    }
}

/// Puts a Link-Type before other options.
fn put_offer(options: &mut OptList, offer: Offer)
    requires { options.old ≡ [] }
    ensures { options.new ≡ offer_option offer ∷ [] }
{
    let [high, low] = octets_u16(offer.speed);
    put_option(
        options,
        BapOption::LinkType.number(),
        &[high, low, offer.kind.bits()],
    );
}

/// Puts a Phone-Delta behind others: one that names a link, or an empty one.
fn put_phone_delta(options: &mut OptList, link: Option<u8>)
    requires { length (written options.old) ≤ MOST_BEFORE }
    ensures { options.new ≡ options.old ++ delta_option link ∷ [] }
{
    let parts = match link {
        Some(link) => phone_delta(link),
        None => OptList::new(),
    };
    put_option(options, BapOption::PhoneDelta.number(), parts.octets());
}

/// Puts a Link-Discriminator before other options.
fn put_number(options: &mut OptList, number: u16)
    requires { options.old ≡ [] }
    ensures { options.new ≡ number_option number ∷ [] }
{
    put_option(
        options,
        BapOption::LinkDiscriminator.number(),
        &octets_u16(number),
    );
}

/// Reads a packet. None exactly where octets are none: the lengths don't fit, the Type isn't 1 to 8, a known option hasn't
/// the body of its Type, or the first option of a Type that this Type of packet has to have isn't there.
#[tactic(auto, unfolding(crate::specs::BapPacket::packet_of))]
pub(crate) fn read_bap(octets: &[u8]) -> Option<BapPacket>
    ensures { result ≡ packet_of octets.now }
{
    let packet = read_packet(octets)?;
    let packet_type = PacketType::read(packet.code)?;
    let message = read_message(packet_type, packet.rest)?;
    Some(BapPacket {
        id: packet.id,
        message,
    })
}

/// Reads what a packet of a Type says, behind its header.
fn read_message(packet_type: PacketType, octets: &[u8]) -> Option<Message>
    ensures { result ≡ message_of packet_type octets.now }
{
    if !packet_type.has_code() {
        return asking(packet_type, &read_fit_options(octets)?);
    }
    let (code, behind) = octets.split_first()?;
    answering(
        packet_type,
        ResponseCode::read(*code),
        &read_fit_options(behind)?,
    )
}

/// What a packet without a response code says.
fn asking(packet_type: PacketType, options: &Options<'_>) -> Option<Message>
    ensures { result ≡ asking packet_type options.now }
{
    match packet_type {
        PacketType::CallRequest => Some(Message::Request(Request::Call(offer_in(options)?))),
        PacketType::CallbackRequest => {
            let offer = offer_in(options)?;
            let delta = first_of(options, BapOption::PhoneDelta.number())?;
            Some(Message::Request(Request::Callback(offer, link_named(delta))))
        }
        PacketType::DropRequest => Some(Message::Request(Request::Drop(number_in(options)?))),
        PacketType::StatusIndication => status_in(options),
        _ => None,
    }
}

/// What a packet with a response code says.
fn answering(packet_type: PacketType, code: ResponseCode, options: &Options<'_>) -> Option<Message>
    ensures { result ≡ answering packet_type code options.now }
{
    match packet_type {
        PacketType::CallResponse => Some(Message::Response(Response::Call(code, link_in(options)))),
        PacketType::CallbackResponse => Some(Message::Response(Response::Callback(code))),
        PacketType::DropResponse => Some(Message::Response(Response::Drop(code))),
        PacketType::StatusResponse => Some(Message::StatusResponse(code)),
        _ => None,
    }
}

/// What the first Link-Type offers.
fn offer_in(options: &Options<'_>) -> Option<Offer>
    ensures { result ≡ offer_in options.now }
{
    read_offer(first_of(options, BapOption::LinkType.number())?)
}

/// What the body of a Link-Type offers.
fn read_offer(body: &[u8]) -> Option<Offer>
    ensures { result ≡ offer_of body.now }
{
    match body {
        [_, _, bits] => Some(Offer {
            speed: BigEndian::read_u16(&body[..2]),
            kind: LinkType::known(*bits),
        }),
        _ => None,
    }
}

/// The number in the first Link-Discriminator.
fn number_in(options: &Options<'_>) -> Option<u16>
    ensures { result ≡ number_in options.now }
{
    let body = first_of(options, BapOption::LinkDiscriminator.number())?;
    match body {
        [_, _] => Some(BigEndian::read_u16(body)),
        _ => None,
    }
}

/// What the first Call-Status tells.
fn status_in(options: &Options<'_>) -> Option<Message>
    ensures { result ≡ status_in options.now }
{
    match first_of(options, BapOption::CallStatus.number())? {
        [status, action] => Some(Message::StatusIndication(*status, *action)),
        _ => None,
    }
}

/// The link that the first Phone-Delta names.
fn link_in(options: &Options<'_>) -> Option<u8>
    ensures { result ≡ link_in options.now }
{
    link_named(first_of(options, BapOption::PhoneDelta.number())?)
}
