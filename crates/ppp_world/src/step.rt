//! The steps of a script.

ghost use Rattle.std.specs.Prelude.{◌≡◌, ◌≤◌};
ghost use Rattle.ppp_world.specs.Step.{if_linked, settling, step_of, IsLinked};

use ppp_party::Happening;
use ppp_script::{End, Event};
use ppp_station::BapAsk;

/// One step. The number is of a link, from 1 on.
#[derive(Clone, Copy, Debug, PartialEq, Eq)]
pub(crate) enum Step {
    /// Something happens to a link of an end.
    Happens(End, u8, Happening),
    /// An end takes the front frame under way to it on a link.
    Delivers(End, u8),
    /// An end asks the peer of a link's bundle (after RFC 2125).
    Asks(End, u8, BapAsk),
    /// An end tells the peer of a link's bundle how a call went.
    Tells(End, u8, u8),
    /// BAP's timer fires at the bundle whose control link that is.
    Tries(End, u8),
    /// The frame under way to an end on a link of that place from the front, from 1 on, is lost.
    Loses(End, u8, u16),
    /// An end begins anew.
    Reboots(End),
    /// The states are reported.
    Reports,
    /// Nothing happens.
    Rests,
}

impl Step {
    /// The step of an event that is one step, in a world of so many links.
    pub(crate) fn of(event: &Event, links: u8) -> Step
        ensures value { result ≡ step_of links event.now }
        ensures linked { IsLinked links result }
    {
        match *event {
            Event::Up(end, link) => happens(links, end, link, Happening::LineUp),
            Event::Down(end, link) => happens(links, end, link, Happening::LineDown),
            Event::AdminOpen(end, link, proto) => {
                happens(links, end, link, Happening::Opens(proto))
            }
            Event::AdminClose(end, link, proto) => {
                happens(links, end, link, Happening::Closes(proto))
            }
            Event::Timeout(end, link, proto) => {
                happens(links, end, link, Happening::TimesOut(proto))
            }
            Event::BapTimeout(end, link) => if_linked(links, link, Step::Tries(end, link)),
            Event::Deliver(end, link) => if_linked(links, link, Step::Delivers(end, link)),
            Event::Lose(end, link, place) => if_linked(links, link, Step::Loses(end, link, place)),
            Event::Settle(_) => Step::Rests,
            Event::Reboot(end) => Step::Reboots(end),
            Event::Call(end, link) => if_linked(links, link, Step::Asks(end, link, BapAsk::Call)),
            Event::Callback(end, link) => {
                if_linked(links, link, Step::Asks(end, link, BapAsk::Callback))
            }
            Event::Drop(end, link) => {
                if_linked(links, link, Step::Asks(end, link, BapAsk::Drop(link)))
            }
            Event::Status(end, link, status) => {
                if_linked(links, link, Step::Tells(end, link, status))
            }
            Event::Show => Step::Reports,
        }
    }
}

/// How many deliveries an event settles by: None exactly where it is one step.
pub(crate) fn settling(event: &Event) -> Option<u16>
    ensures { result ≡ settling event.now }
{
    match *event {
        Event::Settle(count) => Some(count),
        _ => None,
    }
}

/// The step of something that happens to a link of an end.
fn happens(links: u8, end: End, link: u8, what: Happening) -> Step
    ensures value { result ≡ if_linked links link (Step.Happens end link what) }
    ensures linked { IsLinked links result }
{
    if_linked(links, link, Step::Happens(end, link, what))
}

/// A step on a link: nothing, where there is no such link.
fn if_linked(links: u8, link: u8, step: Step) -> Step
    requires { 1 ≤ link → link ≤ links → IsLinked links step }
    ensures value { result ≡ if_linked links link step }
    ensures linked { IsLinked links result }
{
    if 1 <= link && link <= links {
        step
    } else {
        Step::Rests
    }
}
