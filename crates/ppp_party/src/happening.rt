//! What happens at an end.

ghost use Rattle.std.specs.Prelude.{◌≡◌, ◌≤◌, length};
ghost use Rattle.ppp_party.specs.Happening.{happening_seen};
ghost use Rattle.ppp_trunk.specs.Moves.{AreLinked};
ghost use Rattle.ppp_station.specs.Station.{moves};
ghost use Rattle.ppp_trunk.specs.Trunk.{IsOfLink};
ghost use Rattle.ppp_trunk.specs.StationOut.{AreShort};
ghost use Rattle.ppp_trunk.specs.declared.station_out.TheConstants.{MOST_ENTRIES};

use ppp_packet::Proto;
use ppp_station::{Policy, Station, StationEvent, StationOut};

/// What happens at an end and brings no frame.
#[derive(Clone, Copy, Debug, PartialEq, Eq)]
pub enum Happening {
    /// The line comes up.
    LineUp,
    /// The line goes down.
    LineDown,
    /// A protocol is to be opened; nothing happens where it isn't configured.
    Opens(Proto),
    /// A protocol is to be closed; nothing happens where it isn't configured.
    Closes(Proto),
    /// The restart timer of a protocol fires; nothing happens where it isn't on.
    TimesOut(Proto),
}

/// It happens at a link of a station.
pub(crate) fn happen_at<F: Policy>(
    station: &mut Station<F>,
    what: Happening,
    link: u8,
    word: u64,
    out: &mut StationOut,
)
    requires { IsOfLink (length station.old.station.trunk.links) link }
    ensures station { station.new.station ≡ (moves (happening_seen what) link station.old.station word).station }
    ensures policy { station.new.policy ≡ station.old.policy }
    ensures out { out.new ≡ (moves (happening_seen what) link station.old.station word).out }
    ensures short { AreShort out.new.entries }
    ensures few { length out.new.entries ≤ MOST_ENTRIES }
    ensures linked { AreLinked (length station.new.station.trunk.links) out.new.entries }
{
    match what {
        Happening::LineUp => station.event(StationEvent::Up(link), word, out),
        Happening::LineDown => station.event(StationEvent::Down(link), word, out),
        Happening::Opens(proto) => station.event(StationEvent::AdminOpen(link, proto), word, out),
        Happening::Closes(proto) => station.event(StationEvent::AdminClose(link, proto), word, out),
        Happening::TimesOut(proto) => station.event(StationEvent::Timeout(link, proto), word, out),
    }
}
