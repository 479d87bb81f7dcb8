//! A station that is fed with the lines of a script, and what it wrote so far.

ghost use Rattle.std.specs.Prelude.{◌≡◌, ◌++◌, [], ℕ, length, All, IfOk, OnOk};
ghost use Rattle.std.specs.String.{string_bytes};
ghost use Rattle.ppp_conf.specs.EndConfig.{end_seen};
ghost use Rattle.ppp_feed.specs.EntryLine.{entry_line, entry_lines};
ghost use Rattle.ppp_feed.specs.Fed.{Adds};
ghost use Rattle.ppp_feed.specs.Feed.{line_does, takes_all, takes_frame, written_by, IsFeed};
ghost use Rattle.ppp_script.specs.FeedEvent.{IsWithin};
ghost use Rattle.ppp_station.specs.Shipped.{allows_up_to, shipped_does, IsShippedAs};
ghost use Rattle.ppp_station.specs.Station.{BeginsBy, IsOfLinks, IsUsedOf};
ghost use Rattle.ppp_trunk.specs.StationOut.{entry_seen};
ghost use Rattle.ppp_trunk.specs.Steps.{Takes, IsUsed};
ghost use Rattle.ppp_trunk.specs.Trunk.{IsOfLink};

use crate::entry_line::EntryLine;
use ppp_conf::EndConfig;
use ppp_memory::Memory;
use ppp_script::{FeedEvent, Script};
use ppp_station::{CallAsk, Policy, Station, StationEntry, StationEvent, StationOut};
use std::alloc::Global;

/// Feeds a station of these settings with a script that was read for as many links as they have, and gives the lines of
/// all that it sent and told, in order. The word of line k, from 1 on, is `2 * k`. Its policy lets a peer have another link exactly
/// where that is no faster than the settings' `max_speed`.
pub fn feed(
    alloc: Global,
    config: &EndConfig,
    script: &Script<FeedEvent>,
) -> Result<Vec<u8>, Memory>
    requires { All (IsWithin config.now.links) script.now }
    ensures { IfOk result (λ octets. IsFeed (end_seen config.now) script.now octets.items) }
{
    let max_speed = config.max_speed;
    feed_with(
        alloc,
        config,
        script,
        |call: &CallAsk| call.speed <= max_speed,
    )
}

/// Feeds a station with that policy, which is the one that comes with the program.
fn feed_with<F: Policy + Drop>(
    alloc: Global,
    config: &EndConfig,
    script: &Script<FeedEvent>,
    policy: F,
) -> Result<Vec<u8>, Memory>
    requires within { All (IsWithin config.now.links) script.now }
    requires may { F.may policy }
    requires shipped { IsShippedAs (F.says policy) config.now.max_speed }
    ensures { IfOk result (λ octets. IsFeed (end_seen config.now) script.now octets.items) }
{
    let mut fed = Fed::new(alloc, config, policy)?;
    for i in 0..script.count() {
        let k = i as u64 + 1;
        fed.take(script.at(i), 2 * k)?;
    }
    Ok(fed.into_octets())
}

/// A station that is fed, the entries of its last event, and the lines of all.
#[derive(Drop)]
pub(crate) struct Fed<F: Policy> {
    station: Station<F>,
    out: StationOut,
    text: String,
}

impl<F: Policy + Drop> Fed<F> {
    /// A station of these settings and with that policy, of which nothing is written.
    pub(crate) fn new(alloc: Global, config: &EndConfig, policy: F) -> Result<Fed<F>, Memory>
        requires { F.may policy }
        ensures begins { IfOk result (λ fed. BeginsBy (end_seen config.now) fed.station.station) }
        ensures policy { IfOk result (λ fed. fed.station.policy ≡ policy) }
        ensures text { IfOk result (λ fed. string_bytes fed.text ≡ []) }
    {
        Ok(Fed {
            station: Station::new(alloc, config, policy)?,
            out: StationOut::new(alloc)?,
            text: String::new(alloc),
        })
    }

    /// The lines of all.
    pub(crate) fn into_octets(self) -> Vec<u8>
        ensures { result.items ≡ string_bytes self.text }
    {
        self.text.into_bytes()
    }
}

impl<F: Policy> Fed<F> {
    /// A line happens, with that word, and what comes of it is written.
    #[tactic(auto, unfolding(crate::specs::Feed::line_does))]
    pub(crate) fn take(&mut self, event: &FeedEvent, word: u64) -> Result<(), Memory>
        requires { IsWithin (length self.old.station.station.trunk.links) event.now }
        ensures adds { (most : ℕ) → IsShippedAs (F.says self.old.station.policy) most → OnOk result
            (Adds (line_does (allows_up_to most) event.now self.old.station.station word) self.old.station.station (string_bytes self.old.text) self.new.station.station (string_bytes self.new.text)) }
        ensures policy { self.new.station.policy ≡ self.old.station.policy }
        ensures count { OnOk result (length self.new.station.station.trunk.links ≡ length self.old.station.station.trunk.links) }
    {
        match event {
            FeedEvent::Up(link) => self.happens(StationEvent::Up(*link), word),
            FeedEvent::Down(link) => self.happens(StationEvent::Down(*link), word),
            FeedEvent::AdminOpen(link, proto) => {
                self.happens(StationEvent::AdminOpen(*link, *proto), word)
            }
            FeedEvent::AdminClose(link, proto) => {
                self.happens(StationEvent::AdminClose(*link, *proto), word)
            }
            FeedEvent::Timeout(link, proto) => {
                self.happens(StationEvent::Timeout(*link, *proto), word)
            }
            FeedEvent::BapTimeout(link) => self.happens(StationEvent::BapTimeout(*link), word),
            FeedEvent::Bytes(link, octets) => self.take_octets(*link, octets.octets(), word),
        }
    }

    /// Octets come on a link, up to the end of each frame in turn.
    fn take_octets(&mut self, link: u8, octets: &[u8], word: u64) -> Result<(), Memory>
        requires { IsOfLink (length self.old.station.station.trunk.links) link }
        ensures adds { (most : ℕ) → IsShippedAs (F.says self.old.station.policy) most → OnOk result
            (Adds (takes_all (allows_up_to most) link octets.now self.old.station.station word) self.old.station.station (string_bytes self.old.text) self.new.station.station (string_bytes self.new.text)) }
        ensures policy { self.new.station.policy ≡ self.old.station.policy }
        ensures count { OnOk result (length self.new.station.station.trunk.links ≡ length self.old.station.station.trunk.links) }
    {
        let mut rest = octets;
        'frames: while !rest.is_empty() {
            let used = self.take_frame(link, rest, word)?;
            let (_taken, left) = rest.split_at(used);
            rest = left;
        }
        Ok(())
    }

    /// Octets come on a link, up to the end of the first frame or discard, and it is answered how many were used.
    fn take_frame(&mut self, link: u8, octets: &[u8], word: u64) -> Result<usize, Memory>
        requires { IsOfLink (length self.old.station.station.trunk.links) link }
        ensures adds { (most : ℕ) → IsShippedAs (F.says self.old.station.policy) most → OnOk result
            (Adds (written_by (takes_frame (allows_up_to most) link octets.now self.old.station.station word)) self.old.station.station (string_bytes self.old.text) self.new.station.station (string_bytes self.new.text)) }
        ensures policy { self.new.station.policy ≡ self.old.station.policy }
        ensures used { (most : ℕ) → IsShippedAs (F.says self.old.station.policy) most → IfOk result
            (λ used. used ≡ (takes_frame (allows_up_to most) link octets.now self.old.station.station word).out.used) }
        ensures within { IfOk result (λ used. IsUsed (Takes octets.now) used) }
        ensures count { length self.new.station.station.trunk.links ≡ length self.old.station.station.trunk.links }
    {
        self.happens(StationEvent::Bytes(link, octets), word)?;
        Ok(self.out.used())
    }

    /// An event happens to the station, and the lines of its entries are written.
    fn happens(&mut self, event: StationEvent<'_>, word: u64) -> Result<(), Memory>
        requires { IsOfLinks event (length self.old.station.station.trunk.links) }
        ensures adds { (most : ℕ) → IsShippedAs (F.says self.old.station.policy) most → OnOk result
            (Adds (written_by (shipped_does most event.entry self.old.station.station word)) self.old.station.station (string_bytes self.old.text) self.new.station.station (string_bytes self.new.text)) }
        ensures policy { self.new.station.policy ≡ self.old.station.policy }
        ensures used { (most : ℕ) → IsShippedAs (F.says self.old.station.policy) most → OnOk result
            (self.new.out.used ≡ (shipped_does most event.entry self.old.station.station word).out.used) }
        ensures within { IsUsedOf event.entry self.new.out.used }
        ensures count { length self.new.station.station.trunk.links ≡ length self.old.station.station.trunk.links }
    {
        self.station.event(event, word, &mut self.out);
        write_all(&mut self.text, &self.out)
    }
}

/// Writes the lines of entries.
fn write_all(text: &mut String, out: &StationOut) -> Result<(), Memory>
    ensures { OnOk result (string_bytes text.new ≡ string_bytes text.old ++ entry_lines out.now.entries) }
{
    for i in 0..out.count() {
        write_entry(text, out.at(i))?;
    }
    Ok(())
}

/// Writes the line of an entry.
fn write_entry(text: &mut String, entry: StationEntry<'_>) -> Result<(), Memory>
    ensures { OnOk result
        (string_bytes text.new ≡ string_bytes text.old ++ entry_line (entry_seen entry.entry)) }
{
    let line = EntryLine { entry };
    write!(text, "{line}").map_err(|_| Memory)
}
