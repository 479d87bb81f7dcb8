//! The lines of a report on an end's bundles (RFC 1990).

ghost use Rattle.std.specs.Prelude.{◌≡◌, ◌≤◌, ◌++◌, OnOk, Some};
ghost use Rattle.std.specs.String.{string_bytes};
ghost use Rattle.hex.specs.Hex.{encode_lower};
ghost use Rattle.ppp_lcp.specs.LcpGrant.{disc_seen};
ghost use Rattle.ppp_bundle.specs.BundleTable.{IsBundleOf, IsLinkOf};
ghost use Rattle.ppp_bundle.specs.declared.limits.TheConstants.{MOST_LINKS};
ghost use Rattle.ppp_world.specs.BundleLines.{bundle_line, bundle_lines, bundle_links, is_first_of, is_in, line_at, link_in, link_text, peer_text, set_text, wait_text};

use crate::ask_line::AskText;
use ppp_bundle::{BundleTable, MOST_LINKS};
use ppp_memory::Memory;
use ppp_packet::Disc;
use ppp_script::End;
use ppp_station::{BapAsk, Policy, Station};
use ppp_text::HexText;
use std::fmt;

/// Writes the lines of an end's bundles, each by its first link.
pub(crate) fn write_bundles<F: Policy>(
    report: &mut String,
    end: End,
    station: &Station<F>,
) -> Result<(), Memory>
    ensures { OnOk result (string_bytes report.new
        ≡ string_bytes report.old ++ bundle_lines end station.now.station.trunk.bundles station.now.station.requests) }
{
    for i in 0..station.bundles().limits().links {
        write_at(report, end, i + 1, station)?;
    }
    Ok(())
}

/// Writes the line of a bundle at its first link.
#[tactic(auto, unfolding(crate::specs::BundleLines::line_at))]
fn write_at<F: Policy>(
    report: &mut String,
    end: End,
    link: u8,
    station: &Station<F>,
) -> Result<(), Memory>
    requires link { IsLinkOf station.now.station.trunk.bundles link }
    requires most { link ≤ MOST_LINKS }
    ensures { OnOk result (string_bytes report.new
        ≡ string_bytes report.old ++ line_at end link station.now.station.trunk.bundles station.now.station.requests) }
{
    let bundles = station.bundles();
    match bundles.bundle_of(link) {
        Some(bundle) if is_first_of(link, bundles.joined(bundle)) => {
            let line = BundleLine {
                end,
                bundle,
                bundles,
                waiting: station.waiting(bundle),
            };
            write!(report, "{line}").map_err(|_| Memory)
        }
        Some(_) | None => Ok(()),
    }
}

/// Whether a link, 1 to 16, is in a set.
fn is_in(link: u8, set: u16) -> bool
    requires least { 1 ≤ link }
    requires most { link ≤ MOST_LINKS }
    ensures { result ≡ is_in link set }
{
    set / (1 << (link - 1)) % 2 == 1
}

/// Whether no link below that one, 1 to 16, is in a set.
fn is_first_of(link: u8, set: u16) -> bool
    requires least { 1 ≤ link }
    requires most { link ≤ MOST_LINKS }
    ensures { result ≡ is_first_of link set }
{
    set % (1 << (link - 1)) == 0
}

/// A bundle of an end.
#[derive(Clone, Copy)]
struct BundleLine<'a> {
    end: End,
    bundle: u8,
    bundles: &'a BundleTable,
    waiting: Option<BapAsk>,
    ghost of: { IsBundleOf bundles.now bundle },
}

impl fmt::Display for BundleLine<'_> {
    ghost output = { λ l. Some (bundle_line l.end l.bundle l.bundles.now l.waiting) };

    #[tactic(auto, unfolding(crate::specs::BundleLines::bundle_line))]
    fn fmt<W: fmt::Write>(&self, f: &mut fmt::Formatter<W>) -> fmt::Result {
        let end = self.end;
        let peer = PeerText {
            bundle: self.bundle,
            bundles: self.bundles,
        };
        let links = BundleLinks {
            bundle: self.bundle,
            bundles: self.bundles,
        };
        let waiting = WaitText(self.waiting);
        write!(f, "{end} bundle {peer} {links} waiting {waiting}\n")
    }
}

/// The links of a bundle, its control link and its marked links.
#[derive(Clone, Copy)]
struct BundleLinks<'a> {
    bundle: u8,
    bundles: &'a BundleTable,
    ghost of: { IsBundleOf bundles.now bundle },
}

impl fmt::Display for BundleLinks<'_> {
    ghost output = { λ l. Some (bundle_links l.bundle l.bundles.now) };

    #[tactic(auto, unfolding(crate::specs::BundleLines::bundle_links))]
    fn fmt<W: fmt::Write>(&self, f: &mut fmt::Formatter<W>) -> fmt::Result {
        let joined = LinkSet {
            set: self.bundles.joined(self.bundle),
        };
        let control = OneLink {
            link: self.bundles.control(self.bundle),
        };
        let marked = LinkSet {
            set: self.bundles.marked(self.bundle),
        };
        write!(f, "links {joined} control {control} marked {marked}")
    }
}

/// The discriminator of a bundle's peer. Where the bundle has no link, nothing is printed.
#[derive(Clone, Copy)]
struct PeerText<'a> {
    bundle: u8,
    bundles: &'a BundleTable,
    ghost of: { IsBundleOf bundles.now bundle },
}

impl fmt::Display for PeerText<'_> {
    ghost output = { λ p. Some (peer_text p.bundle p.bundles.now) };

    fn fmt<W: fmt::Write>(&self, f: &mut fmt::Formatter<W>) -> fmt::Result {
        match self.bundles.peer(self.bundle) {
            None => Ok(()),
            Some(disc) => write!(f, "{}", DiscText { disc }),
        }
    }
}

/// A discriminator. It prints in hexadecimal digits, its Class and then its address.
#[derive(Clone, Copy)]
struct DiscText {
    disc: Disc,
}

impl fmt::Display for DiscText {
    ghost output = { λ d. Some (encode_lower (disc_seen d.disc)) };

    #[tactic(auto, unfolding(hex::specs::Hex::encode_with))]
    fn fmt<W: fmt::Write>(&self, f: &mut fmt::Formatter<W>) -> fmt::Result {
        let class = HexText {
            octets: &[self.disc.class],
        };
        let address = HexText {
            octets: self.disc.address(),
        };
        write!(f, "{class}{address}")
    }
}

/// A set of links: the bit l - 1 stands for link l. It prints as its links upwards, parted by commas.
#[derive(Clone, Copy)]
struct LinkSet {
    set: u16,
}

impl fmt::Display for LinkSet {
    ghost output = { λ s. Some (set_text s.set) };

    #[tactic(auto, unfolding(crate::specs::BundleLines::set_text))]
    fn fmt<W: fmt::Write>(&self, f: &mut fmt::Formatter<W>) -> fmt::Result {
        if self.set == 0 {
            return f.write_str("-");
        }
        for i in 0..MOST_LINKS {
            let link = LinkIn {
                link: i + 1,
                set: self.set,
            };
            write!(f, "{link}")?;
        }
        Ok(())
    }
}

/// A link, 1 to 16, where it is in a set. It prints behind a comma if it isn't the set's first.
#[derive(Clone, Copy)]
struct LinkIn {
    link: u8,
    set: u16,
    ghost least: { 1 ≤ link },
    ghost most: { link ≤ MOST_LINKS },
}

impl fmt::Display for LinkIn {
    ghost output = { λ l. Some (link_in l.link l.set) };

    fn fmt<W: fmt::Write>(&self, f: &mut fmt::Formatter<W>) -> fmt::Result {
        let link = self.link;
        if !is_in(link, self.set) {
            return Ok(());
        }
        if is_first_of(link, self.set) {
            return write!(f, "{link}");
        }
        write!(f, ",{link}")
    }
}

/// A link, if there is one.
#[derive(Clone, Copy)]
struct OneLink {
    link: Option<u8>,
}

impl fmt::Display for OneLink {
    ghost output = { λ l. Some (link_text l.link) };

    fn fmt<W: fmt::Write>(&self, f: &mut fmt::Formatter<W>) -> fmt::Result {
        match self.link {
            None => f.write_str("-"),
            Some(link) => write!(f, "{link}"),
        }
    }
}

/// What a request asks that waits.
#[derive(Clone, Copy)]
struct WaitText(Option<BapAsk>);

impl fmt::Display for WaitText {
    ghost output = { λ w. Some (wait_text w.0) };

    fn fmt<W: fmt::Write>(&self, f: &mut fmt::Formatter<W>) -> fmt::Result {
        match self.0 {
            None => write!(f, "-"),
            Some(ask) => {
                let ask = AskText(ask);
                write!(f, "{ask}")
            }
        }
    }
}
