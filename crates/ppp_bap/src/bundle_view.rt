//! A bundle as BAP sees it.

ghost use Rattle.std.specs.Prelude.{◌≡◌, ◌-◌, slice_index_or, None};
ghost use Rattle.ppp_bap.specs.LinkSet.{IsLink};

use crate::link_set::{LINK_NUMBERS, count_links, has_link, least_link};

/// How many links there are.
pub const LINKS: usize = 16;

/// A bundle as BAP sees it at one moment. A set of links is a number whose bit l - 1 stands for link l.
#[derive(Clone, Copy, Debug, PartialEq, Eq)]
pub struct BundleView {
    /// The bundle, 0 to 7.
    pub bundle: u8,
    /// Whether BACP is Opened on the control link.
    pub live: bool,
    /// Whether this end is favoured (RFC 2125): its request stands where both ends ask.
    pub favoured: bool,
    /// How many links this end wants in a bundle at most, 1 to 16.
    pub most: u8,
    /// How many links this end wants in a bundle at least, 1 to 16.
    pub least: u8,
    /// Whether the peer may call.
    pub calls: bool,
    /// Whether the peer may ask to be called.
    pub callbacks: bool,
    /// The speed that this end asks for, in kbit/s.
    pub speed: u16,
    /// The joined links.
    pub joined: u16,
    /// The joined links that the peer was promised to drop.
    pub marked: u16,
    /// The links that could be brought up: their LCP is in Initial, Starting, Closed or Stopped.
    pub idle: u16,
    /// Link by link this end's number of it, the Link-Discriminator that it was granted.
    pub own_numbers: [Option<u16>; LINKS],
    /// Link by link the peer's number of it.
    pub peer_numbers: [Option<u16>; LINKS],
}

impl BundleView {
    ghost use Rattle.ppp_bap.specs.BundleView.{has_staying, is_idle, is_joined, is_joined_as, leaves_too_few, is_marked, joined_count, link_numbered, spare_link, staying_count, stays_beside};

    /// How many links are joined.
    pub(crate) fn joined_count(&self) -> u8
        ensures { result ≡ joined_count self.now }
    {
        count_links(self.joined)
    }

    /// Whether a link is joined.
    pub(crate) fn is_joined(&self, link: u8) -> bool
        ensures { result ≡ is_joined self.now link }
    {
        has_link(self.joined, link)
    }

    /// Whether the peer was promised that a link goes.
    pub(crate) fn is_marked(&self, link: u8) -> bool
        ensures { result ≡ is_marked self.now link }
    {
        has_link(self.marked, link)
    }

    /// Whether a link could be brought up.
    pub(crate) fn is_idle(&self, link: u8) -> bool
        ensures { result ≡ is_idle self.now link }
    {
        has_link(self.idle, link)
    }

    /// The least idle link, where this end wants another one in the bundle.
    pub(crate) fn spare_link(&self) -> Option<u8>
        ensures { result ≡ spare_link self.now }
    {
        if self.most <= self.joined_count() {
            return None;
        }
        least_link(self.idle)
    }

    /// How many joined links stay beside one that aren't promised either.
    pub(crate) fn staying_count(&self, link: u8) -> u8
        ensures { result ≡ staying_count link self.now }
    {
        let mut count = 0;
        for &other in &LINK_NUMBERS {
            if self.stays_beside(link, other) {
                count += 1;
            }
        }
        count
    }

    /// Whether another link is joined and isn't promised.
    fn stays_beside(&self, link: u8, other: u8) -> bool
        ensures { result ≡ stays_beside link self.now other }
    {
        other != link && self.is_joined(other) && !self.is_marked(other)
    }

    /// Whether such a link is there.
    pub(crate) fn has_staying(&self, link: u8) -> bool
        ensures { result ≡ has_staying link self.now }
    {
        for &other in &LINK_NUMBERS {
            if self.stays_beside(link, other) {
                return true;
            }
        }
        false
    }

    /// Whether fewer links stay beside one than this end wants at least, or none.
    pub(crate) fn leaves_too_few(&self, link: u8) -> bool
        ensures { result ≡ leaves_too_few link self.now }
    {
        self.staying_count(link) < self.least.max(1)
    }

    /// The least joined link to which this end gave that number.
    pub(crate) fn link_numbered(&self, number: u16) -> Option<u8>
        ensures { result ≡ link_numbered number self.now }
    {
        for &link in &LINK_NUMBERS {
            if self.is_joined_as(number, link) {
                return Some(link);
            }
        }
        None
    }

    /// Whether a link is joined, and this end gave it that number.
    fn is_joined_as(&self, number: u16, link: u8) -> bool
        ensures { result ≡ is_joined_as number self.now link }
    {
        self.is_joined(link) && number_at(&self.own_numbers, link) == Some(number)
    }
}

/// The number that a link, 1 to 16, was given.
pub(crate) fn number_at(numbers: &[Option<u16>; LINKS], link: u8) -> Option<u16>
    requires { IsLink link }
    ensures { result ≡ slice_index_or numbers.now (link - 1) None }
{
    numbers[usize::from(link) - 1]
}
