//! Sets of links as numbers: the bit l - 1 stands for link l.

ghost use Rattle.std.specs.Prelude.{◌≡◌, ◌≤◌};
ghost use Rattle.ppp_bap.specs.LinkSet.{count_links, has_link, least_link};

/// The numbers of links.
pub(crate) const LINK_NUMBERS: [u8; 16] = [1, 2, 3, 4, 5, 6, 7, 8, 9, 10, 11, 12, 13, 14, 15, 16];

/// Whether a link is in a set. A number that is no link's is in none.
pub(crate) fn has_link(links: u16, link: u8) -> bool
    ensures { result ≡ has_link links link }
{
    1 <= link && link <= 16 && (links >> (link - 1)) & 1 == 1
}

/// How many links a set has.
pub(crate) fn count_links(links: u16) -> u8
    ensures { result ≡ count_links (has_link links) }
{
    let mut count = 0;
    for &link in &LINK_NUMBERS {
        if has_link(links, link) {
            count += 1;
        }
    }
    count
}

/// The least link of a set.
pub(crate) fn least_link(links: u16) -> Option<u8>
    ensures { result ≡ least_link (has_link links) }
{
    for &link in &LINK_NUMBERS {
        if has_link(links, link) {
            return Some(link);
        }
    }
    None
}
