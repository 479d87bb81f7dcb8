//! What a table of bundles answers, step by step.

use super::{BundleTable, CLASSES, Join, JoinKey, Left, Limits, SingleWhy};
use ppp_lcp::LcpGrant;
use ppp_memory::Memory;
use ppp_packet::Disc;
use std::alloc::Global;
use std::test::Fail;

/// The limits of most runs.
const LIMITS: Limits = Limits {
    links: 4,
    bundles: 2,
    peers: 3,
};

/// What is asked of a table, and what it is to answer.
#[derive(Clone, Copy)]
enum Step {
    Join(u8, JoinKey, Join),
    Leave(u8, Option<Left>),
    /// The control link of a bundle, its links and its marked links.
    Has(u8, Option<u8>, u16, u16),
    /// The peer of a bundle.
    Peer(u8, Option<Disc>),
    Mark(u8, u8),
    /// The first sending number of a bundle is kept.
    Keep(u8, u32),
    /// The first sending number of a bundle.
    Kept(u8, u32),
    Reset,
}

/// What a list grants: a local discriminator of one octet, or the null one for 0.
fn grant(disc: u8, link_disc: Option<u16>) -> LcpGrant {
    LcpGrant {
        mru: 1500,
        accm: 0,
        magic: 0,
        mrru: 1500,
        short: false,
        classes: 0,
        disc: if disc == 0 {
            Disc::new(0, &[])
        } else {
            Disc::new(1, &[disc])
        },
        link_disc,
        pfc: false,
        acfc: false,
    }
}

/// A key of two discriminators, without Link-Discriminators.
fn key(mine: u8, peer: u8) -> JoinKey {
    numbered(mine, peer, None, None)
}

/// A key of two discriminators and two Link-Discriminators.
fn numbered(mine: u8, peer: u8, own: Option<u16>, other: Option<u16>) -> JoinKey {
    JoinKey {
        mine: grant(mine, own),
        peer: grant(peer, other),
    }
}

/// A key without an MRRU in one direction.
fn without_mrru(own: bool) -> JoinKey {
    let mut key = key(5, 7);
    if own {
        key.mine.mrru = 0;
    } else {
        key.peer.mrru = 0;
    }
    key
}

/// A key that is unlike [`key`] in one thing.
fn unlike(what: u8) -> JoinKey {
    let mut key = key(5, 7);
    match what {
        0 => key.mine.mrru = 1501,
        1 => key.peer.mrru = 1501,
        2 => key.mine.short = true,
        3 => key.peer.short = true,
        4 => key.mine.classes = 1,
        _ => key.peer.classes = 1,
    }
    key
}

/// Does a step of a link, if it is one of the table's, and says whether the answer is the right one.
fn link_goes(table: &mut BundleTable, link: u8, step: &Step) -> bool {
    if link < 1 || table.limits().links < link {
        return false;
    }
    let bundle = table.bundle_of(link);
    match (step, bundle) {
        (Step::Join(_, key, answer), None) => table.join(link, key) == *answer,
        (Step::Leave(_, left), _) => table.leave(link) == *left,
        (Step::Mark(wanted, _), Some(bundle)) if *wanted == bundle => {
            table.mark(bundle, link);
            true
        }
        _ => false,
    }
}

/// Does a step of a bundle, if it is one of the table's, and says whether the answer is the right one.
fn bundle_goes(table: &mut BundleTable, bundle: u8, step: &Step) -> bool {
    if table.limits().bundles <= bundle {
        return false;
    }
    if let Step::Has(_, control, joined, marked) = step {
        return table.control(bundle) == *control
            && table.joined(bundle) == *joined
            && table.marked(bundle) == *marked;
    }
    if let Step::Peer(_, peer) = step {
        return table.peer(bundle) == *peer;
    }
    if table.control(bundle).is_none() {
        return false;
    }
    let mut numbers = [0; CLASSES];
    match step {
        Step::Kept(_, number) => table.numbers(bundle)[0] == *number,
        Step::Keep(_, number) => {
            numbers[0] = *number;
            table.set_numbers(bundle, numbers);
            true
        }
        _ => false,
    }
}

/// Does a step, and says whether the answer is the right one.
fn goes(table: &mut BundleTable, step: &Step) -> bool {
    match *step {
        Step::Join(link, _, _) | Step::Leave(link, _) | Step::Mark(_, link) => {
            link_goes(table, link, step)
        }
        Step::Has(bundle, _, _, _)
        | Step::Peer(bundle, _)
        | Step::Keep(bundle, _)
        | Step::Kept(bundle, _) => bundle_goes(table, bundle, step),
        Step::Reset => {
            table.reset();
            true
        }
    }
}

/// Does the steps of a run on a new table, and says which isn't answered as wanted.
fn first_wrong(alloc: Global, steps: &[Step]) -> Result<Option<usize>, Memory> {
    let mut table = BundleTable::new(alloc, LIMITS)?;
    for i in 0..steps.len() {
        if !goes(&mut table, &steps[i]) {
            return Ok(Some(i));
        }
    }
    Ok(None)
}

#[test]
fn single_links(rt: HostRuntime) -> Result<(), Fail> {
    let runs: [&[Step]; 6] = [
        &[
            Step::Join(1, without_mrru(true), Join::Single(SingleWhy::NoMrru)),
            Step::Join(1, without_mrru(false), Join::Single(SingleWhy::NoMrru)),
            Step::Join(1, key(0, 7), Join::Single(SingleWhy::NoDisc)),
            Step::Join(1, key(5, 0), Join::Single(SingleWhy::NoDisc)),
            Step::Join(1, key(5, 5), Join::Single(SingleWhy::SameDisc)),
            Step::Has(0, None, 0, 0),
        ],
        &[
            Step::Join(1, key(5, 7), Join::First(0)),
            Step::Join(2, unlike(0), Join::Single(SingleWhy::Unlike)),
            Step::Join(2, unlike(1), Join::Single(SingleWhy::Unlike)),
            Step::Join(2, unlike(2), Join::Single(SingleWhy::Unlike)),
            Step::Join(2, unlike(3), Join::Single(SingleWhy::Unlike)),
            Step::Join(2, unlike(4), Join::Single(SingleWhy::Unlike)),
            Step::Join(2, unlike(5), Join::Single(SingleWhy::Unlike)),
            Step::Has(0, Some(1), 1, 0),
        ],
        &[
            Step::Join(1, key(5, 6), Join::First(0)),
            Step::Join(2, key(5, 7), Join::First(1)),
            Step::Join(3, key(5, 8), Join::Single(SingleWhy::BundlesFull(2))),
            Step::Leave(
                1,
                Some(Left {
                    bundle: 0,
                    last: true,
                }),
            ),
            Step::Join(3, key(5, 8), Join::First(0)),
        ],
        &[
            Step::Join(1, key(5, 6), Join::First(0)),
            Step::Leave(
                1,
                Some(Left {
                    bundle: 0,
                    last: true,
                }),
            ),
            Step::Join(1, key(5, 7), Join::First(0)),
            Step::Leave(
                1,
                Some(Left {
                    bundle: 0,
                    last: true,
                }),
            ),
            Step::Join(1, key(5, 8), Join::First(0)),
            Step::Join(2, key(5, 9), Join::Single(SingleWhy::PeersFull(3))),
            Step::Join(2, key(5, 7), Join::First(1)),
        ],
        &[
            Step::Join(1, key(5, 7), Join::First(0)),
            Step::Mark(0, 1),
            Step::Keep(0, 9),
            Step::Reset,
            Step::Has(0, None, 0, 0),
            Step::Join(1, key(5, 7), Join::First(0)),
            Step::Kept(0, 0),
        ],
        &[Step::Leave(1, None), Step::Leave(4, None)],
    ];
    for run in runs {
        assert_eq!(rt; first_wrong(rt.alloc(), run)?, None);
    }
    Ok(())
}

#[test]
fn bundles(rt: HostRuntime) -> Result<(), Fail> {
    let runs: [&[Step]; 5] = [
        &[
            Step::Join(2, key(5, 7), Join::First(0)),
            Step::Join(4, key(5, 7), Join::Added(0)),
            Step::Join(1, key(5, 6), Join::First(1)),
            Step::Has(0, Some(2), 10, 0),
            Step::Has(1, Some(1), 1, 0),
            Step::Peer(0, Some(Disc::new(1, &[7]))),
            Step::Mark(0, 4),
            Step::Has(0, Some(2), 10, 8),
            Step::Leave(
                2,
                Some(Left {
                    bundle: 0,
                    last: false,
                }),
            ),
            Step::Has(0, Some(4), 8, 8),
            Step::Leave(
                4,
                Some(Left {
                    bundle: 0,
                    last: true,
                }),
            ),
            Step::Has(0, None, 0, 0),
            Step::Peer(0, None),
            Step::Join(4, key(5, 7), Join::First(0)),
            Step::Has(0, Some(4), 8, 0),
        ],
        &[
            Step::Join(1, numbered(5, 7, Some(3), Some(1)), Join::First(0)),
            Step::Join(2, numbered(5, 7, Some(2), Some(2)), Join::Added(0)),
            Step::Join(3, numbered(5, 7, Some(2), Some(0)), Join::Added(0)),
            Step::Has(0, Some(2), 7, 0),
        ],
        &[
            Step::Join(1, numbered(7, 5, Some(1), Some(3)), Join::First(0)),
            Step::Join(2, numbered(7, 5, Some(2), Some(2)), Join::Added(0)),
            Step::Join(3, numbered(7, 5, Some(0), Some(2)), Join::Added(0)),
            Step::Has(0, Some(2), 7, 0),
        ],
        &[
            Step::Join(1, numbered(5, 7, None, Some(0)), Join::First(0)),
            Step::Join(2, numbered(5, 7, Some(0), None), Join::Added(0)),
            Step::Has(0, Some(1), 3, 0),
            Step::Join(
                3,
                numbered(5, 7, Some(65_535), Some(65_535)),
                Join::Added(0),
            ),
            Step::Has(0, Some(3), 7, 0),
        ],
        &[
            Step::Join(1, key(5, 6), Join::First(0)),
            Step::Join(2, key(5, 7), Join::First(1)),
            Step::Kept(1, 0),
            Step::Keep(1, 4_294_967_295),
            Step::Kept(0, 0),
            Step::Leave(
                2,
                Some(Left {
                    bundle: 1,
                    last: true,
                }),
            ),
            Step::Leave(
                1,
                Some(Left {
                    bundle: 0,
                    last: true,
                }),
            ),
            Step::Join(1, key(5, 7), Join::First(0)),
            Step::Kept(0, 4_294_967_295),
        ],
    ];
    for run in runs {
        assert_eq!(rt; first_wrong(rt.alloc(), run)?, None);
    }
    Ok(())
}

/// The 257th peer isn't remembered.
#[test]
fn peers(rt: HostRuntime) -> Result<(), Fail> {
    let limits = Limits {
        links: 1,
        bundles: 1,
        peers: 256,
    };
    let mut table = BundleTable::new(rt.alloc(), limits)?;
    for i in 0u16..256 {
        let mut key = key(5, 7);
        key.peer.disc = Disc::new(1, &i.to_be_bytes());
        assert_eq!(rt; goes(&mut table, &Step::Join(1, key, Join::First(0))), true);
        let left = Some(Left {
            bundle: 0,
            last: true,
        });
        assert_eq!(rt; goes(&mut table, &Step::Leave(1, left)), true);
    }
    let full = Join::Single(SingleWhy::PeersFull(256));
    assert_eq!(rt; goes(&mut table, &Step::Join(1, key(5, 7), full)), true);
    Ok(())
}
