//! What comes of the events of two stations that ask each other for links and to drop them (after RFC 2125).

use crate::StationEvent::{AdminClose, AdminOpen, Ask, BapTimeout, Down, Reset, Status, Up};
use crate::pair::{Step, check};
use ppp_bap::BapAsk::{Call, Callback, Drop};
use ppp_packet::Proto;
use std::test::Fail;

/// Two ends that speak multilink and BACP on two links; end a is favoured.
const TWO_LINKS: &str = "version = 2\nlinks = 2\n\
    a.mrru = 1500\na.disc = \"1:61\"\na.link_disc = 10\na.favored = 1\na.bap = true\n\
    b.mrru = 1500\nb.disc = \"1:62\"\nb.link_disc = 20\nb.favored = 2\nb.bap = true\n";

/// The same, but that end b has faster links than end a allows, and end a takes no callbacks.
const FAST: &str = "version = 2\nlinks = 2\n\
    a.mrru = 1500\na.disc = \"1:61\"\na.link_disc = 10\na.favored = 1\na.bap = true\na.callbacks = false\n\
    b.mrru = 1500\nb.disc = \"1:62\"\nb.link_disc = 20\nb.favored = 2\nb.bap = true\nb.speed = 65\n";

/// The same, but that end a wants no second link.
const FEW: &str = "version = 2\nlinks = 2\n\
    a.mrru = 1500\na.disc = \"1:61\"\na.link_disc = 10\na.favored = 1\na.bap = true\na.most = 1\n\
    b.mrru = 1500\nb.disc = \"1:62\"\nb.link_disc = 20\nb.favored = 2\nb.bap = true\n";

/// Both links come up, and LCP is opened on link 1.
const ONE_OPEN: &[Step<'static>] = &[
    Step::A(Up(1)),
    Step::B(Up(1)),
    Step::A(Up(2)),
    Step::B(Up(2)),
    Step::A(AdminOpen(1, Proto::Lcp)),
    Step::B(AdminOpen(1, Proto::Lcp)),
    Step::Settle,
];

/// And on link 2.
const BOTH_OPEN: &[Step<'static>] = &[
    Step::A(Up(1)),
    Step::B(Up(1)),
    Step::A(Up(2)),
    Step::B(Up(2)),
    Step::A(AdminOpen(1, Proto::Lcp)),
    Step::B(AdminOpen(1, Proto::Lcp)),
    Step::Settle,
    Step::A(AdminOpen(2, Proto::Lcp)),
    Step::B(AdminOpen(2, Proto::Lcp)),
    Step::Settle,
];

#[test]
fn drops_are_asked_and_answered(rt: HostRuntime) -> Result<(), Fail> {
    check(
        rt.alloc(),
        &rt,
        TWO_LINKS,
        BOTH_OPEN,
        &[
            // both ask before they hear of the other's wish: a is favoured and keeps its own
            (
                &[
                    Step::A(Ask(1, Drop(2))),
                    Step::B(Ask(1, Drop(1))),
                    Step::Settle,
                    Step::Bundles,
                    Step::A(Ask(1, Drop(1))),
                ],
                "a send 1 0501000805040015; a sent; b send 1 050100080504000a; b sent; b send 1 0601000500; \
                a send 1 0601000501; a hang 2; a joined 1 marked 0 waits -; b joined 1 marked 0 waits -; a LastLink(0); ",
            ),
            // a promises link 2, and asks to drop it itself; what was promised can't be asked for
            (
                &[
                    Step::B(Ask(1, Drop(2))),
                    Step::Bundles,
                    Step::B(Ask(1, Drop(2))),
                    Step::B(Ask(1, Call)),
                ],
                "b send 1 050100080504000b; b sent; a joined 11 marked 0 waits -; b joined 11 marked 0 waits Drop(2); \
                b Waiting; b Waiting; ",
            ),
            // a request that waits goes out three times in all
            (
                &[
                    Step::A(Ask(1, Drop(2))),
                    Step::Lose,
                    Step::A(BapTimeout(2)),
                    Step::A(BapTimeout(1)),
                    Step::Lose,
                    Step::A(BapTimeout(1)),
                    Step::Lose,
                    Step::A(BapTimeout(1)),
                    Step::Bundles,
                ],
                "a send 1 0501000805040015; a sent; a send 1 0501000805040015; a send 1 0501000805040015; \
                a joined 11 marked 0 waits -; b joined 11 marked 0 waits -; ",
            ),
            // the wait ends where the link to drop leaves, and where the control link is another
            (
                &[Step::A(Ask(1, Drop(2))), Step::A(Down(2)), Step::Bundles],
                "a send 1 0501000805040015; a sent; a joined 1 marked 0 waits -; b joined 11 marked 0 waits -; ",
            ),
            (
                &[Step::A(Ask(1, Drop(2))), Step::A(Down(1)), Step::Bundles],
                "a send 1 0501000805040015; a sent; a joined 10 marked 0 waits -; b joined 11 marked 0 waits -; ",
            ),
            // and where BACP is closed
            (
                &[
                    Step::A(Ask(1, Drop(2))),
                    Step::A(AdminClose(1, Proto::Bacp)),
                    Step::Bundles,
                    Step::A(Ask(1, Drop(2))),
                ],
                "a send 1 0501000805040015; a sent; a joined 11 marked 0 waits -; b joined 11 marked 0 waits -; a NotOpen; ",
            ),
            (
                &[Step::A(Ask(1, Drop(2))), Step::A(Reset), Step::Bundles],
                "a send 1 0501000805040015; a sent; b joined 11 marked 0 waits -; ",
            ),
            // a status is told, and answered
            (
                &[Step::A(Status(1, 7)), Step::Settle],
                "a send 1 0701000806040700; b send 1 0801000500; ",
            ),
        ],
    )
}

#[test]
fn calls_are_asked_and_answered(rt: HostRuntime) -> Result<(), Fail> {
    check(
        rt.alloc(),
        &rt,
        TWO_LINKS,
        ONE_OPEN,
        &[
            (
                &[Step::A(Ask(1, Call)), Step::Settle, Step::Bundles],
                "a send 1 010100090105004001; a sent; b send 1 0201000d000208010301020332; a dial 2; a joined 1 marked 0 waits -; b joined 1 marked 0 waits -; ",
            ),
            (
                &[Step::A(Ask(1, Callback)), Step::Settle],
                "a send 1 0301001101050040010208010301020332; a sent; b send 1 0401000500; b dial 2; ",
            ),
            (
                &[
                    Step::A(Ask(2, Call)),
                    Step::A(Ask(1, Drop(2))),
                    Step::A(Ask(1, Drop(1))),
                ],
                "a NotOpen; a NotJoined(2); a LastLink(0); ",
            ),
        ],
    )?;
    check(
        rt.alloc(),
        &rt,
        FAST,
        ONE_OPEN,
        &[
            (
                &[Step::B(Ask(1, Call)), Step::Settle],
                "b send 1 010100090105004101; b sent; a send 1 0201000501; ",
            ),
            (
                &[Step::B(Ask(1, Callback)), Step::Settle],
                "b send 1 0301001101050041010208010301020332; b sent; a send 1 0401000502; ",
            ),
        ],
    )?;
    check(
        rt.alloc(),
        &rt,
        FEW,
        ONE_OPEN,
        &[(
            &[Step::B(Ask(1, Call)), Step::Settle, Step::A(Ask(1, Call))],
            "b send 1 010100090105004001; b sent; a send 1 0201000503; a Full(1); ",
        )],
    )
}
