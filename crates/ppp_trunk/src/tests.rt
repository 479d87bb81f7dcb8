//! What comes of the events of trunks.

use crate::TrunkEvent::{AdminClose, AdminOpen, Bytes, Down, Reset, Timeout, Up};
use crate::pair::{Step, check};
use ppp_packet::Proto;
use std::test::Fail;

/// Both ends have two links and speak everything.
const ALL: &str =
    "links = 2\na.protocols = [\"ip\", \"ipv6\", \"osi\", \"mpls\"]\na.ip = \"10.0.0.1\"\n\
    a.give = \"10.0.0.2\"\na.ifid = \"0000000000000001\"\na.mrru = 1500\na.disc = \"1:61\"\na.link_disc = 10\na.favored = 1\na.bap = true\n\
    b.protocols = [\"ip\", \"ipv6\", \"osi\", \"mpls\"]\nb.ifid = \"0000000000000002\"\nb.mrru = 1500\nb.disc = \"1:62\"\nb.link_disc = 20\n\
    b.favored = 2\nb.bap = true";

/// Both ends speak IPCP, on two links.
const IP: &str =
    "links = 2\na.protocols = [\"ip\"]\na.ip = \"10.0.0.1\"\nb.protocols = [\"ip\"]\nb.ip = \"10.0.0.2\"";

/// LCP is opened on the second link.
const OPENING: &[Step<'static>] = &[
    Step::A(AdminOpen(2, Proto::Lcp)),
    Step::B(AdminOpen(2, Proto::Lcp)),
    Step::A(Up(2)),
    Step::B(Up(2)),
    Step::Settle,
];

/// IPCP isn't wanted at end b.
const IP_CLOSED: &[Step<'static>] = &[
    Step::B(AdminClose(2, Proto::Ip)),
    Step::A(AdminOpen(2, Proto::Lcp)),
    Step::B(AdminOpen(2, Proto::Lcp)),
    Step::A(Up(2)),
    Step::B(Up(2)),
    Step::Settle,
];

#[test]
fn each_protocol_opens(rt: HostRuntime) -> Result<(), Fail> {
    check(
        rt.alloc(),
        &rt,
        ALL,
        &[],
        &[(
            &[Step::States(1), Step::States(2), Step::Counts],
            "Initial Starting Starting Starting Starting Starting ; Initial Starting Starting Starting Starting Starting ; \
            Initial Starting Starting Starting Starting Starting ; Initial Starting Starting Starting Starting Starting ; \
            links 2 used 0 held 0; ",
        )],
    )?;
    check(
        rt.alloc(),
        &rt,
        ALL,
        OPENING,
        &[(
            &[Step::States(1), Step::States(2)],
            "Initial Starting Starting Starting Starting Starting ; Initial Starting Starting Starting Starting Starting ; \
            Opened Opened Opened Opened Opened Opened ; Opened Opened Opened Opened Opened Opened ; ",
        )],
    )
}

#[test]
fn datagrams_want_their_protocol(rt: HostRuntime) -> Result<(), Fail> {
    let datagrams = [
        Step::Frame(2, 0x0021, &[0x45, 0]),
        Step::Frame(2, 0x0057, &[0x60]),
        Step::Frame(2, 0x0023, &[1]),
        Step::Frame(2, 0x0281, &[2]),
        Step::Frame(2, 0x0283, &[3]),
    ];
    let closing = [
        Step::A(AdminClose(2, Proto::Ipv6)),
        Step::A(AdminClose(2, Proto::Mpls)),
        Step::Frame(2, 0x0021, &[0x45, 0]),
        Step::Frame(2, 0x0057, &[0x60]),
        Step::Frame(2, 0x0281, &[2]),
    ];
    check(
        rt.alloc(),
        &rt,
        ALL,
        OPENING,
        &[
            (
                &datagrams,
                "got None 0021 4500; got None 0057 60; got None 0281 02; ",
            ),
            (&closing, "got None 0021 4500; "),
        ],
    )
}

#[test]
fn goes_through_its_phases(rt: HostRuntime) -> Result<(), Fail> {
    let datagram = Step::Frame(2, 0x0021, &[0x45, 0]);
    let unknown = Step::Frame(2, 0x8001, &[1, 2, 3]);
    check(
        rt.alloc(),
        &rt,
        IP,
        &[],
        &[
            (
                &[datagram, unknown, Step::States(2)],
                "Initial Starting - - - - ; Initial Starting - - - - ; ",
            ),
            (
                &[
                    Step::All(Up(2)),
                    Step::All(AdminOpen(2, Proto::Lcp)),
                    datagram,
                    unknown,
                    Step::All(Timeout(2, Proto::Lcp)),
                ],
                "push 2 c021 0101000a050600000004; push 2 c021 0101000a050600000004; ",
            ),
        ],
    )?;
    check(
        rt.alloc(),
        &rt,
        IP,
        IP_CLOSED,
        &[(
            &[Step::States(2), datagram, unknown, unknown],
            "Opened Req-Sent - - - - ; Opened Closed - - - - ; push 2 c021 080100098001010203; push 2 c021 080200098001010203; ",
        )],
    )?;
    check(
        rt.alloc(),
        &rt,
        IP,
        OPENING,
        &[
            (
                &[
                    datagram,
                    Step::Frame(2, 0x0023, &[1]),
                    Step::Frame(1, 0x0021, &[0x45, 0]),
                ],
                "got None 0021 4500; push 2 c021 08010007002301; ",
            ),
            (
                &[Step::All(Down(2)), Step::States(2), Step::States(1)],
                "Starting Starting - - - - ; Opened Opened - - - - ; Initial Starting - - - - ; Initial Starting - - - - ; ",
            ),
            (
                &[
                    Step::A(AdminClose(2, Proto::Ip)),
                    Step::Settle,
                    Step::States(2),
                    datagram,
                ],
                "Opened Closed - - - - ; Opened Stopping - - - - ; ",
            ),
            (
                &[
                    Step::A(AdminClose(2, Proto::Lcp)),
                    Step::Settle,
                    Step::States(2),
                ],
                "a hang 2; Closed Starting - - - - ; Stopping Starting - - - - ; ",
            ),
            (
                &[
                    Step::B(AdminClose(2, Proto::Lcp)),
                    Step::Settle,
                    Step::A(Timeout(2, Proto::Lcp)),
                    Step::A(Down(2)),
                    Step::States(2),
                ],
                "b hang 2; a hang 2; Starting Starting - - - - ; Closed Starting - - - - ; ",
            ),
            (
                &[
                    Step::All(Bytes(2, &[0x7e, 0xff, 0x7d, 0x23])),
                    Step::Counts,
                    Step::A(Reset),
                    Step::Counts,
                    Step::States(2),
                ],
                "links 2 used 4 held 2; links 2 used 0 held 0; Initial Starting - - - - ; Opened Opened - - - - ; ",
            ),
        ],
    )
}

/// Both links open, the second first; b's discriminator is greater, so a is the senior end.
const BOTH_OPEN: &[Step<'static>] = &[
    Step::A(AdminOpen(1, Proto::Lcp)),
    Step::B(AdminOpen(1, Proto::Lcp)),
    Step::A(AdminOpen(2, Proto::Lcp)),
    Step::B(AdminOpen(2, Proto::Lcp)),
    Step::A(Up(2)),
    Step::B(Up(2)),
    Step::Settle,
    Step::A(Up(1)),
    Step::B(Up(1)),
    Step::Settle,
];

#[test]
fn control_protocols_follow_the_control_link(rt: HostRuntime) -> Result<(), Fail> {
    let datagram = Step::Frame(2, 0x0021, &[0x45, 0]);
    check(
        rt.alloc(),
        &rt,
        ALL,
        BOTH_OPEN,
        &[
            (
                &[Step::Controls, Step::States(1), Step::States(2), datagram],
                "0 by 1 ; 0 by 1 ; Opened Opened Opened Opened Opened Opened ; Opened Opened Opened Opened Opened Opened ; \
                Opened Starting Starting Starting Starting Starting ; Opened Starting Starting Starting Starting Starting ; got None 0021 4500; ",
            ),
            (
                &[
                    Step::A(AdminClose(1, Proto::Lcp)),
                    Step::Settle,
                    Step::Controls,
                    Step::States(1),
                    Step::States(2),
                ],
                "a hang 1; 0 by 2 ; 0 by 2 ; Closed Starting Starting Starting Starting Starting ; Stopping Starting Starting Starting Starting Starting ; \
                Opened Opened Opened Opened Opened Opened ; Opened Opened Opened Opened Opened Opened ; ",
            ),
            // a control protocol's packet that comes on another link than the control link is discarded
            (
                &[
                    Step::Frame(2, 0x8021, &[1, 1, 0, 4]),
                    Step::Frame(2, 0xc02b, &[1, 1, 0, 4]),
                    Step::States(1),
                ],
                "Opened Opened Opened Opened Opened Opened ; Opened Opened Opened Opened Opened Opened ; ",
            ),
            // fragments are discarded until reassembly is built
            (
                &[Step::Frame(1, 0x003d, &[0xc0, 0, 0, 0, 0, 0x21, 0x45])],
                "",
            ),
        ],
    )
}

/// The peer of end b, whose discriminator is lesser, so that it is the senior end; its numbers descend where b's ascend.
const DESCENDING: &[Step<'static>] = &[
    Step::A(AdminOpen(1, Proto::Lcp)),
    Step::A(AdminOpen(2, Proto::Lcp)),
    Step::A(Up(1)),
    Step::A(Up(2)),
    Step::Frame(
        1,
        0xc021,
        &[
            1, 1, 0, 22, 5, 6, 0, 0, 0, 9, 17, 4, 5, 0xdc, 19, 4, 1, 0x60, 23, 4, 0, 21,
        ],
    ),
    Step::Frame(
        1,
        0xc021,
        &[
            2, 1, 0, 22, 5, 6, 0, 0, 0, 4, 17, 4, 5, 0xdc, 19, 4, 1, 0x61, 23, 4, 0, 10,
        ],
    ),
    Step::Frame(
        2,
        0xc021,
        &[
            1, 1, 0, 22, 5, 6, 0, 0, 0, 9, 17, 4, 5, 0xdc, 19, 4, 1, 0x60, 23, 4, 0, 20,
        ],
    ),
    Step::Frame(
        2,
        0xc021,
        &[
            2, 1, 0, 22, 5, 6, 0, 0, 0, 4, 17, 4, 5, 0xdc, 19, 4, 1, 0x61, 23, 4, 0, 11,
        ],
    ),
];

#[test]
fn senior_end_is_the_lesser_discriminator(rt: HostRuntime) -> Result<(), Fail> {
    check(
        rt.alloc(),
        &rt,
        ALL,
        DESCENDING,
        &[(
            &[Step::Controls, Step::States(1), Step::States(2)],
            "0 by 2 ; ; Opened Starting Starting Starting Starting Starting ; Initial Starting Starting Starting Starting Starting ; \
            Opened Req-Sent Req-Sent Req-Sent Req-Sent Req-Sent ; Initial Starting Starting Starting Starting Starting ; ",
        )],
    )
}

#[test]
fn unknown_code_is_rejected(rt: HostRuntime) -> Result<(), Fail> {
    let octets = [
        0x7e, 0xff, 0x7d, 0x23, 0xc0, 0x21, 0x7d, 0x2c, 0x7d, 0x27, 0x7d, 0x20, 0x7d, 0x24, 0x87,
        0xe8, 0x7e,
    ];
    check(
        rt.alloc(),
        &rt,
        "",
        &[],
        &[(
            &[Step::A(Up(1)), Step::Raw(Bytes(1, &octets)), Step::Counts],
            "1 7eff7d23c0217d277d217d207d287d2c7d277d207d24769c7e; links 1 used 17 held 0; ",
        )],
    )
}
