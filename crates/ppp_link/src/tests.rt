//! Scripts of what happens to two links and of frames made by hand, with what comes of them.

use crate::pair::{Call, End, Step, check, escaped, first_request, shown, take};
use ppp_frame::Deframer;
use ppp_packet::Proto;
use std::alloc::Global;
use std::process::Abort;
use std::test::Fail;

/// LCP is Opened at both ends, and IPCP is in Starting where it is spoken.
const OPENED: &[Step<'static>] = &[
    Step::A(Call::Open(Proto::Ip)),
    Step::B(Call::Open(Proto::Ip)),
    Step::A(Call::Up),
    Step::B(Call::Up),
    Step::A(Call::Open(Proto::Lcp)),
    Step::B(Call::Open(Proto::Lcp)),
    Step::Settle,
];

/// LCP is in Req-Sent at end a.
const ASKING: &[Step<'static>] = &[Step::A(Call::Open(Proto::Lcp)), Step::A(Call::Up)];

/// As where LCP is Opened, and end a has asked in IPCP.
const IP_ASKING: &[Step<'static>] = &[
    Step::A(Call::Open(Proto::Ip)),
    Step::A(Call::Up),
    Step::B(Call::Up),
    Step::A(Call::Open(Proto::Lcp)),
    Step::B(Call::Open(Proto::Lcp)),
    Step::Settle,
    Step::A(Call::Run(true)),
];

/// LCP and IPCP are Opened at both ends.
const IP_OPENED: &[Step<'static>] = &[
    Step::A(Call::Open(Proto::Ip)),
    Step::B(Call::Open(Proto::Ip)),
    Step::A(Call::Up),
    Step::B(Call::Up),
    Step::A(Call::Open(Proto::Lcp)),
    Step::B(Call::Open(Proto::Lcp)),
    Step::Settle,
    Step::A(Call::Run(true)),
    Step::B(Call::Run(true)),
    Step::Settle,
];

/// As where end a has asked in LCP, and the peer acknowledged that: without multilink, and with all that it asks for.
const ACKNOWLEDGED: &[Step<'static>] = &[
    Step::A(Call::Open(Proto::Lcp)),
    Step::A(Call::Up),
    Step::Frame(0xc021, &[2, 1, 0, 10, 5, 6, 0, 0, 0, 4]),
];

const ALL_ACKNOWLEDGED: &[Step<'static>] = &[
    Step::A(Call::Open(Proto::Lcp)),
    Step::A(Call::Up),
    Step::Frame(
        0xc021,
        &[
            2, 1, 0, 22, 5, 6, 0, 0, 0, 4, 17, 4, 5, 0xdc, 19, 4, 1, 0x61, 23, 4, 0, 10,
        ],
    ),
];

/// As where end a has asked in LCP, and acknowledged what the peer asked for.
const ACKNOWLEDGING: &[Step<'static>] = &[
    Step::A(Call::Open(Proto::Lcp)),
    Step::A(Call::Up),
    Step::Frame(0xc021, &[1, 1, 0, 4]),
];

/// LCP was Opened at both ends, and end a closes it.
const CLOSING: &[Step<'static>] = &[
    Step::A(Call::Open(Proto::Ip)),
    Step::A(Call::Up),
    Step::B(Call::Up),
    Step::A(Call::Open(Proto::Lcp)),
    Step::B(Call::Open(Proto::Lcp)),
    Step::Settle,
    Step::A(Call::Close(Proto::Lcp)),
];

/// LCP is Opened at both ends, and the control protocols are in Starting where they are spoken.
const ALL_STARTING: &[Step<'static>] = &[
    Step::A(Call::Open(Proto::Ip)),
    Step::A(Call::Open(Proto::Ipv6)),
    Step::A(Call::Open(Proto::Osi)),
    Step::A(Call::Open(Proto::Mpls)),
    Step::A(Call::Open(Proto::Bacp)),
    Step::B(Call::Open(Proto::Ip)),
    Step::B(Call::Open(Proto::Ipv6)),
    Step::B(Call::Open(Proto::Osi)),
    Step::B(Call::Open(Proto::Mpls)),
    Step::B(Call::Open(Proto::Bacp)),
    Step::A(Call::Up),
    Step::B(Call::Up),
    Step::A(Call::Open(Proto::Lcp)),
    Step::B(Call::Open(Proto::Lcp)),
    Step::Settle,
];

/// Protocol-Rejects of the control protocols above LCP, in order.
const CONTROLS_REJECTED: Step<'static> = Step::Frames(&[
    &[8, 1, 0, 6, 0x80, 0x21],
    &[8, 2, 0, 6, 0x80, 0x57],
    &[8, 3, 0, 6, 0x80, 0x23],
    &[8, 4, 0, 6, 0x82, 0x81],
    &[8, 5, 0, 6, 0xc0, 0x2b],
]);

/// One of LCP.
const LCP_REJECTED: Step<'static> = Step::Frame(0xc021, &[8, 6, 0, 6, 0xc0, 0x21]);

/// Those of protocols that have no automaton: of IPv4, multilink, BAP, CHAP and an unknown one; one that names none.
const OTHERS_REJECTED: Step<'static> = Step::Frames(&[
    &[8, 7, 0, 6, 0, 0x21],
    &[8, 8, 0, 6, 0, 0x3d],
    &[8, 9, 0, 6, 0xc0, 0x2d],
    &[8, 10, 0, 6, 0xc2, 0x23],
    &[8, 11, 0, 6, 0x21, 0x45],
    &[8, 12, 0, 5, 0x80],
]);

/// End a speaks everything.
const ALL: &str =
    "a.protocols = [\"ip\", \"ipv6\", \"osi\", \"mpls\"]\na.mrru = 1500\na.disc = \"1:61\"\n\
    a.link_disc = 10\na.favored = 1\na.bap = true";

/// Both ends speak everything.
const BOTH_ALL: &str =
    "a.protocols = [\"ip\", \"ipv6\", \"osi\", \"mpls\"]\na.ip = \"10.0.0.1\"\na.give = \"10.0.0.2\"\n\
    a.ifid = \"0000000000000001\"\na.mrru = 1500\na.disc = \"1:61\"\na.link_disc = 10\na.favored = 1\na.bap = true\n\
    b.protocols = [\"ip\", \"ipv6\", \"osi\", \"mpls\"]\nb.ifid = \"0000000000000002\"\nb.mrru = 1500\nb.disc = \"1:62\"\n\
    b.link_disc = 20\nb.favored = 2\nb.bap = true";

/// Both ends speak IPCP.
const IP: &str =
    "a.protocols = [\"ip\"]\na.ip = \"10.0.0.1\"\nb.protocols = [\"ip\"]\nb.ip = \"10.0.0.2\"";

#[test]
fn two_links_open_and_close(rt: HostRuntime) -> Result<(), Fail> {
    let settings = "a.protocols = [\"ip\", \"ipv6\", \"osi\", \"mpls\"]\na.ip = \"10.0.0.1\"\n\
        a.give = \"10.0.0.2\"\na.ifid = \"0000000000000001\"\na.align = 1\n\
        b.protocols = [\"ip\", \"ipv6\", \"osi\", \"mpls\"]\nb.ifid = \"0000000000000002\"";
    let opening = [
        Step::A(Call::Open(Proto::Ipv6)),
        Step::B(Call::Open(Proto::Ipv6)),
        Step::A(Call::Open(Proto::Osi)),
        Step::B(Call::Open(Proto::Osi)),
        Step::A(Call::Open(Proto::Mpls)),
        Step::B(Call::Open(Proto::Mpls)),
        Step::StatesA,
        Step::A(Call::Run(true)),
        Step::B(Call::Run(true)),
        Step::Settle,
        Step::A(Call::Timeout(Proto::Lcp)),
        Step::StatesA,
        Step::StatesB,
        Step::Lists(Proto::Lcp),
        Step::Lists(Proto::Ip),
        Step::Lists(Proto::Ipv6),
        Step::Lists(Proto::Osi),
        Step::Lists(Proto::Mpls),
        Step::Lists(Proto::Bacp),
        Step::Frame(0x0021, &[0x45, 0]),
        Step::Deframer,
    ];
    let opened =
        "Opened Starting Starting Starting Starting - ; a NetUp(Ipv6); a NetUp(Osi); a NetUp(Mpls); \
        b NetUp(Ipv6); b NetUp(Osi); b NetUp(Mpls); a NetUp(Ip); b NetUp(Ip); \
        Opened Opened Opened Opened Opened - ; Opened Opened Opened Opened Opened - ; \
        050600000004; 050600000004; 050600000009; 050600000009; \
        03060a000001; 03060a000001; 03060a000002; 03060a000002; \
        010a0000000000000001; 010a0000000000000001; 010a0000000000000002; 010a0000000000000002; \
        010301; 010301; ; ; ; ; ; ; -; -; -; -; got 0021 4500; held 0; 0021 4500; ";
    let closing = [
        Step::A(Call::Down),
        Step::A(Call::Run(false)),
        Step::StatesA,
        Step::B(Call::Close(Proto::Ip)),
        Step::B(Call::Close(Proto::Lcp)),
        Step::Settle,
        Step::B(Call::Timeout(Proto::Lcp)),
        Step::Timer(Proto::Lcp),
        Step::B(Call::Timeout(Proto::Lcp)),
        Step::Timer(Proto::Lcp),
        Step::Timer(Proto::Ip),
        Step::StatesB,
        Step::Octets(&[0x7e, 0xff, 0x7d, 0x23, 0xc0, 0x21]),
        Step::Deframer,
        Step::Reset,
        Step::Deframer,
        Step::StatesA,
    ];
    let closed =
        "a LcpDown; a NetDown(Ip); Starting Starting - - - - ; b NetDown(Ip); b LcpDown; timer true; \
        b Finished; timer false; timer true; Closed Closing - - - - ; held 4; no frame; held 0; no frame; \
        Initial Initial - - - - ; ";
    let lcp = [
        Step::A(Call::Up),
        Step::B(Call::Up),
        Step::A(Call::Open(Proto::Lcp)),
        Step::B(Call::Open(Proto::Lcp)),
        Step::Settle,
        Step::A(Call::Close(Proto::Lcp)),
        Step::Settle,
    ];
    let both = "a LcpUp; b LcpUp; a LcpDown; b LcpDown; a Finished; ";
    check(rt.alloc(), &rt, OPENED, &[(settings, &opening, opened)])?;
    check(rt.alloc(), &rt, IP_OPENED, &[(IP, &closing, closed)])?;
    check(rt.alloc(), &rt, &[], &[("", &lcp, both)])
}

#[test]
fn hands_up_or_rejects(rt: HostRuntime) -> Result<(), Fail> {
    let info = [1, 1, 0, 4];
    let frames = [
        Step::Frame(0xc023, &info),
        Step::Frame(0x0021, &info),
        Step::Frame(0x0057, &info),
        Step::Frame(0x0023, &info),
        Step::Frame(0x0281, &info),
        Step::Frame(0x0283, &info),
        Step::Frame(0x003d, &info),
        Step::Frame(0xc02d, &info),
        Step::Frame(0x8021, &info),
        Step::Frame(0x8057, &info),
        Step::Frame(0x8023, &info),
        Step::Frame(0x8281, &info),
        Step::Frame(0xc02b, &info),
        Step::Frame(0x2145, &info),
    ];
    let rejected =
        "c021 0801000ac02301010004; c021 0802000a002101010004; c021 0803000a005701010004; \
        c021 0804000a002301010004; c021 0805000a028101010004; c021 0806000a028301010004; \
        c021 0807000a003d01010004; c021 0808000ac02d01010004; c021 0809000a802101010004; \
        c021 080a000a805701010004; c021 080b000a802301010004; c021 080c000a828101010004; \
        c021 080d000ac02b01010004; c021 080e000a214501010004; ";
    // what is an automaton's is discarded, since those are in Initial and Starting
    let handed_up =
        "c021 0801000ac02301010004; got 0021 01010004; got 0057 01010004; got 0023 01010004; \
        got 0281 01010004; got 0283 01010004; got 003d 01010004; got c02d 01010004; c021 0802000a214501010004; ";
    check(
        rt.alloc(),
        &rt,
        OPENED,
        &[("", &frames, rejected), (ALL, &frames, handed_up)],
    )?;
    // before LCP is Opened
    check(
        rt.alloc(),
        &rt,
        ASKING,
        &[("", &frames, ""), (ALL, &frames, "")],
    )?;
    check(
        rt.alloc(),
        &rt,
        &[],
        &[("", &frames, ""), (ALL, &frames, "")],
    )
}

/// A packet whose octet at that place is another.
fn with_octet(
    alloc: Global,
    rt: &impl Abort,
    packet: &[u8],
    place: usize,
    value: u8,
) -> Result<Vec<u8>, Fail> {
    let mut octets = packet.to_vec(alloc)?;
    assert!(rt; place < octets.len(), "within the packet");
    octets[place] = value;
    Ok(octets)
}

/// A packet of a protocol in Req-Sent, the places of its Length octets, and what comes of the packet.
#[derive(Clone, Copy)]
struct Request<'a> {
    settings: &'a str,
    before: &'a [Step<'static>],
    protocol: u16,
    packet: &'a [u8],
    places: &'a [usize],
    states: &'a str,
    answered: &'a str,
}

/// Looks at a packet with another octet at that place: nothing comes of it, unless it is the same packet.
fn check_octet(
    alloc: Global,
    rt: &impl Abort,
    case: &Request<'_>,
    place: usize,
    value: u8,
) -> Result<(), Fail> {
    let octets = with_octet(alloc, rt, case.packet, place, value)?;
    let steps = [Step::Frame(case.protocol, octets.as_slice()), Step::StatesA];
    let text = shown(alloc, case.settings, case.before, &steps)?;
    let wanted = if octets.as_slice() == case.packet {
        case.answered
    } else {
        case.states
    };
    assert_eq!(rt; text.as_str(), wanted, "{value} at {place}");
    Ok(())
}

#[test]
fn takes_packets_inside_multilink(rt: HostRuntime) -> Result<(), Fail> {
    let info = [1, 1, 0, 4];
    let packets = [
        Step::Inner(0xc021, &info),
        Step::Inner(0x003d, &info),
        Step::Inner(0xc02d, &info),
        Step::Inner(0x0021, &info),
        Step::Inner(0x2145, &info),
    ];
    check(
        rt.alloc(),
        &rt,
        OPENED,
        &[
            (
                "",
                &packets,
                "c021 0801000ac02d01010004; c021 0802000a002101010004; c021 0803000a214501010004; ",
            ),
            (
                ALL,
                &packets,
                "got 0021 01010004; c021 0801000a214501010004; ",
            ),
        ],
    )?;
    check(rt.alloc(), &rt, ASKING, &[(ALL, &packets, "")])?;
    // IPCP takes its own
    check(
        rt.alloc(),
        &rt,
        IP_OPENED,
        &[(
            IP,
            &[Step::Inner(0x8021, &[9, 7, 0, 4]), Step::StatesA],
            "8021 0701000809070004; Opened Opened - - - - ; ",
        )],
    )
}

#[test]
fn bears_hostile_lengths(rt: HostRuntime) -> Result<(), Fail> {
    let zero: &[u8] = &[1, 5, 0, 10, 3, 6, 0, 0, 0, 0];
    let cases = [
        Request {
            settings: "",
            before: ASKING,
            protocol: 0xc021,
            packet: &[
                1, 1, 0, 20, 2, 6, 0, 0, 0, 0, 5, 6, 0xaa, 0xbb, 0xcc, 0xdd, 7, 2, 8, 2,
            ],
            places: &[2, 3, 5, 11, 17, 19],
            states: "Req-Sent - - - - - ; ",
            answered: "c021 020100140206000000000506aabbccdd07020802; Ack-Sent - - - - - ; ",
        },
        Request {
            settings: "a.protocols = [\"ip\"]\na.give = \"10.0.0.2\"",
            before: IP_ASKING,
            protocol: 0x8021,
            packet: &[
                1, 1, 0, 28, 2, 6, 0, 0x2d, 15, 1, 3, 6, 0, 0, 0, 0, 0x81, 6, 0, 0, 0, 0, 0x83, 6,
                0, 0, 0, 0,
            ],
            places: &[2, 3, 5, 11, 17, 23],
            states: "Opened Req-Sent - - - - ; ",
            answered: "8021 040100160206002d0f01810600000000830600000000; Opened Req-Sent - - - - ; ",
        },
        Request {
            settings: "a.protocols = [\"ip\"]\na.give = \"10.0.0.2\"",
            before: IP_ASKING,
            protocol: 0x8021,
            packet: zero,
            places: &[2, 3, 5],
            states: "Opened Req-Sent - - - - ; ",
            answered: "8021 0305000a03060a000002; Opened Req-Sent - - - - ; ",
        },
        Request {
            settings: "a.protocols = [\"ip\"]",
            before: IP_ASKING,
            protocol: 0x8021,
            packet: zero,
            places: &[2, 3, 5],
            states: "Opened Req-Sent - - - - ; ",
            answered: "8021 0405000a030600000000; Opened Req-Sent - - - - ; ",
        },
    ];
    for case in &cases {
        for place in case.places {
            check_octet(rt.alloc(), &rt, case, *place, 0)?;
            check_octet(rt.alloc(), &rt, case, *place, 1)?;
            check_octet(rt.alloc(), &rt, case, *place, 0xff)?;
        }
    }
    Ok(())
}

/// The frame of the information 0c070004 in LCP.
const CODE_12: &[u8] = &[
    0x7e, 0xff, 0x7d, 0x23, 0xc0, 0x21, 0x7d, 0x2c, 0x7d, 0x27, 0x7d, 0x20, 0x7d, 0x24, 0x87, 0xe8,
    0x7e,
];

/// A frame of LCP with a Code-Reject.
const REJECT_12: &[u8] = &[
    0x7e, 0xff, 0x7d, 0x23, 0xc0, 0x21, 0x7d, 0x27, 0x7d, 0x21, 0x7d, 0x20, 0x7d, 0x28, 0x7d, 0x2c,
    0x7d, 0x27, 0x7d, 0x20, 0x7d, 0x24, 0x76, 0x9c, 0x7e,
];

/// A frame of LCP with a Discard-Request, whose last octet of information is an escaped flag.
const DISCARD: &[u8] = &[
    0x7e, 0xff, 0x7d, 0x23, 0xc0, 0x21, 0x7d, 0x2b, 0x7d, 0x21, 0x7d, 0x20, 0x7d, 0x29, 0x7d, 0x20,
    0x7d, 0x20, 0x7d, 0x20, 0x7d, 0x20, 0x7d, 0x5e, 0xd9, 0x7f, 0x7e,
];

/// The front of a frame, a flag, and the frame with an unknown code.
fn cut_stream(alloc: Global, frame: &[u8], cut: usize) -> Result<Vec<u8>, Fail> {
    let mut octets = Vec::new(alloc);
    for octet in frame.iter().take(cut) {
        octets.push(*octet)?;
    }
    octets.push(0x7e)?;
    octets.extend_from_slice(CODE_12)?;
    Ok(octets)
}

/// Looks at what comes of a frame that is cut at that place, and of the one behind it.
fn check_cut(alloc: Global, rt: &impl Abort, frame: &[u8], cut: usize) -> Result<(), Fail> {
    let octets = cut_stream(alloc, frame, cut)?;
    let text = shown(
        alloc,
        "",
        OPENED,
        &[Step::Octets(octets.as_slice()), Step::Deframer],
    )?;
    // with the flag behind it that frame is whole itself, and is answered
    let wanted = if frame == CODE_12 && cut >= 16 {
        "c021 070200080c070004; held 0; c021 0c070004; "
    } else {
        "c021 070100080c070004; held 0; c021 0c070004; "
    };
    assert_eq!(rt; text.as_str(), wanted, "cut at {cut}");
    Ok(())
}

#[test]
fn reads_what_follows_a_cut_frame(rt: HostRuntime) -> Result<(), Fail> {
    for cut in 0..28 {
        check_cut(rt.alloc(), &rt, CODE_12, cut)?;
        check_cut(rt.alloc(), &rt, REJECT_12, cut)?;
        check_cut(rt.alloc(), &rt, DISCARD, cut)?;
    }
    Ok(())
}

#[test]
fn takes_protocol_rejects(rt: HostRuntime) -> Result<(), Fail> {
    let cases: [(&str, &[Step<'_>], &str); 8] = [
        (
            IP,
            &[
                Step::Frame(0xc021, &[8, 1, 0, 6, 0xc0, 0x21]),
                Step::StatesA,
            ],
            "LcpDown; c021 05010004; Stopping Opened - - - - ; ",
        ),
        (
            IP,
            &[
                Step::Frame(0xc021, &[8, 1, 0, 6, 0x80, 0x21]),
                Step::StatesA,
            ],
            "NetDown(Ip); 8021 05010004; Opened Stopping - - - - ; ",
        ),
        (
            IP,
            &[
                Step::Frame(0xc021, &[8, 1, 0, 6, 0x80, 0x57]),
                Step::StatesA,
            ],
            "Opened Opened - - - - ; ",
        ),
        (
            IP,
            &[
                Step::Frame(0xc021, &[8, 1, 0, 6, 0x80, 0x23]),
                Step::StatesA,
            ],
            "Opened Opened - - - - ; ",
        ),
        (
            IP,
            &[
                Step::Frame(0xc021, &[8, 1, 0, 6, 0x82, 0x81]),
                Step::StatesA,
            ],
            "Opened Opened - - - - ; ",
        ),
        (
            IP,
            &[
                Step::Frame(0xc021, &[8, 1, 0, 6, 0xc0, 0x2b]),
                Step::StatesA,
            ],
            "Opened Opened - - - - ; ",
        ),
        (
            IP,
            &[
                Step::Frame(0xc021, &[8, 1, 0, 6, 0xc0, 0x23]),
                Step::StatesA,
            ],
            "Opened Opened - - - - ; ",
        ),
        (
            IP,
            &[Step::Frame(0xc021, &[8, 1, 0, 6, 0, 0x21]), Step::StatesA],
            "Opened Opened - - - - ; ",
        ),
    ];
    check(rt.alloc(), &rt, IP_OPENED, &cases)?;
    // while LCP isn't Opened
    let phases: [(&[Step<'_>], &str); 6] = [
        (&[], "Initial Initial - - - - ; "),
        (&[Step::A(Call::Up)], "Closed Initial - - - - ; "),
        (ASKING, "Req-Sent Initial - - - - ; "),
        (ACKNOWLEDGED, "Ack-Rcvd Initial - - - - ; "),
        (ACKNOWLEDGING, "Ack-Sent Initial - - - - ; "),
        (CLOSING, "Closing Starting - - - - ; "),
    ];
    for (settings, steps, _) in cases {
        for (before, states) in phases {
            check(rt.alloc(), &rt, before, &[(settings, steps, states)])?;
        }
    }
    Ok(())
}

#[test]
fn takes_protocol_rejects_in_each_phase(rt: HostRuntime) -> Result<(), Fail> {
    let rejects = [
        CONTROLS_REJECTED,
        LCP_REJECTED,
        OTHERS_REJECTED,
        Step::StatesA,
    ];
    // while LCP isn't Opened, none of them counts
    let phases: [(&[Step<'_>], &str); 6] = [
        (&[], "Initial Initial Initial Initial Initial Initial ; "),
        (
            &[Step::A(Call::Up)],
            "Closed Initial Initial Initial Initial Initial ; ",
        ),
        (
            ASKING,
            "Req-Sent Initial Initial Initial Initial Initial ; ",
        ),
        (
            ALL_ACKNOWLEDGED,
            "Ack-Rcvd Initial Initial Initial Initial Initial ; ",
        ),
        (
            ACKNOWLEDGING,
            "Ack-Sent Initial Initial Initial Initial Initial ; ",
        ),
        (
            CLOSING,
            "Closing Starting Initial Initial Initial Initial ; ",
        ),
    ];
    for (before, states) in phases {
        check(rt.alloc(), &rt, before, &[(ALL, &rejects, states)])?;
    }
    let cases: [(&str, &[Step<'_>], &str); 4] = [
        (
            ALL,
            &[
                OTHERS_REJECTED,
                Step::StatesA,
                CONTROLS_REJECTED,
                Step::StatesA,
                LCP_REJECTED,
                Step::StatesA,
                LCP_REJECTED,
            ],
            "Opened Starting Starting Starting Starting Starting ; \
            Opened Starting Starting Starting Starting Starting ; \
            LcpDown; c021 05010004; Stopping Starting Starting Starting Starting Starting ; ",
        ),
        (
            ALL,
            &[
                Step::A(Call::RunAll(true)),
                OTHERS_REJECTED,
                Step::StatesA,
                CONTROLS_REJECTED,
                Step::StatesA,
                LCP_REJECTED,
                Step::StatesA,
            ],
            "Opened Req-Sent Req-Sent Req-Sent Req-Sent Req-Sent ; \
            Opened Stopped Stopped Stopped Stopped Stopped ; \
            LcpDown; c021 05010004; Stopping Stopped Stopped Stopped Stopped Stopped ; ",
        ),
        (
            BOTH_ALL,
            &[
                Step::A(Call::RunAll(true)),
                Step::B(Call::RunAll(true)),
                Step::Settle,
                OTHERS_REJECTED,
                Step::StatesA,
                CONTROLS_REJECTED,
                CONTROLS_REJECTED,
                Step::StatesA,
                LCP_REJECTED,
                Step::StatesA,
            ],
            "a NetUp(Ipv6); a NetUp(Osi); a NetUp(Mpls); a NetUp(Bacp); \
            b NetUp(Ipv6); b NetUp(Osi); b NetUp(Mpls); b NetUp(Bacp); a NetUp(Ip); b NetUp(Ip); \
            Opened Opened Opened Opened Opened Opened ; \
            NetDown(Ip); 8021 05010004; NetDown(Ipv6); 8057 05010004; NetDown(Osi); 8023 05010004; \
            NetDown(Mpls); 8281 05010004; NetDown(Bacp); c02b 05010004; \
            Opened Stopped Stopped Stopped Stopped Stopped ; \
            LcpDown; c021 05010004; Stopping Stopped Stopped Stopped Stopped Stopped ; ",
        ),
        // the peer rejects all but LCP itself
        (
            ALL,
            &[Step::A(Call::RunAll(true)), Step::Settle, Step::StatesA],
            "Opened Stopped Stopped Stopped Stopped Stopped ; ",
        ),
    ];
    check(rt.alloc(), &rt, ALL_STARTING, &cases)
}

#[test]
fn runs_bacp_where_asked(rt: HostRuntime) -> Result<(), Fail> {
    let steps = [
        Step::A(Call::RunAll(true)),
        Step::B(Call::RunAll(true)),
        Step::Settle,
        Step::StatesA,
        Step::Lists(Proto::Bacp),
        Step::A(Call::Run(false)),
        Step::StatesA,
        Step::A(Call::RunAll(false)),
        Step::StatesA,
        Step::A(Call::Run(true)),
        Step::StatesA,
        Step::A(Call::RunAll(true)),
        Step::StatesA,
    ];
    let both = "a NetUp(Ipv6); a NetUp(Osi); a NetUp(Mpls); a NetUp(Bacp); \
        b NetUp(Ipv6); b NetUp(Osi); b NetUp(Mpls); b NetUp(Bacp); a NetUp(Ip); b NetUp(Ip); \
        Opened Opened Opened Opened Opened Opened ; 010600000001; 010600000001; 010600000002; 010600000002; \
        a NetDown(Ip); a NetDown(Ipv6); a NetDown(Osi); a NetDown(Mpls); \
        Opened Starting Starting Starting Starting Opened ; a NetDown(Bacp); \
        Opened Starting Starting Starting Starting Starting ; \
        Opened Req-Sent Req-Sent Req-Sent Req-Sent Starting ; \
        Opened Req-Sent Req-Sent Req-Sent Req-Sent Req-Sent ; ";
    let none =
        "Opened - - - - - ; -; -; -; -; Opened - - - - - ; Opened - - - - - ; Opened - - - - - ; Opened - - - - - ; ";
    check(
        rt.alloc(),
        &rt,
        ALL_STARTING,
        &[(BOTH_ALL, &steps, both), ("", &steps, none)],
    )
}

#[test]
fn asks_with_the_number_of_the_link(rt: HostRuntime) -> Result<(), Fail> {
    let first = first_request(rt.alloc(), ALL, 1)?;
    let third = first_request(rt.alloc(), ALL, 3)?;
    let last = first_request(rt.alloc(), ALL, 16)?;
    assert_eq!(rt;
        first.as_str(),
        "c021 01010016050600000004110405dc130401611704000a; "
    );
    assert_eq!(rt;
        third.as_str(),
        "c021 01010016050600000004110405dc130401611704000c; "
    );
    assert_eq!(rt;
        last.as_str(),
        "c021 01010016050600000004110405dc1304016117040019; "
    );
    Ok(())
}

#[test]
fn reads_short_headers_where_granted(rt: HostRuntime) -> Result<(), Fail> {
    let steps = [
        Step::Frame(0x0021, &[0x45, 0]),
        Step::Datagram(true, false),
        Step::Datagram(false, true),
        Step::Datagram(true, true),
    ];
    // where the protocol isn't short, 21 and 45 are one, which is rejected
    let cases: [(&str, &[Step<'_>], &str); 5] = [
        (
            "a.protocols = [\"ip\"]",
            &steps,
            "got 0021 4500; c021 08010007214500; ",
        ),
        (
            "a.protocols = [\"ip\"]\na.acfc = true",
            &steps,
            "got 0021 4500; got 0021 4500; c021 08010007214500; c021 08020007214500; ",
        ),
        (
            "a.protocols = [\"ip\"]\na.pfc = true",
            &steps,
            "got 0021 4500; got 0021 4500; ",
        ),
        (
            "a.protocols = [\"ip\"]\na.acfc = true\na.pfc = true",
            &steps,
            "got 0021 4500; got 0021 4500; got 0021 4500; got 0021 4500; ",
        ),
        (
            "a.protocols = [\"ip\"]\nb.acfc = true\nb.pfc = true",
            &steps,
            "got 0021 4500; c021 08010007214500; ",
        ),
    ];
    check(rt.alloc(), &rt, OPENED, &cases)
}

#[test]
fn sends_as_the_peer_asked(rt: HostRuntime) -> Result<(), Fail> {
    // a frame of IPCP, and one of LCP, which keeps its whole header and its escapes
    let steps = [Step::Raw, Step::Octets(CODE_12), Step::Raw];
    let cases: [(&str, &[Step<'_>], &str); 3] = [
        (
            "a.protocols = [\"ip\"]\na.ip = \"10.0.0.1\"",
            &steps,
            "7eff7d2380217d217d217d207d2a7d237d267d2a7d207d207d2134e57e; c021 070100080c070004; \
             7eff7d23c0217d277d217d207d287d2c7d277d207d24769c7e; ",
        ),
        (
            "a.protocols = [\"ip\"]\na.ip = \"10.0.0.1\"\nb.accm = 0",
            &steps,
            "7eff0380210101000a03060a00000134e57e; c021 070100080c070004; \
             7eff7d23c0217d277d217d207d287d2c7d277d207d24769c7e; ",
        ),
        (
            "a.protocols = [\"ip\"]\na.ip = \"10.0.0.1\"\nb.accm = 0\nb.acfc = true\nb.pfc = true",
            &steps,
            "7e80210101000a03060a0000014a0b7e; c021 070100080c070004; \
             7eff7d23c0217d277d217d207d287d2c7d277d207d24769c7e; ",
        ),
    ];
    check(rt.alloc(), &rt, IP_ASKING, &cases)?;
    // what the peer asks for, the octets of information, and those of the Protocol-Reject
    let cuts = [
        ("", 1494, 1500),
        ("", 1495, 1500),
        ("b.mru = 128", 122, 128),
        ("b.mru = 128", 123, 128),
        ("b.mru = 8192", 3000, 1500),
        ("a.mru = 128", 1494, 1500),
    ];
    for (settings, length, size) in cuts {
        let info = vec![in rt.alloc(); 0xaa; length]?;
        let text = shown(
            rt.alloc(),
            settings,
            OPENED,
            &[Step::Frame(0xc023, info.as_slice())],
        )?;
        assert_eq!(rt;
            text.as_str().len(),
            "c021 ; ".len() + 2 * size,
            "at {settings}"
        );
    }
    Ok(())
}

/// The first octets of the frame with an unknown code, and the others.
const FRONT: &[u8] = &[0x7e, 0xff, 0x7d, 0x23, 0xc0, 0x21];

const REST: &[u8] = &[
    0x7d, 0x2c, 0x7d, 0x27, 0x7d, 0x20, 0x7d, 0x24, 0x87, 0xe8, 0x7e,
];

/// The line comes up in the middle of that frame.
const UP_WITHIN: &[Step<'static>] = &[
    Step::Octets(FRONT),
    Step::Deframer,
    Step::A(Call::Up),
    Step::Deframer,
    Step::Octets(REST),
];

#[test]
fn up_drops_an_unfinished_frame(rt: HostRuntime) -> Result<(), Fail> {
    let dropped = [("", UP_WITHIN, "held 4; no frame; held 0; no frame; ")];
    let kept = [(
        "",
        UP_WITHIN,
        "held 4; no frame; held 4; no frame; c021 070100080c070004; ",
    )];
    let starting = [Step::A(Call::Open(Proto::Lcp))];
    let down = [Step::A(Call::Up), Step::A(Call::Down)];
    let closed = [Step::A(Call::Up)];
    check(rt.alloc(), &rt, &[], &dropped)?;
    check(rt.alloc(), &rt, &starting, &dropped)?;
    check(rt.alloc(), &rt, &down, &dropped)?;
    check(rt.alloc(), &rt, &closed, &kept)?;
    check(rt.alloc(), &rt, ASKING, &kept)
}
