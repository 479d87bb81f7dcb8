//! A world stepped event by event.

use crate::worlds::shown_behind;
use ppp_frame::FrameRef;
use ppp_packet::Proto;
use ppp_station::{CallAsk, Policy, Station};
use std::alloc::Global;
use std::process::Abort;

/// Settings with five protocols at both ends of two links that stay single.
const SINGLE: &str = "version = 1\nlinks = 2\n\
    [a]\nprotocols = [\"ip\", \"ipv6\", \"osi\", \"mpls\"]\nip = \"10.0.0.1\"\nifid = \"0000000000000001\"\nalign = 4\n\
    [b]\nprotocols = [\"ip\", \"ipv6\", \"osi\", \"mpls\"]\nip = \"10.0.0.2\"\nifid = \"0000000000000002\"\nalign = 1\n";

/// Settings with all six protocols at both ends of two links that are bundled.
const BUNDLED: &str = "version = 1\nlinks = 2\n\
    [a]\nprotocols = [\"ip\", \"ipv6\", \"osi\", \"mpls\"]\nip = \"10.0.0.1\"\nifid = \"0000000000000001\"\nalign = 4\n\
    mrru = 1500\ndisc = \"1:61\"\nlink_disc = 10\nfavored = 1\nbap = true\n\
    [b]\nprotocols = [\"ip\", \"ipv6\", \"osi\", \"mpls\"]\nip = \"10.0.0.2\"\nifid = \"0000000000000002\"\nalign = 1\n\
    mrru = 1500\ndisc = \"1:62\"\nlink_disc = 20\nfavored = 2\nbap = true\n";

/// LCP is opened on both links, and all that is under way is delivered.
const OPENING: &str =
    "up a 1\nopen a 1 lcp\nup b 1\nopen b 1 lcp\nup a 2\nopen a 2 lcp\nup b 2\nopen b 2 lcp\nsettle 60\n";

/// Looks at the report behind these lines and one that reports the states, and at whether the ends agree.
fn check<F: Policy + Drop, G: Policy + Drop>(
    alloc: Global,
    rt: &impl Abort,
    input: (&str, &str),
    policies: (F, G),
    report: &str,
    agreements: &[(u8, Proto, Option<bool>)],
)
    requires a { F.may policies.0 }
    requires b { G.may policies.1 }
{
    let (settings, lines) = input;
    let world = shown_behind(alloc, settings, lines, policies).expect(rt, "a world");
    assert_eq!(rt; world.report(), report.as_bytes());
    for (link, proto, agree) in agreements {
        assert_eq!(rt; world.agree(*link, *proto), *agree, "{proto} on {link}");
    }
}

/// What is shown once LCP is opened on both single links.
const SHOWN_SINGLE: &str = "show 69\n\
    1 lcp Opened Opened 050600000004 050600000009 050600000009 050600000004 agree yes\n\
    1 ip Opened Opened 03060a000001 03060a000002 03060a000002 03060a000001 agree yes\n\
    1 ipv6 Opened Opened 010a0000000000000001 010a0000000000000002 010a0000000000000002 010a0000000000000001 agree yes\n\
    1 osi Opened Opened 010304 010301 010301 010304 agree yes\n\
    1 mpls Opened Opened empty empty empty empty agree yes\n\
    2 lcp Opened Opened 05060000000c 050600000011 050600000011 05060000000c agree yes\n\
    2 ip Opened Opened 03060a000001 03060a000002 03060a000002 03060a000001 agree yes\n\
    2 ipv6 Opened Opened 010a0000000000000001 010a0000000000000002 010a0000000000000002 010a0000000000000001 agree yes\n\
    2 osi Opened Opened 010304 010301 010301 010304 agree yes\n\
    2 mpls Opened Opened empty empty empty empty agree yes\n";

/// What is shown once LCP is opened on both links of the bundle.
const SHOWN_BUNDLED: &str = "show 69\n\
    1 lcp Opened Opened 050600000004110405dc130401611704000a 050600000009110405dc1304016217040014 \
    050600000009110405dc1304016217040014 050600000004110405dc130401611704000a agree yes\n\
    1 ip Opened Opened 03060a000001 03060a000002 03060a000002 03060a000001 agree yes\n\
    1 ipv6 Opened Opened 010a0000000000000001 010a0000000000000002 010a0000000000000002 010a0000000000000001 agree yes\n\
    1 osi Opened Opened 010304 010301 010301 010304 agree yes\n\
    1 mpls Opened Opened empty empty empty empty agree yes\n\
    1 bacp Opened Opened 010600000001 010600000002 010600000002 010600000001 agree yes\n\
    2 lcp Opened Opened 05060000000c110405dc130401611704000b 050600000011110405dc1304016217040015 \
    050600000011110405dc1304016217040015 05060000000c110405dc130401611704000b agree yes\n\
    2 ip Starting Starting - - - - agree -\n\
    2 ipv6 Starting Starting - - - - agree -\n\
    2 osi Starting Starting - - - - agree -\n\
    2 mpls Starting Starting - - - - agree -\n\
    2 bacp Starting Starting - - - - agree -\n\
    a bundle 0162 links 1,2 control 1 marked - waiting -\n\
    b bundle 0161 links 1,2 control 1 marked - waiting -\n";

#[test]
fn two_opened_ends_agree(rt: HostRuntime) {
    for (input, report, agreements) in [
        (
            ("version = 1", ""),
            "show 1\n1 lcp Initial Initial - - - - agree -\n",
            &[(1, Proto::Lcp, None)],
        ),
        (
            (
                "version = 1\n[a]\nprotocols = [\"ip\"]\nip = \"10.0.0.1\"\n",
                "up a 1\nopen a 1 lcp\nup b 1\nopen b 1 lcp\n",
            ),
            "show 5\n1 lcp Req-Sent Req-Sent - - - - agree -\n1 ip Starting Absent - - - - agree -\n",
            &[(1, Proto::Lcp, None)],
        ),
        (
            (
                "version = 1",
                "up a 1\nopen a 1 lcp\nup b 1\nopen b 1 lcp\nsettle 6\n",
            ),
            "show 11\n1 lcp Opened Opened 050600000004 050600000009 050600000009 050600000004 agree yes\n",
            &[(1, Proto::Lcp, Some(true))],
        ),
    ] {
        let policies = (|_: &CallAsk| false, |_: &CallAsk| false);
        check(rt.alloc(), &rt, input, policies, report, agreements);
    }
}

#[test]
fn each_protocol_opens_on_each_single_link(rt: HostRuntime) {
    check(
        rt.alloc(),
        &rt,
        (SINGLE, OPENING),
        (|_: &CallAsk| false, |_: &CallAsk| false),
        SHOWN_SINGLE,
        &[
            (1, Proto::Lcp, Some(true)),
            (1, Proto::Mpls, Some(true)),
            (1, Proto::Bacp, None),
            (2, Proto::Ip, Some(true)),
            (2, Proto::Ipv6, Some(true)),
            (2, Proto::Osi, Some(true)),
            (2, Proto::Bacp, None),
            (3, Proto::Lcp, None),
        ],
    );
}

#[test]
fn control_protocols_open_on_the_control_link(rt: HostRuntime) {
    check(
        rt.alloc(),
        &rt,
        (BUNDLED, OPENING),
        (|_: &CallAsk| false, |_: &CallAsk| false),
        SHOWN_BUNDLED,
        &[(1, Proto::Bacp, Some(true)), (2, Proto::Bacp, None)],
    );
}

/// The frame that the deframer of a station's first link lends.
fn lent<'a, F: Policy>(rt: &impl Abort, station: &'a Station<F>) -> FrameRef<'a> {
    assert!(rt; station.links() >= 1);
    let deframer = station.link(1).deframer();
    assert!(rt; deframer.has_frame());
    deframer.frame()
}

/// Looks at the frames that both ends took last: end a took b's request and then its Ack, and b took a's request.
fn check_lent<F: Policy + Drop, G: Policy + Drop>(alloc: Global, rt: &impl Abort, policies: (F, G))
    requires a { F.may policies.0 }
    requires b { G.may policies.1 }
{
    let lines =
        "up a 1\nopen a 1 lcp\nup b 1\nopen b 1 lcp\ndeliver b 1\ndeliver a 1\ndeliver a 1\n";
    let world = shown_behind(alloc, "version = 1", lines, policies).expect(rt, "a world");
    let (a, b) = (lent(rt, world.a()), lent(rt, world.b()));
    assert_eq!(rt; (a.protocol, b.protocol), (0xc021, 0xc021));
    assert_eq!(rt; a.info, [2, 1, 0, 10, 5, 6, 0, 0, 0, 4].as_slice());
    assert_eq!(rt; b.info, [1, 1, 0, 10, 5, 6, 0, 0, 0, 4].as_slice());
}

#[test]
fn a_delivery_leaves_its_frame_in_the_deframer(rt: HostRuntime) {
    check_lent(rt.alloc(), &rt, (|_: &CallAsk| false, |_: &CallAsk| false));
}
