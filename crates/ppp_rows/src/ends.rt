//! Replays of two whole ends that were worked out by hand: network protocols, two links, and an end that begins anew.

use crate::rows::{REPLAY, repeating, run_over};
use ppp_cli::Status;

/// Both ends open the link.
const OPENING: &str = "up a 1\nopen a 1 lcp\nup b 1\nopen b 1 lcp\n\
    deliver b 1\ndeliver a 1\ndeliver a 1\ndeliver b 1\n";

/// Both ends have their line up and ask, on both of two links.
const BOTH_LINKS: &str = "up a 1\nopen a 1 lcp\nup b 1\nopen b 1 lcp\n\
    up a 2\nopen a 2 lcp\nup b 2\nopen b 2 lcp\n";

#[test]
fn whole_ends_do_what_was_worked_out(rt: HostRuntime) {
    let begun_anew = repeating(rt.alloc(), &rt, OPENING, "", 0, "reboot a\nshow\n");
    let opened = repeating(rt.alloc(), &rt, OPENING, "", 0, "show\n");
    let settled = repeating(rt.alloc(), &rt, BOTH_LINKS, "", 0, "settle 60\nshow\n");
    // the settings, a script, and the output
    let rows: [(&str, &str, &str); 8] = [
        // an end is given its address by the other
        (
            "version = 1\n[a]\nprotocols = [\"ip\"]\n[b]\nprotocols = [\"ip\"]\nip = \"10.0.0.1\"\ngive = \"10.0.0.2\"\n",
            "up a 1\nup b 1\nopen a 1 lcp\nopen b 1 lcp\nsettle 40\nshow\n",
            "show 45\n1 lcp Opened Opened 050600000006 050600000009 050600000009 050600000006 agree yes\n\
             1 ip Opened Opened 03060a000002 03060a000001 03060a000001 03060a000002 agree yes\n",
        ),
        // an end begins anew, and the other's line goes down
        (
            "version = 1\n",
            begun_anew.as_str(),
            "show 10\n1 lcp Initial Starting - - - - agree -\n",
        ),
        // short headers at one end
        (
            "version = 2\n[a]\npfc = true\nacfc = true\n",
            opened.as_str(),
            "show 9\n1 lcp Opened Opened 05060000000407020802 050600000009 050600000009 05060000000407020802 agree yes\n",
        ),
        // where an end begins anew, both requests under way are gone, and each end takes the other's new one
        (
            "version = 1\n",
            "up a 1\nopen a 1 lcp\nup b 1\nopen b 1 lcp\nreboot a\n\
             up a 1\nopen a 1 lcp\nup b 1\ndeliver b 1\ndeliver a 1\nshow\nsettle 2\nshow\n",
            "show 11\n1 lcp Ack-Sent Ack-Sent - 050600000011 - 05060000000e agree -\n\
             show 14\n1 lcp Opened Opened 05060000000e 050600000011 050600000011 05060000000e agree yes\n",
        ),
        // so it is on each link, and a network protocol stays one that is to be opened
        (
            "version = 1\nlinks = 2\na.protocols = [\"mpls\"]\nb.protocols = [\"mpls\"]\n",
            "up a 2\nopen a 2 lcp\nup b 2\nopen b 2 lcp\nopen b 1 lcp\nsettle 10\nreboot b\n\
             settle 1000\nshow\nup b 2\nopen b 2 lcp\nup a 2\nsettle 10\nshow\n",
            "show 1017\n1 lcp Initial Initial - - - - agree -\n1 mpls Starting Starting - - - - agree -\n\
             2 lcp Starting Initial - - - - agree -\n2 mpls Starting Starting - - - - agree -\n\
             show 1031\n1 lcp Initial Initial - - - - agree -\n1 mpls Starting Starting - - - - agree -\n\
             2 lcp Opened Opened 0506000007f8 0506000007f7 0506000007f7 0506000007f8 agree yes\n\
             2 mpls Opened Opened empty empty empty empty agree yes\n",
        ),
        // a network protocol at one end alone, where the other end rejects it
        (
            "version = 1\na.protocols = [\"ip\"]\na.ip = \"10.0.0.1\"\n",
            "up a 1\nopen a 1 lcp\nup b 1\nopen b 1 lcp\nsettle 4\nshow\ndeliver b 1\ndeliver a 1\nshow\n",
            "show 9\n1 lcp Opened Opened 050600000004 050600000009 050600000009 050600000004 agree yes\n\
             1 ip Req-Sent Absent - - - - agree -\n\
             show 12\n1 lcp Opened Opened 050600000004 050600000009 050600000009 050600000004 agree yes\n\
             1 ip Stopped Absent - - - - agree -\n",
        ),
        // nothing comes of a protocol that isn't configured, and of a timer that isn't on
        (
            "version = 1\nb.protocols = [\"osi\"]\n",
            "open a 1 osi\nclose a 1 ip\ntimeout a 1 bacp\ntimeout b 1 osi\ntimeout a 1 lcp\nclose b 1 osi\nshow\n",
            "show 7\n1 lcp Initial Initial - - - - agree -\n1 osi Absent Initial - - - - agree -\n",
        ),
        // LCP and each network protocol on two links
        (
            "version = 1\nlinks = 2\n\
             [a]\nprotocols = [\"ip\", \"ipv6\", \"osi\", \"mpls\"]\nip = \"10.0.0.1\"\nifid = \"0000000000000001\"\nalign = 4\n\
             [b]\nprotocols = [\"mpls\", \"osi\", \"ipv6\", \"ip\"]\nip = \"10.0.0.2\"\nifid = \"0000000000000002\"\n",
            settled.as_str(),
            "show 69\n1 lcp Opened Opened 050600000004 050600000009 050600000009 050600000004 agree yes\n\
             1 ip Opened Opened 03060a000001 03060a000002 03060a000002 03060a000001 agree yes\n\
             1 ipv6 Opened Opened 010a0000000000000001 010a0000000000000002 010a0000000000000002 010a0000000000000001 agree yes\n\
             1 osi Opened Opened 010304 empty empty 010304 agree yes\n\
             1 mpls Opened Opened empty empty empty empty agree yes\n\
             2 lcp Opened Opened 05060000000c 050600000011 050600000011 05060000000c agree yes\n\
             2 ip Opened Opened 03060a000001 03060a000002 03060a000002 03060a000001 agree yes\n\
             2 ipv6 Opened Opened 010a0000000000000001 010a0000000000000002 010a0000000000000002 010a0000000000000001 agree yes\n\
             2 osi Opened Opened 010304 empty empty 010304 agree yes\n\
             2 mpls Opened Opened empty empty empty empty agree yes\n",
        ),
    ];
    for (settings, script, output) in rows {
        let head = repeating(rt.alloc(), &rt, settings, "", 0, "---\n");
        let input = repeating(rt.alloc(), &rt, head.as_str(), "", 0, script);
        let (answered, written) = run_over(rt.alloc(), &rt, REPLAY, input.as_bytes());
        assert_eq!(rt; answered, Status::Ok, "at {settings:?} and {script:?}");
        assert_eq!(rt;
            written.as_slice(),
            output.as_bytes(),
            "at {settings:?} and {script:?}"
        );
    }
}

#[test]
fn a_refusal_names_the_span_that_is_too_wide(rt: HostRuntime) {
    // the spans of both ends on both links are made 255 wide
    let widen = "down a 1\nup a 1\ndown b 1\nup b 1\ndown a 2\nup a 2\ndown b 2\nup b 2\n";
    let head = repeating(
        rt.alloc(),
        &rt,
        "version = 1\nlinks = 2\n---\n",
        "",
        0,
        BOTH_LINKS,
    );
    let widest = repeating(rt.alloc(), &rt, head.as_str(), widen, 255, "");
    // lines behind that, the status, and the output. A step makes at most one span wider
    let rows: [(&str, Status, &str); 5] = [
        ("", Status::Ok, ""),
        (
            "down a 1\nup a 1\n",
            Status::Outstanding(2_050),
            "outstanding step 2050 end a link 1 lcp sent 257 oldest 1\n",
        ),
        (
            "down b 1\nup b 1\n",
            Status::Outstanding(2_050),
            "outstanding step 2050 end b link 1 lcp sent 257 oldest 1\n",
        ),
        (
            "down a 2\nup a 2\n",
            Status::Outstanding(2_050),
            "outstanding step 2050 end a link 2 lcp sent 257 oldest 1\n",
        ),
        (
            "show\ndown b 2\nup b 2\n",
            Status::Outstanding(2_051),
            "show 2049\n1 lcp Req-Sent Req-Sent - - - - agree -\n2 lcp Req-Sent Req-Sent - - - - agree -\n\
             outstanding step 2051 end b link 2 lcp sent 257 oldest 1\n",
        ),
    ];
    for (last, status, output) in rows {
        let input = repeating(rt.alloc(), &rt, widest.as_str(), "", 0, last);
        let (answered, written) = run_over(rt.alloc(), &rt, REPLAY, input.as_bytes());
        assert_eq!(rt; answered, status, "at {last:?}");
        assert_eq!(rt; written.as_slice(), output.as_bytes(), "at {last:?}");
    }
}

#[test]
fn a_network_protocol_has_a_span_of_its_own(rt: HostRuntime) {
    // LCP is Opened on the second link, and IPCP's first requests are under way; then end b closes and opens it
    let head =
        "version = 1\nlinks = 2\na.protocols = [\"ip\"]\nb.protocols = [\"ip\"]\nb.ip = \"10.0.0.2\"\n---\n\
        up a 2\nopen a 2 lcp\nup b 2\nopen b 2 lcp\nsettle 4\n";
    let again = "close b 2 ip\ntimeout b 2 ip\ntimeout b 2 ip\nopen b 2 ip\n";
    // how often, the status, and the output
    let rows: [(u32, Status, &str); 2] = [
        (255, Status::Ok, ""),
        (
            256,
            Status::Outstanding(1_032),
            "outstanding step 1032 end b link 2 ip sent 257 oldest 1\n",
        ),
    ];
    for (times, status, output) in rows {
        let input = repeating(rt.alloc(), &rt, head, again, times, "");
        let (answered, written) = run_over(rt.alloc(), &rt, REPLAY, input.as_bytes());
        assert_eq!(rt; answered, status, "at {times}");
        assert_eq!(rt; written.as_slice(), output.as_bytes(), "at {times}");
    }
}
