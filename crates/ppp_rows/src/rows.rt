//! Runs of the whole program that were worked out by hand.

use ppp_cli::{Status, ppp_run, run_surely};
use ppp_io::{MemSink, MemSource, SureSink, SureSource};
use std::alloc::Global;
use std::process::Abort;

pub(crate) const REPLAY: &[&str] = &["replay"];

const FEED: &[&str] = &["feed"];

const SHOW: &[&str] = &["show"];

const USAGE: &str =
    "usage: pppd replay, feed, show, vectors, soak SEED COUNT, serve TURNS, pair TURNS\n";

/// Both ends open the link, and show it.
const FIRST_RUN: &str = "version = 1\n---\nup a 1\nopen a 1 lcp\nup b 1\nopen b 1 lcp\n\
    deliver b 1\ndeliver a 1\ndeliver a 1\ndeliver b 1\nshow\n";

/// Words as a process has them.
fn words_of(alloc: Global, rt: &impl Abort, words: &[&str]) -> Vec<String> {
    let mut args = Vec::new(alloc);
    for word in words {
        let word = String::from_str(alloc, word).expect(rt, "memory");
        args.push(word).expect(rt, "memory");
    }
    args
}

/// Octets with memory of their own.
fn octets_of(alloc: Global, rt: &impl Abort, octets: &[u8]) -> Vec<u8> {
    Vec::from_slice(alloc, octets).expect(rt, "memory")
}

/// What the program answers to these words and this input over devices that never fail, and what it writes.
pub(crate) fn run_over(
    alloc: Global,
    rt: &impl Abort,
    words: &[&str],
    input: &[u8],
) -> (Status, Vec<u8>) {
    let args = words_of(alloc, rt, words);
    let mut source = SureSource::new(octets_of(alloc, rt, input), 1_000);
    let mut sink = SureSink::new(alloc, 2_000).expect(rt, "memory");
    let status = run_surely(alloc, &args, &mut source, &mut sink);
    assert!(rt; !sink.is_past_room());
    (status, octets_of(alloc, rt, sink.octets()))
}

/// A script's first lines, the same lines so many times, and its last lines.
pub(crate) fn repeating(
    alloc: Global,
    rt: &impl Abort,
    first: &str,
    lines: &str,
    times: u32,
    last: &str,
) -> String {
    let mut text = String::from_str(alloc, first).expect(rt, "memory");
    for _ in 0..times {
        text.push_str(lines).expect(rt, "memory");
    }
    text.push_str(last).expect(rt, "memory");
    text
}

#[test]
fn replays_what_was_worked_out(rt: HostRuntime) {
    let open = "up a 1\nopen a 1 lcp\n";
    let again = "down a 1\nup a 1\n";
    let widest = repeating(rt.alloc(), &rt, open, again, 255, "");
    let too_wide = repeating(rt.alloc(), &rt, open, again, 256, "");
    let shown_first = repeating(
        rt.alloc(),
        &rt,
        "show\nup a 1\nopen a 1 lcp\n",
        again,
        256,
        "show\n",
    );
    let too_many_steps = repeating(rt.alloc(), &rt, "", "settle 1000\n", 100, "show\n");
    // a script, the status, and the output
    let rows: [(&str, Status, &str); 14] = [
        // no lines
        ("", Status::Ok, ""),
        // both ends open by deliveries of what comes first, and more deliveries than there are frames
        (
            "up a 1\nopen a 1 lcp\nup b 1\nopen b 1 lcp\nsettle 6\nshow\n",
            Status::Ok,
            "show 11\n1 lcp Opened Opened 050600000004 050600000009 050600000009 050600000004 agree yes\n",
        ),
        (
            "settle 1000\nshow\n",
            Status::Ok,
            "show 1001\n1 lcp Initial Initial - - - - agree -\n",
        ),
        // a request that is sent again has its Ack already under way
        (
            "up a 1\nopen a 1 lcp\nup b 1\nopen b 1 lcp\ndeliver b 1\ntimeout a 1 lcp\ndeliver a 1\ndeliver a 1\n\
             show\ndeliver b 1\ndeliver b 1\ndeliver a 1\nshow\nsettle 10\nshow\n",
            Status::Ok,
            "show 9\n1 lcp Opened Ack-Sent 050600000004 050600000009 - 050600000004 agree -\n\
             show 13\n1 lcp Req-Sent Opened - - 050600000009 050600000004 agree -\n\
             show 24\n1 lcp Opened Opened 050600000004 050600000009 050600000009 050600000004 agree yes\n",
        ),
        // the line goes down at an end and comes up again
        (
            "up a 1\nopen a 1 lcp\nup b 1\nopen b 1 lcp\ndeliver b 1\ndeliver a 1\ndeliver a 1\ndeliver b 1\n\
             down a 1\nup a 1\ndeliver b 1\nshow\ndeliver a 1\ndeliver a 1\ndeliver b 1\nshow\n",
            Status::Ok,
            "show 12\n1 lcp Req-Sent Ack-Sent - - - 050600000014 agree -\n\
             show 16\n1 lcp Opened Opened 050600000014 050600000009 050600000009 050600000014 agree yes\n",
        ),
        // the restart counter is used up
        (
            "up a 1\nopen a 1 lcp\ntimeout a 1 lcp\ntimeout a 1 lcp\ntimeout a 1 lcp\ntimeout a 1 lcp\n\
             timeout a 1 lcp\ntimeout a 1 lcp\ntimeout a 1 lcp\ntimeout a 1 lcp\ntimeout a 1 lcp\n\
             timeout a 1 lcp\nshow\nup b 1\nopen b 1 lcp\ndeliver a 1\nshow\n",
            Status::Ok,
            "show 13\n1 lcp Stopped Initial - - - - agree -\n\
             show 17\n1 lcp Ack-Sent Req-Sent - 05060000001f - - agree -\n",
        ),
        // the first of two frames is lost
        (
            "up a 1\nopen a 1 lcp\ntimeout a 1 lcp\nlose b 1 1\nup b 1\nopen b 1 lcp\ndeliver b 1\ndeliver a 1\nshow\n",
            Status::Ok,
            "show 9\n1 lcp Ack-Sent Ack-Sent - 05060000000d - 050600000004 agree -\n",
        ),
        // the widest span of requests, one that is wider, and one behind a report
        (widest.as_str(), Status::Ok, ""),
        (
            too_wide.as_str(),
            Status::Outstanding(514),
            "outstanding step 514 end a link 1 lcp sent 257 oldest 1\n",
        ),
        (
            shown_first.as_str(),
            Status::Outstanding(515),
            "show 1\n1 lcp Initial Initial - - - - agree -\n\
             outstanding step 515 end a link 1 lcp sent 257 oldest 1\n",
        ),
        // lines that are no event's, of a link that isn't configured, and past the most steps
        ("fly a 1\n", Status::BadLine(1), "line 1 Event\n"),
        ("up a 1\nfly a 1", Status::BadLine(2), "line 2 Event\n"),
        ("up a 2\n", Status::BadLine(1), "line 1 Link\n"),
        (
            too_many_steps.as_str(),
            Status::BadLine(101),
            "line 101 Steps\n",
        ),
    ];
    for (script, status, output) in rows {
        let input = repeating(rt.alloc(), &rt, "version = 1\n---\n", "", 0, script);
        let (answered, written) = run_over(rt.alloc(), &rt, REPLAY, input.as_bytes());
        assert_eq!(rt; answered, status, "at {script:?}");
        assert_eq!(rt; written.as_slice(), output.as_bytes(), "at {script:?}");
    }
}

#[test]
fn replies_to_words_and_settings(rt: HostRuntime) {
    // words, an input, the status, and the output
    let rows: [(&[&str], &str, Status, &str); 12] = [
        // both ends open
        (
            REPLAY,
            FIRST_RUN,
            Status::Ok,
            "show 9\n1 lcp Opened Opened 050600000004 050600000009 050600000009 050600000004 agree yes\n",
        ),
        // settings that end with LF or with the input
        (REPLAY, "version = 1\n", Status::Ok, ""),
        (REPLAY, "version = 1", Status::Ok, ""),
        // settings that are refused
        (REPLAY, "", Status::BadConfig, "config version Missing\n"),
        (
            REPLAY,
            "version = 3",
            Status::BadConfig,
            "config version Range\n",
        ),
        // an end alone may speak multilink
        (
            REPLAY,
            "version = 1\nb.mrru = 8192\n---\nshow\n",
            Status::Ok,
            "show 1\n1 lcp Initial Initial - - - - agree -\n",
        ),
        // words that are no command's
        (&[], FIRST_RUN, Status::BadWords, USAGE),
        (&["soak", "01", "5"], FIRST_RUN, Status::BadWords, USAGE),
        (&["replay", "replay"], FIRST_RUN, Status::BadWords, USAGE),
        (&["replay", "x"], FIRST_RUN, Status::BadWords, USAGE),
        (&["show", "x"], "", Status::BadWords, USAGE),
        (&["feed", "x"], FIRST_RUN, Status::BadWords, USAGE),
    ];
    for (words, input, status, output) in rows {
        let (answered, written) = run_over(rt.alloc(), &rt, words, input.as_bytes());
        assert_eq!(rt; answered, status, "at {input:?}");
        assert_eq!(rt; written.as_slice(), output.as_bytes(), "at {input:?}");
    }
}

#[test]
fn feeds_what_was_worked_out(rt: HostRuntime) {
    let single = "version = 1\n---\n";
    // LCP without options, and IPCP
    let network = "version = 1\n[a]\nmagic = false\nprotocols = [\"ip\"]\nip = \"10.0.0.1\"\n---\n";
    // what stands before the lines, the lines, the status, and the output
    let rows: [(&str, &str, Status, &str); 15] = [
        // a packet with an unknown code, before LCP is opened
        (
            single,
            "up 1\nbytes 1 7eff7d23c0217d2c7d277d207d2487e87e\n",
            Status::Ok,
            "push 1 7eff7d23c0217d277d217d207d287d2c7d277d207d24769c7e\n",
        ),
        // LCP and IPCP come up, two datagrams come, the second without octets, and LCP is closed. A line has two frames, or
        // ends within one
        (
            network,
            "up 1\nopen 1 lcp\n\
             bytes 1 7EFF7D23C0217D227D217D207D247D3C907E7eff7d23c0217d217d277d207d247d28637e\n\
             bytes 1 7eff7d2380217d227d21\nbytes 1 7d207d2a7d237d267d2a7d207d207d215d917e\n\
             bytes 1 7eff7d2380217d217d227d207d2a7d237d267d2a7d207d207d22a87d217e\n\
             bytes 1 7eff7d237d2021457d2050767e7eff7d237d2021e3e67e\n\
             close 1 lcp\nbytes 1 7eff7d23c0217d267d217d207d24f0e27e\n",
            Status::Ok,
            "push 1 7eff7d23c0217d217d217d207d24d1b57e\n\
             push 1 7eff7d23c0217d227d277d207d24c5467e\n\
             push 1 7eff7d2380217d217d217d207d2a7d237d267d2a7d207d207d2134e57e\n\
             push 1 7eff7d2380217d227d227d207d2a7d237d267d2a7d207d207d22c1757e\n\
             got - ip 4500\n\
             got - ip \n\
             push 1 7eff7d23c0217d257d217d207d243dc77e\n\
             hang 1\n",
        ),
        // an Echo-Request in Opened, and a protocol that isn't known, before LCP is Opened and then
        (
            single,
            "up 1\nopen 1 lcp\nbytes 1 7eff7d23c0237d217d217d207d2459a37e\n\
             bytes 1 7eff7d23c0217d227d217d207d2a7d257d267d207d207d207d24c4557e7eff7d23c0217d217d217d207d24d1b57e\n\
             bytes 1 7eff7d23c0217d297d257d207d28aabbccdd7d2d2d7e\n\
             bytes 1 7eff7d23c0237d217d217d207d2459a37e\n",
            Status::Ok,
            "push 1 7eff7d23c0217d217d217d207d2a7d257d267d207d207d207d24ad217e\n\
             push 1 7eff7d23c0217d227d217d207d247d3c907e\n\
             push 1 7eff7d23c0217d2a7d257d207d287d207d207d207d24ec527e\n\
             push 1 7eff7d23c0217d287d217d207d2ac0237d217d217d207d24f5777e\n",
        ),
        // codes that LCP and IPCP don't know, in Opened, which both stay in
        (
            network,
            "up 1\nopen 1 lcp\n\
             bytes 1 7eff7d23c0217d227d217d207d247d3c907e7eff7d23c0217d217d217d207d24d1b57e\n\
             bytes 1 7eff7d2380217d227d217d207d2a7d237d267d2a7d207d207d215d917e\n\
             bytes 1 7eff7d2380217d217d217d207d2a7d237d267d2a7d207d207d22afd77e\n\
             bytes 1 7eff7d23c0217d2c7d277d207d2487e87e\n\
             bytes 1 7eff7d2380217d297d277d207d247d21847e\n\
             bytes 1 7eff7d237d2021457d2050767e\n",
            Status::Ok,
            "push 1 7eff7d23c0217d217d217d207d24d1b57e\n\
             push 1 7eff7d23c0217d227d217d207d247d3c907e\n\
             push 1 7eff7d2380217d217d217d207d2a7d237d267d2a7d207d207d2134e57e\n\
             push 1 7eff7d2380217d227d217d207d2a7d237d267d2a7d207d207d22c6a37e\n\
             push 1 7eff7d23c0217d277d217d207d287d2c7d277d207d24769c7e\n\
             push 1 7eff7d2380217d277d217d207d287d297d277d207d245aa37e\n\
             got - ip 4500\n",
        ),
        // the Magic-Numbers of two negotiations are the words of steps 2 and 4; the comment is no step
        (
            "version = 2\n[a]\nmagic = true\n---\n",
            "up 1\n# a remark\nopen 1 lcp\ndown 1\nup 1\n",
            Status::Ok,
            "push 1 7eff7d23c0217d217d217d207d2a7d257d267d207d207d207d24ad217e\n\
             push 1 7eff7d23c0217d217d227d207d2a7d257d267d207d207d207d28c63d7e\n",
        ),
        // nothing comes of a protocol that isn't configured, of a timer that isn't on, and of a datagram on a line that is down
        (
            single,
            "open 1 ip\ntimeout 1 lcp\nbytes 1 7eff7d237d2021457d2050767e\n",
            Status::Ok,
            "",
        ),
        // no lines
        (single, "", Status::Ok, ""),
        ("version = 1", "", Status::Ok, ""),
        // lines that are refused
        (single, "up a 1\n", Status::BadLine(1), "line 1 Event\n"),
        (single, "up 1\nup 2\n", Status::BadLine(2), "line 2 Link\n"),
        (single, "timeout 1 bap\n", Status::Ok, ""),
        (single, "call 1\n", Status::BadLine(1), "line 1 Event\n"),
        (
            single,
            "up 1\nbytes 1 7e7\n",
            Status::BadLine(2),
            "line 2 Event\n",
        ),
        // settings that are refused
        ("", "", Status::BadConfig, "config version Missing\n"),
        (
            "version = 1\na.ip = 1\n---\n",
            "fly\n",
            Status::BadConfig,
            "config a.ip Wrong\n",
        ),
    ];
    for (settings, lines, status, output) in rows {
        let input = repeating(rt.alloc(), &rt, settings, "", 0, lines);
        let (answered, written) = run_over(rt.alloc(), &rt, FEED, input.as_bytes());
        assert_eq!(rt; answered, status, "at {lines:?}");
        assert_eq!(rt; written.as_slice(), output.as_bytes(), "at {lines:?}");
    }
}

#[test]
fn shows_what_a_capture_holds(rt: HostRuntime) {
    // a capture, the status, and the output
    let rows: [(&str, Status, &str); 6] = [
        ("", Status::Ok, ""),
        // a frame whose information ends with an escaped flag, cut in that escape
        (
            "7eff7d23c0217d2b7d217d207d297d207d207d207d207d\n5ed97f7e\n7e\n",
            Status::Ok,
            "frame c021 0b010009000000007e Discard-Request id 1 data 000000007e\n",
        ),
        // an escape before the flag, a wrong check sequence, three octets, and two frames, the first with a short header
        (
            "7eff7d7e\nff7d23c0217d2c7d277d207d2487e97e\n0102037e\n3132333435363738396e907e\n\
             ff7d23c0217d2c7d277d207d2487e87e\n",
            Status::Ok,
            "discard Aborted\ndiscard BadFcs\ndiscard Short\nframe 0031 3233343536373839\n\
             frame c021 0c070004 Code-12 id 7\n",
        ),
        // an empty line, and lines that aren't pairs of hex digits
        ("\n7e\r\n", Status::Ok, ""),
        (
            "7e214500f5a77e\n\n7e7\n",
            Status::BadLine(3),
            "line 3 Event\n",
        ),
        ("# a remark\n", Status::BadLine(1), "line 1 Event\n"),
    ];
    for (capture, status, output) in rows {
        let (answered, written) = run_over(rt.alloc(), &rt, SHOW, capture.as_bytes());
        assert_eq!(rt; answered, status, "at {capture:?}");
        assert_eq!(rt; written.as_slice(), output.as_bytes(), "at {capture:?}");
    }
}

#[test]
fn a_frame_of_8201_octets_is_oversize(rt: HostRuntime) {
    let rows: [(u32, &str); 2] = [(8_200, "discard BadFcs\n"), (8_201, "discard Oversize\n")];
    for (count, output) in rows {
        let capture = repeating(rt.alloc(), &rt, "7e", "00", count, "7e\n");
        let (answered, written) = run_over(rt.alloc(), &rt, SHOW, capture.as_bytes());
        assert_eq!(rt; answered, Status::Ok, "at {count}");
        assert_eq!(rt; written.as_slice(), output.as_bytes(), "at {count}");
    }
}

#[test]
fn a_socket_of_65_letters_has_no_form(rt: HostRuntime) {
    let rows: [(u32, Status, &str); 2] = [
        (64, Status::Ok, ""),
        (65, Status::BadConfig, "config a.socket Form\n"),
    ];
    for (count, status, output) in rows {
        let input = repeating(
            rt.alloc(),
            &rt,
            "version = 1\na.socket = \"",
            "a",
            count,
            "\"\n",
        );
        let (answered, written) = run_over(rt.alloc(), &rt, REPLAY, input.as_bytes());
        assert_eq!(rt; answered, status, "at {count}");
        assert_eq!(rt; written.as_slice(), output.as_bytes(), "at {count}");
    }
}

#[test]
fn both_ends_ask_for_what_their_settings_have(rt: HostRuntime) {
    let lines = "---\nup a 1\nopen a 1 lcp\nup b 1\nopen b 1 lcp\nsettle 10\nshow\n";
    // the settings, the status, and the output
    let rows: [(&str, Status, &str); 7] = [
        // short headers at one end
        (
            "version = 2\n[a]\npfc = true\nacfc = true\n",
            Status::Ok,
            "show 15\n1 lcp Opened Opened 05060000000407020802 050600000009 050600000009 05060000000407020802 agree yes\n",
        ),
        // a unit, a map and no number at one end, and no option at the other
        (
            "version = 1\na.mru = 512\na.accm = 0\na.magic = false\nb.magic = false\n",
            Status::Ok,
            "show 15\n1 lcp Opened Opened 01040200020600000000 empty empty 01040200020600000000 agree yes\n",
        ),
        // two links, of which nothing happens to the second
        (
            "version = 1\nlinks = 2\n",
            Status::Ok,
            "show 15\n1 lcp Opened Opened 050600000004 050600000009 050600000009 050600000004 agree yes\n\
             2 lcp Initial Initial - - - - agree -\n",
        ),
        // a number out of its range, a rule that is broken, and a key that isn't known
        (
            "version = 1\na.mru = 127\n",
            Status::BadConfig,
            "config a.mru Range\n",
        ),
        (
            "version = 1\nb.bap = true\n",
            Status::BadConfig,
            "config b.bap Rule\n",
        ),
        (
            "version = 1\na.pfc = true\n",
            Status::BadConfig,
            "config a.pfc Unknown\n",
        ),
        // a network protocol at one end alone, where the other end rejects it
        (
            "version = 1\nb.protocols = [\"ip\"]\n",
            Status::Ok,
            "show 15\n1 lcp Opened Opened 050600000004 050600000009 050600000009 050600000004 agree yes\n\
             1 ip Absent Stopped - - - - agree -\n",
        ),
    ];
    for (settings, status, output) in rows {
        let input = repeating(rt.alloc(), &rt, settings, "", 0, lines);
        let (answered, written) = run_over(rt.alloc(), &rt, REPLAY, input.as_bytes());
        assert_eq!(rt; answered, status, "at {settings:?}");
        assert_eq!(rt; written.as_slice(), output.as_bytes(), "at {settings:?}");
    }
}

#[test]
fn an_octet_above_1048576_is_too_long(rt: HostRuntime) {
    // settings that are a comment alone
    let rows: [(usize, Status, &str); 2] = [
        (1_048_576, Status::BadConfig, "config version Missing\n"),
        (1_048_577, Status::TooLong, "too long\n"),
    ];
    for (length, status, output) in rows {
        let input = vec![in rt.alloc(); b'#'; length].expect(&rt, "memory");
        let (answered, written) = run_over(rt.alloc(), &rt, REPLAY, &input);
        assert_eq!(rt; answered, status, "at {length}");
        assert_eq!(rt; written.as_slice(), output.as_bytes(), "at {length}");
    }
}

#[test]
fn a_failed_read_gives_its_line(rt: HostRuntime) {
    let args = words_of(rt.alloc(), &rt, REPLAY);
    let input = octets_of(rt.alloc(), &rt, FIRST_RUN.as_bytes());
    let failing = vec![in rt.alloc(); 2].expect(&rt, "memory");
    let mut source = MemSource::new(input, 40, failing);
    let mut sink = SureSink::new(rt.alloc(), 100).expect(&rt, "memory");
    let status = ppp_run(rt.alloc(), &args, &mut source, &mut sink);
    assert_eq!(rt; status, Status::ReadFault);
    assert!(rt; sink.octets() == b"read fault\n".as_slice());
    assert_eq!(rt; source.faults(), 1);
}

#[test]
fn a_full_sink_holds_the_front_of_the_output(rt: HostRuntime) {
    let args = words_of(rt.alloc(), &rt, REPLAY);
    let input = octets_of(rt.alloc(), &rt, FIRST_RUN.as_bytes());
    let mut source = SureSource::new(input, 1_000);
    let mut sink = MemSink::new(rt.alloc(), 20, Vec::new(rt.alloc())).expect(&rt, "memory");
    let status = ppp_run(rt.alloc(), &args, &mut source, &mut sink);
    assert_eq!(rt; status, Status::WriteFault);
    assert!(rt; sink.octets() == b"show 9\n1 lcp Opened ".as_slice());
}

#[test]
fn each_status_has_its_number(rt: HostRuntime) {
    let rows = [
        (Status::Ok, 0),
        (Status::BadWords, 2),
        (Status::ReadFault, 3),
        (Status::TooLong, 4),
        (Status::BadConfig, 5),
        (Status::BadLine(1), 6),
        (Status::Outstanding(1), 7),
        (Status::WriteFault, 9),
        (Status::Memory, 10),
    ];
    for (status, code) in rows {
        assert_eq!(rt; status.code(), code);
    }
}
