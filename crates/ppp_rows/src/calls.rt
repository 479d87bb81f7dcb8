//! Runs of ends that ask each other for links and to drop them (after RFC 2125).

use crate::rows::{REPLAY, repeating, run_over};
use ppp_cli::Status;

/// Two ends that speak multilink and BACP on two links.
const SETTINGS: &str = "version = 1\nlinks = 2\n\
    [a]\nmrru = 1500\ndisc = \"1:61\"\nlink_disc = 10\nfavored = 1\nbap = true\n\
    [b]\nmrru = 1500\ndisc = \"1:62\"\nlink_disc = 20\nfavored = 2\nbap = true\n\
    ---\n";

/// Both ends ask to drop a link, each the other one, before they hear of it; a is favoured, and the last link stays.
const CROSSING: (&str, Status, &str) = (
    "up a 1\nup b 1\nup a 2\nup b 2\nopen a 1 lcp\nopen b 1 lcp\nopen a 2 lcp\nopen b 2 lcp\nsettle 20\n\
    drop a 2\ndrop b 1\nsettle 20\nshow\ndrop a 1\n",
    Status::Ok,
    "ask 29 a drop 2 sent\n\
    ask 30 b drop 1 sent\n\
    show 51\n\
    1 lcp Opened Opened 05060000000a110405dc130401611704000a 05060000000d110405dc1304016217040014 \
    05060000000d110405dc1304016217040014 05060000000a110405dc130401611704000a agree yes\n\
    1 bacp Opened Opened 010600000001 010600000002 010600000002 010600000001 agree yes\n\
    2 lcp Closed Stopping - - - - agree -\n\
    2 bacp Starting Starting - - - - agree -\n\
    a bundle 0162 links 1 control 1 marked - waiting -\n\
    b bundle 0161 links 1 control 1 marked - waiting -\n\
    ask 52 a drop 1 LastLink 0\n",
);

/// End a calls for a second link, which b grants.
const CALL: (&str, Status, &str) = (
    "up a 1\nup b 1\nup a 2\nup b 2\nopen a 1 lcp\nopen b 1 lcp\nsettle 20\ncall a 1\nsettle 5\nshow\n",
    Status::Ok,
    "ask 27 a call sent\n\
    show 33\n\
    1 lcp Opened Opened 05060000000a110405dc130401611704000a 05060000000d110405dc1304016217040014 \
    05060000000d110405dc1304016217040014 05060000000a110405dc130401611704000a agree yes\n\
    1 bacp Opened Opened 010600000001 010600000002 010600000002 010600000001 agree yes\n\
    2 lcp Closed Closed - - - - agree -\n\
    2 bacp Starting Starting - - - - agree -\n\
    a bundle 0162 links 1 control 1 marked - waiting -\n\
    b bundle 0161 links 1 control 1 marked - waiting -\n",
);

/// What isn't sent tells why, what waits and what is promised is shown, and an end that begins anew waits for nothing.
const ASKS: (&str, Status, &str) = (
    "call a 1\nup a 1\nup b 1\nup a 2\nup b 2\nopen a 1 lcp\nopen b 1 lcp\nsettle 20\ndrop a 2\ncallback b 1\ncallback b 1\n\
    timeout b 1 bap\nshow\nsettle 5\nopen a 2 lcp\nopen b 2 lcp\nsettle 20\ncall a 1\ndrop a 2\ndeliver b 1\ndrop b 2\n\
    status a 1 7\nshow\nsettle 9\nreboot b\nshow\n",
    Status::Ok,
    "ask 1 a call NotOpen\n\
    ask 28 a drop 2 NotOpen\n\
    ask 29 b callback sent\n\
    ask 30 b callback Waiting\n\
    show 32\n\
    1 lcp Opened Opened 05060000000c110405dc130401611704000a 05060000000f110405dc1304016217040014 \
    05060000000f110405dc1304016217040014 05060000000c110405dc130401611704000a agree yes\n\
    1 bacp Opened Opened 010600000001 010600000002 010600000002 010600000001 agree yes\n\
    2 lcp Closed Closed - - - - agree -\n\
    2 bacp Starting Starting - - - - agree -\n\
    a bundle 0162 links 1 control 1 marked - waiting -\n\
    b bundle 0161 links 1 control 1 marked - waiting callback\n\
    ask 60 a call Full 2\n\
    ask 61 a drop 2 sent\n\
    ask 63 b drop 2 Promised 2\n\
    show 65\n\
    1 lcp Opened Opened 05060000000c110405dc130401611704000a 05060000000f110405dc1304016217040014 \
    05060000000f110405dc1304016217040014 05060000000c110405dc130401611704000a agree yes\n\
    1 bacp Opened Opened 010600000001 010600000002 010600000002 010600000001 agree yes\n\
    2 lcp Opened Opened 05060000004c110405dc130401611704000b 05060000004f110405dc1304016217040015 \
    05060000004f110405dc1304016217040015 05060000004c110405dc130401611704000b agree yes\n\
    2 bacp Starting Starting - - - - agree -\n\
    a bundle 0162 links 1,2 control 1 marked - waiting drop 2\n\
    b bundle 0161 links 1,2 control 1 marked 2 waiting -\n\
    show 76\n\
    1 lcp Starting Initial - - - - agree -\n\
    1 bacp Starting Starting - - - - agree -\n\
    2 lcp Initial Initial - - - - agree -\n\
    2 bacp Starting Starting - - - - agree -\n",
);

#[test]
fn ends_ask_each_other(rt: HostRuntime) {
    for (lines, status, output) in [CROSSING, CALL, ASKS] {
        let input = repeating(rt.alloc(), &rt, SETTINGS, "", 0, lines);
        let (answered, written) = run_over(rt.alloc(), &rt, REPLAY, input.as_bytes());
        assert_eq!(rt; answered, status, "at {lines:?}");
        assert_eq!(rt; written.as_slice(), output.as_bytes(), "at {lines:?}");
    }
}

/// A request is under way while 256 indications are sent behind it: its span is too wide, and of an indication less it isn't.
#[test]
fn a_refusal_names_the_span_of_calls(rt: HostRuntime) {
    let open = "up a 1\nup b 1\nopen a 1 lcp\nopen b 1 lcp\nsettle 20\ncallback a 1\n";
    let before = repeating(rt.alloc(), &rt, SETTINGS, "", 0, open);
    for (count, status, output) in [
        (255, Status::Ok, "ask 25 a callback sent\n"),
        (
            256,
            Status::Outstanding(281),
            "ask 25 a callback sent\noutstanding step 281 end a link 1 bap sent 257 oldest 1\n",
        ),
    ] {
        let input = repeating(rt.alloc(), &rt, &before, "status a 1 5\n", count, "");
        let (answered, written) = run_over(rt.alloc(), &rt, REPLAY, input.as_bytes());
        assert_eq!(rt; answered, status);
        assert_eq!(rt; written.as_slice(), output.as_bytes());
    }
}
